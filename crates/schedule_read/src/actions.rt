// By node the kind of its action, as a table has it.
ghost use Rattle.std.specs.Prelude.{◌≤◌, length};
ghost use Rattle.schedule_read.specs.Actions.{ActsAs, ActionKinds};

use edition::NODES;

// of a node of kind k; 0, as a run's index has it, where it has no action
fn kind(k: u8) -> u8
    ensures { ActsAs k result }
{
    match k {
        paper::nodes::WHILE => paper::actions::TEST,
        paper::nodes::IF => paper::actions::TEST,
        paper::nodes::CONTINUE => paper::actions::WAIT,
        paper::nodes::RESET => paper::actions::ASSIGN,
        paper::nodes::REINITIAL => paper::actions::ASSIGN,
        paper::nodes::SWITCH => paper::actions::SWITCH,
        paper::nodes::STOP => paper::actions::STOP,
        _ => 0,
    }
}

pub fn kinds(kinds: &[u8], count: usize) -> [u8; NODES]
    requires { (count ≤ 256) × (count ≤ length kinds.now) }
    ensures { ActionKinds kinds.now count result }
{
    let mut acts = [0u8; NODES];
    for i in 0..count {
        acts[i] = kind(kinds[i]);
    }
    acts
}
