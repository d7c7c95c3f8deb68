// The variable, or the selector and mode, that a node names (11).
ghost use Rattle.std.specs.Prelude.{List, ◌≤◌, length};
ghost use Rattle.semantics.specs.Sections.{Selector};
ghost use Rattle.plant.specs.ModeCounts.{ModesAt};
ghost use Rattle.schedules.specs.Nodes.{node_named};
ghost use Rattle.schedule_read.specs.Indexed.{Tells};

use super::node::Node;

// one node: a row for each kind, as document 01 lists them
pub fn one(node: Node<'_>, variables: usize, selectors: usize, modes: &[usize]) -> bool
    requires { selectors ≤ length modes.now }
    ensures { (cs : List Selector) → ModesAt modes.now selectors cs → Tells (node_named variables cs) node.entry.kind node.entry.payload.now result }
{
    let b = node.payload;
    match node.kind {
        paper::nodes::RESET => usize::from(b[0]) < variables,
        paper::nodes::REINITIAL => usize::from(b[0]) < variables,
        paper::nodes::SWITCH => plant::selectors::mode_exists(
            usize::from(b[0]),
            usize::from(b[1]),
            selectors,
            modes,
        ),
        _ => true,
    }
}
