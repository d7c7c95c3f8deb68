// Whether a RESET's variable is driven by no equation and a REINITIAL's by some (34 where not).
ghost use Rattle.std.specs.Prelude.{List};
ghost use Rattle.semantics.specs.Sections.{Equation};
ghost use Rattle.plant.specs.Driven.{DrivenAt};
ghost use Rattle.schedules.specs.Nodes.{node_parted};
ghost use Rattle.schedule_read.specs.Indexed.{Tells};

use super::node::Node;
use plant::driven::is_driven;

// one node
pub fn one(node: Node<'_>, driven: &[bool]) -> bool
    ensures { (es : List Equation) → DrivenAt driven.now es → Tells (node_parted es) node.entry.kind node.entry.payload.now result }
{
    let b = node.payload;
    match node.kind {
        paper::nodes::RESET => !is_driven(usize::from(b[0]), driven),
        paper::nodes::REINITIAL => is_driven(usize::from(b[0]), driven),
        _ => true,
    }
}
