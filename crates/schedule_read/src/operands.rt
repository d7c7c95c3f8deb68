// The truth or number of a node (12).
ghost use Rattle.std.specs.Prelude.{◌≤◌};
ghost use Rattle.semantics.specs.Editions.{Edition};
ghost use Rattle.schedules.specs.Nodes.{node_reads};
ghost use Rattle.schedule_read.specs.Indexed.{Tells};

use super::node::Node;

// one node: a row for each kind, as document 01 lists them
pub fn one(node: Node<'_>, variables: usize) -> bool
    requires { variables ≤ 32 }
    ensures { (ed : Edition) → Tells (node_reads ed variables) node.entry.kind node.entry.payload.now result }
{
    let b = node.payload;
    match node.kind {
        paper::nodes::WHILE => expression::truth_reads(b, variables),
        paper::nodes::IF => expression::truth_reads(b, variables),
        paper::nodes::CONTINUE => expression::truth_reads(b, variables),
        paper::nodes::RESET => expression::number_reads(&b[1..], variables),
        paper::nodes::REINITIAL => expression::number_reads(&b[1..], variables),
        _ => true,
    }
}
