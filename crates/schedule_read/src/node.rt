// A node by its kind and payload, as the checks of all nodes look at it.
ghost use Rattle.std.specs.Prelude.{◌≡◌, ◌<◌, true, get_or};
ghost use Rattle.semantics.specs.Bytes.{is_some};
ghost use Rattle.schedules.specs.Nodes.{kind_of, node_of};
ghost use Rattle.codec.specs.Parts.{part_at};
ghost use Rattle.schedule_read.specs.Indexed.{Indexed};

use tree_read::nodes::Nodes;

// a kind and a payload that make a node
#[derive(Clone, Copy)]
pub struct Node<'a> {
    pub kind: u8,
    pub payload: &'a [u8],
    pub ghost made: { is_some (node_of (kind_of kind) payload.now) ≡ true },
}

// node i of those that stand in s
pub fn at<'a>(s: &'a [u8], nodes: &Nodes, i: usize) -> Node<'a>
    requires { Indexed s.now nodes.now × (i < nodes.now.count) }
    ensures kind { result.kind ≡ get_or nodes.now.kinds i 0 }
    ensures payload { result.payload.now ≡ part_at s.now nodes.now.starts nodes.now.ends i }
{
    Node {
        kind: nodes.kinds[i],
        payload: &s[nodes.starts[i]..nodes.ends[i]],
    }
}
