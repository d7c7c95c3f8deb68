// The tree that the nodes of a schedule make (10): where the subtree of each node ends.
ghost use Rattle.std.specs.Prelude.{◌≡◌, List, map, ◌≤◌, length, replicate};
ghost use Rattle.std.proofs.Math.Option.{some};
ghost use Rattle.semantics.specs.Editions.{Edition};
ghost use Rattle.schedules.specs.Nodes.{Node, nodes_in};
ghost use Rattle.schedules.specs.Trees.{children};
ghost use Rattle.codec.specs.Padding.{pad};
ghost use Rattle.tree_read.specs.Index.{IndexOf};
ghost use Rattle.tree_read.specs.Ends.{TreeIn};
ghost use Rattle.tree_read.specs.Walks.{Makes, NodeWalked, NodesWalked};

use paper::refusals::Refusal;

// the children of a node of kind k whose payload starts here
fn children_of(s: &[u8], k: u8, start: usize) -> u8
    requires { (x : Node) × Makes s.now k start x }
    ensures { (x : Node) → Makes s.now k start x → result ≡ children x }
{
    match k {
        paper::nodes::SEQUENCE => s[start],
        paper::nodes::PARALLEL => s[start],
        paper::nodes::WHILE => 1,
        paper::nodes::IF => 2,
        _ => 0,
    }
}

// the child counts of m nodes of these kinds whose payloads start there
fn child_counts(
    s: &[u8],
    kinds: &[u8; edition::NODES],
    starts: &[usize; edition::NODES],
    m: usize,
) -> [u8; edition::NODES]
    requires { (ed : Edition) × IndexOf ed s.now kinds.now starts.now m }
    ensures { (ed : Edition) (ns : List Node) → IndexOf ed s.now kinds.now starts.now m → nodes_in ed s.now ≡ some ns
        → result ≡ pad 256 0 (map children ns) }
{
    let mut counts = [0u8; edition::NODES];
    for i in 0..m {
        counts[i] = children_of(s, kinds[i], starts[i]);
    }
    counts
}

// Document 01 names these two functions, which call each other.
// node n, and the nodes below it: where it ends goes to ends[n]; the number of the next node, where a tree is read
#[cycle(forest_node)]
fn node(counts: &[u8], ends: &mut [usize], n: usize) -> Option<usize>
    requires { length counts.now ≤ length ends.old }
    ensures { NodeWalked counts.now n ends.old ends.new result }
{
    if n >= counts.len() {
        return None;
    }
    let e = forest(counts, ends, n + 1, counts[n])?;
    ends[n] = e;
    Some(e)
}

// k trees from node n on
#[cycle(forest_node)]
fn forest(counts: &[u8], ends: &mut [usize], n: usize, k: u8) -> Option<usize>
    requires { (length counts.now ≤ length ends.old) × (n ≤ length counts.now) }
    ensures { NodesWalked counts.now k n ends.old ends.new result }
{
    if k == 0 {
        return Some(n);
    }
    let m = node(counts, ends, n)?;
    forest(counts, ends, m, k - 1)
}

// Of the m nodes of s, whatever edition they were read in: whether they make just one tree. Where they do, the ends of their subtrees are laid in an array
// that holds zeros.
pub fn read(
    s: &[u8],
    kinds: &[u8; edition::NODES],
    starts: &[usize; edition::NODES],
    m: usize,
    ends: &mut [usize; edition::NODES],
) -> Result<(), Refusal>
    requires { ((ed : Edition) × IndexOf ed s.now kinds.now starts.now m) × (ends.old ≡ replicate 256 0) }
    ensures { (ed : Edition) → IndexOf ed s.now kinds.now starts.now m → TreeIn ed s.now result ends.new }
{
    let counts = child_counts(s, kinds, starts, m);
    match node(&counts[..m], ends, 0) {
        Some(e) if e == m => Ok(()),
        _ => Err(Refusal::NoTree),
    }
}
