// The layout of the schedule section (9), and its nodes by number.
ghost use Rattle.std.specs.Prelude.{◌≡◌, ℕ, ◌≤◌, List, length, replicate};
ghost use Rattle.semantics.specs.Bytes.{is_some};
ghost use Rattle.paper.specs.Refusals.{judged_of, answered};
ghost use Rattle.edition.specs.Editions.{edition_of};
ghost use Rattle.schedules.specs.Nodes.{Node, kind_of, child_count, node_of};
ghost use Rattle.schedules.specs.Files.{judge_node_section};
ghost use Rattle.tree_read.specs.Index.{FoundAt, nodes_as, nodes_of};

use edition::Edition;
use paper::refusals::Refusal;

// three columns, since moves, sizes, numbering and table_write are lent one or two of them each; kinds are bytes of the file
#[derive(Clone, Copy)]
pub struct Nodes {
    pub count: usize,
    pub kinds: [u8; edition::NODES],
    pub starts: [usize; edition::NODES],
    pub ends: [usize; edition::NODES],
}

// a node's kind, and where its payload starts and ends
#[derive(Clone, Copy)]
struct Found {
    kind: u8,
    start: usize,
    end: usize,
}

// the payload is a child count, of a SEQUENCE or a PARALLEL
fn one_count(b: &[u8]) -> bool
    ensures { (f : ℕ → Node) → result ≡ is_some (child_count f b.now) }
{
    b.len() == 1 && b[0] >= 1
}

// a row for each kind, as document 01 lists them: whether these bytes are its payload
fn payload(k: u8, b: &[u8]) -> bool
    ensures { result ≡ is_some (node_of (kind_of k) b.now) }
{
    match k {
        paper::nodes::SEQUENCE => one_count(b),
        paper::nodes::PARALLEL => one_count(b),
        paper::nodes::WHILE => true,
        paper::nodes::IF => true,
        paper::nodes::CONTINUE => true,
        paper::nodes::RESET => !b.is_empty(),
        paper::nodes::REINITIAL => !b.is_empty(),
        paper::nodes::SWITCH => b.len() == 2,
        paper::nodes::STOP => b.is_empty(),
        _ => false,
    }
}

// the node at a place, where one stands there
fn node(s: &[u8], at: usize, ed: Edition) -> Option<Found>
    requires { at ≤ length s.now }
    ensures { FoundAt (edition_of ed) s.now at result }
{
    let w = edition::width(ed);
    if s.len() - at < w {
        return None;
    }
    let l = codec::number(s, at, ed);
    if l < 1 {
        return None;
    }
    if l > paper::NODE_BYTES {
        return None;
    }
    if s.len() - at - w < l {
        return None;
    }
    let kind = s[at + w];
    let start = at + w + 1;
    let end = at + w + l;
    if !payload(kind, &s[start..end]) {
        return None;
    }
    Some(Found { kind, start, end })
}

// The nodes of a section, laid in arrays that hold zeros: how many there are.
pub fn read(
    s: &[u8],
    kinds: &mut [u8; edition::NODES],
    starts: &mut [usize; edition::NODES],
    ends: &mut [usize; edition::NODES],
    ed: Edition,
) -> Result<usize, Refusal>
    requires { (kinds.old ≡ replicate 256 0) × (starts.old ≡ replicate 256 0) × (ends.old ≡ replicate 256 0) }
    ensures answers { judged_of result ≡ answered (λ (ns : List Node). length ns) (judge_node_section (edition_of ed) s.now) }
    ensures laid { (n : ℕ) → result ≡ Ok n → nodes_as n kinds.new starts.new ends.new ≡ nodes_of (edition_of ed) s.now }
{
    let w = edition::width(ed);
    if s.len() < w {
        return Err(Refusal::NodeLayout);
    }
    let n = codec::number(s, 0, ed);
    if n < 1 {
        return Err(Refusal::NodeLayout);
    }
    if n > edition::node_limit(ed) {
        return Err(Refusal::NodeLayout);
    }
    let mut p = w;
    for i in 0..n {
        let x = node(s, p, ed).ok_or(Refusal::NodeLayout)?;
        kinds[i] = x.kind;
        starts[i] = x.start;
        ends[i] = x.end;
        p = x.end;
    }
    if p < s.len() {
        return Err(Refusal::NodeLayout);
    }
    Ok(n)
}
