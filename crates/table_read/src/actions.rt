// The action section of a table (18, but for the operands), and where each node's operand stands.
ghost use Rattle.std.specs.Prelude.{◌≡◌, ◌≤◌, length};
ghost use Rattle.semantics.specs.Bytes.{is_some};
ghost use Rattle.edition.specs.Editions.{edition_of};
ghost use Rattle.semantics.specs.Tables.{node_exists};
ghost use Rattle.semantics.specs.TableFile.{action_kind, action_of_kind, read_action, read_action_count};
ghost use Rattle.semantics.specs.Tables.{judge_actions};
ghost use Rattle.paper.specs.Refusals.{judged_of, answered};
ghost use Rattle.table_read.specs.Ends.{Ends, EndsWith, follows, number_read};
ghost use Rattle.table_read.specs.ActionIndex.{node_of, action_index};

use edition::{Edition, NODES};
use paper::refusals::Refusal;

// why an action section is refused
const WRONG: Refusal = Refusal::TableActions;

// how many actions there are; by node, the kind of its action and where the operand starts and ends, or 0, 0 and 0:
// three arrays, since each is lent by itself, the kinds to the reader of the locations, all to the rows of a run's index
#[derive(Clone, Copy)]
pub struct Actions {
    pub count: usize,
    pub kinds: [u8; NODES],
    pub starts: [usize; NODES],
    pub ends: [usize; NODES],
}

// whether the operand has the form of its kind; one arm for each number of the paper, since an arm for two does not tell a proof which it is
fn operand(k: u8, b: &[u8]) -> bool
    ensures { result ≡ is_some (action_of_kind (action_kind k) b.now) }
{
    match k {
        paper::actions::TEST => true,
        paper::actions::WAIT => true,
        paper::actions::ASSIGN => b.len() >= 1,
        paper::actions::SWITCH => b.len() == 2,
        paper::actions::STOP => b.len() == 0,
        _ => false,
    }
}

// where the action at a place ends, if there is one
fn end(s: &[u8], at: usize, ed: Edition) -> Option<usize>
    requires { at ≤ length s.now }
    ensures { Ends (read_action (edition_of ed)) s.now at result }
{
    let w = edition::width(ed);
    if s.len() - at < w {
        return None;
    }
    let l = codec::number(s, at, ed);
    if l < w + 1 {
        return None;
    }
    if l > w + paper::NODE_BYTES {
        return None;
    }
    if s.len() - at - w < l {
        return None;
    }
    let b = at + w + w + 1;
    let e = b + (l - (w + 1));
    if operand(s[at + w + w], &s[b..e]) {
        Some(e)
    } else {
        None
    }
}

// the same where the node is low or above and there is such a node
fn next(s: &[u8], at: usize, low: usize, ed: Edition) -> Option<usize>
    requires { at ≤ length s.now }
    ensures { EndsWith (read_action (edition_of ed)) (follows node_of (node_exists (edition_of ed)) low) s.now at result }
{
    let q = end(s, at, ed)?;
    let node = codec::number(s, at + edition::width(ed), ed);
    if node < low {
        return None;
    }
    if node >= edition::node_limit(ed) {
        return None;
    }
    Some(q)
}

// how many actions there are, at least one and at most as many as the edition has nodes
fn count(s: &[u8], ed: Edition) -> Option<usize>
    ensures { result ≡ number_read (read_action_count (edition_of ed) s.now) }
{
    if s.len() < edition::width(ed) {
        return None;
    }
    let n = codec::number(s, 0, ed);
    if n < 1 {
        return None;
    }
    if n > edition::node_limit(ed) {
        return None;
    }
    Some(n)
}

// where they stand, one after the other, with numbers that rise
pub fn read(s: &[u8], ed: Edition) -> Result<Actions, Refusal>
    ensures { judged_of result ≡ answered (action_index (edition_of ed) s.now) (judge_actions (edition_of ed) s.now) }
{
    let Some(n) = count(s, ed) else {
        return Err(WRONG);
    };
    let w = edition::width(ed);
    let mut kinds = [0u8; NODES];
    let mut starts = [0usize; NODES];
    let mut ends = [0usize; NODES];
    let mut low = 0;
    let mut p = w;
    for _ in 0..n {
        let Some(q) = next(s, p, low, ed) else {
            return Err(WRONG);
        };
        let node = codec::number(s, p + w, ed);
        let kind = p + w + w;
        kinds[node] = s[kind];
        starts[node] = kind + 1;
        ends[node] = q;
        low = node + 1;
        p = q;
    }
    if p < s.len() {
        return Err(WRONG);
    }
    Ok(Actions {
        count: n,
        kinds,
        starts,
        ends,
    })
}
