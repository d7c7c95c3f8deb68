// The location section of a table (19), and where each location stands.
ghost use Rattle.std.specs.Prelude.{◌≡◌, List, ◌≤◌, length};
ghost use Rattle.edition.specs.Editions.{edition_of};
ghost use Rattle.semantics.specs.TableFile.{NodeAction, read_entry, read_location, read_location_count};
ghost use Rattle.semantics.specs.Tables.{is_going_on, entry_fits, location_fits, judge_locations};
ghost use Rattle.paper.specs.Refusals.{judged_of, answered};
ghost use Rattle.table_read.specs.Ends.{EndsWith, follows, number_read};
ghost use Rattle.table_read.specs.ActionIndex.{KindsSay};
ghost use Rattle.table_read.specs.LocationIndex.{entry_node, FitsKind, location_index};

use edition::Edition;
use paper::refusals::Refusal;

// why a location section is refused
const WRONG: Refusal = Refusal::TableLocations;

// how many locations there are; the place of each, and then 0
#[derive(Clone, Copy)]
pub struct Locations {
    pub count: usize,
    pub places: [usize; paper::LOCATIONS],
}

// a location of n, or finished
fn goes_on(t: usize, n: usize) -> bool
    ensures { result ≡ is_going_on n t }
{
    t < n || t == paper::targets::FINISHED
}

// whether the targets fit the kind
fn fits(k: u8, n: usize, t: usize, u: usize) -> bool
    ensures { FitsKind n k t u result }
{
    match k {
        paper::actions::TEST => goes_on(t, n) & goes_on(u, n),
        paper::actions::WAIT => goes_on(t, n) & (u == paper::targets::NONE),
        paper::actions::ASSIGN => goes_on(t, n) & (u == paper::targets::NONE),
        paper::actions::SWITCH => goes_on(t, n) & (u == paper::targets::NONE),
        paper::actions::STOP => (t == paper::targets::HALTED) & (u == paper::targets::NONE),
        _ => false,
    }
}

// where the entry at a place ends, if there is one, its node is low or above and the entry fits
fn entry(s: &[u8], at: usize, low: usize, n: usize, kinds: &[u8], ed: Edition) -> Option<usize>
    requires { at ≤ length s.now }
    ensures { (l : List NodeAction) → KindsSay l kinds.now → EndsWith (read_entry (edition_of ed)) (follows entry_node (entry_fits n l) low) s.now at result }
{
    let w = edition::width(ed);
    if s.len() - at < w + 4 {
        return None;
    }
    let node = codec::number(s, at, ed);
    if node < low {
        return None;
    }
    if node >= kinds.len() {
        return None;
    }
    let t = codec::nat2(s, at + w);
    let u = codec::nat2(s, at + w + 2);
    if fits(kinds[node], n, t, u) {
        Some(at + w + 2 + 2)
    } else {
        None
    }
}

// where the location at a place ends, if there is one and it fits
fn location(s: &[u8], at: usize, n: usize, kinds: &[u8], ed: Edition) -> Option<usize>
    requires { at ≤ length s.now }
    ensures { (l : List NodeAction) → KindsSay l kinds.now → EndsWith (read_location (edition_of ed)) (location_fits n l) s.now at result }
{
    if s.len() <= at {
        return None;
    }
    let c = usize::from(s[at]);
    if c < 1 {
        return None;
    }
    let mut low = 0;
    let mut p = at + 1;
    for _ in 0..c {
        let q = entry(s, p, low, n, kinds, ed)?;
        low = codec::number(s, p, ed) + 1;
        p = q;
    }
    Some(p)
}

// how many locations there are, 1 to 1024
fn count(s: &[u8]) -> Option<usize>
    ensures { result ≡ number_read (read_location_count s.now) }
{
    if s.len() < 2 {
        return None;
    }
    let n = codec::nat2(s, 0);
    if n < 1 {
        return None;
    }
    if n > paper::LOCATIONS {
        return None;
    }
    Some(n)
}

// where they stand, one after the other; kinds: of each node's action, 0 where there is none
pub fn read(s: &[u8], kinds: &[u8], ed: Edition) -> Result<Locations, Refusal>
    ensures { (l : List NodeAction) → KindsSay l kinds.now → judged_of result ≡ answered (location_index (edition_of ed) s.now) (judge_locations (edition_of ed) l s.now) }
{
    let Some(n) = count(s) else {
        return Err(WRONG);
    };
    let mut places = [0usize; paper::LOCATIONS];
    let mut p = 2;
    for i in 0..n {
        let Some(q) = location(s, p, n, kinds, ed) else {
            return Err(WRONG);
        };
        places[i] = p;
        p = q;
    }
    if p < s.len() {
        return Err(WRONG);
    }
    Ok(Locations { count: n, places })
}
