// The entries of a location: its acting nodes, and where their moves lead.
ghost use Rattle.edition.specs.Editions.{edition_of};
ghost use Rattle.table_step.specs.Entries.{Located, Gathered, Found};

use edition::Edition;
use nodeset::NodeSet;

// the nodes of the location at a place
pub fn acting(t: &[u8], at: usize, ed: Edition) -> NodeSet
    requires { Located (edition_of ed) t.now at }
    ensures { Gathered (edition_of ed) t.now at result.words }
{
    let mut set = NodeSet::new();
    let mut p = at + 1;
    for _ in 0..t[at] {
        set.put(codec::number(t, p, ed));
        p += edition::entry_bytes(ed);
    }
    set
}

// where node n of the location at a place goes, on done or true, or on false; FFFF where it has no entry: the number is a target of the table's
// layout, in which FFFE, FFFD and FFFF stand beside the locations
pub fn target(t: &[u8], at: usize, n: usize, truth: bool, ed: Edition) -> usize
    requires { Located (edition_of ed) t.now at }
    ensures { Found (edition_of ed) t.now at n truth result }
{
    let mut p = at + 1;
    for _ in 0..t[at] {
        if codec::number(t, p, ed) == n {
            let q = p + edition::width(ed);
            if truth {
                return codec::nat2(t, q);
            }
            return codec::nat2(t, q + 2);
        }
        p += edition::entry_bytes(ed);
    }
    paper::targets::NONE
}
