// The record of an event, and the counts of a run.
#![tactic(auto)]

ghost use Rattle.std.specs.Prelude.{◌≡◌, ℕ, ◌+◌, ◌*◌, ◌≤◌, length};
ghost use mathlib.Core.List.{List, [], ◌∷◌, ◌++◌, flat_map};
ghost use Rattle.semantics.specs.Bytes.{within, big_endian};
ghost use Rattle.semantics.specs.Sections.{variable_limit, equation_limit};
ghost use Rattle.semantics.specs.Run.{set_number, value_bytes, record_bytes, how_many, counts_from};
ghost use Rattle.semantics.specs.Calls.{record_length_of};
ghost use Rattle.edition.specs.Editions.{edition_of};
ghost use Rattle.codec.specs.Writing.{Wrote};
ghost use Rattle.nodeset.specs.Sets.{members};
ghost use Rattle.records.specs.Booking.{Room};
ghost use Rattle.records.specs.Reported.{told};

use edition::Edition;
use nodeset::NodeSet;
use paper::answers::{ABOVE, BELOW, HALTED, TAKEN};

// Of the answers of a run: taken 200..202, turned away 23..31, faulted 203 and 204. By default none is counted.
#[derive(Clone, Copy, PartialEq, Eq, Default)]
pub struct Counts {
    pub taken: usize,
    pub turned_away: usize,
    pub faulted: usize,
}

impl Counts {
    // Counts one event's answer.
    pub fn book(&mut self, answer: u8)
        requires { Room self.old }
        ensures { (l : List ℕ) → told self.old ≡ counts_from l → told self.new ≡ counts_from (l ++ (answer ∷ [])) }
    {
        self.taken += one_within(TAKEN, HALTED, answer);
        self.turned_away += one_within(23, 31, answer);
        self.faulted += one_within(ABOVE, BELOW, answer);
    }
}

// 1 where the answer lies between two numbers, else 0.
fn one_within(low: u8, high: u8, answer: u8) -> usize
    ensures count { result ≡ how_many (within low high) (answer ∷ []) }
    ensures one { result ≤ 1 }
{
    usize::from((low..=high).contains(&answer))
}

// The bytes of a record, of so many variables and selectors.
pub fn record_length(variables: usize, selectors: usize, ed: Edition) -> usize
    requires { (variables ≤ variable_limit) × (selectors ≤ equation_limit) }
    ensures { result ≡ record_length_of (edition_of ed) variables selectors }
{
    1 + edition::set_bytes(ed) + 4 * variables + selectors
}

// The bytes of a set of nodes at a place, its highest word first, of so many words as the edition has; the next place.
fn put_set(d: &mut [u8], i: usize, acting: &NodeSet, ed: Edition) -> usize
    requires { i + (edition_of ed).set_bytes ≤ length d.old }
    ensures { (result ≡ i + (edition_of ed).set_bytes) × Wrote d.old i (big_endian (edition_of ed).set_bytes (set_number (members acting.now.words))) d.new }
{
    let mut at = i;
    for k in (0..edition::set_words(ed)).rev() {
        at = codec::put_slice(d, at, &acting.words[k].to_be_bytes());
    }
    at
}

// The values, four bytes each, at a place; the next place.
pub fn put_values(d: &mut [u8], i: usize, values: &[i32]) -> usize
    requires { i + 4 * length values.now ≤ length d.old }
    ensures { (result ≡ i + 4 * length values.now) × Wrote d.old i (flat_map value_bytes values.now) d.new }
{
    let mut at = i;
    for &z in values {
        at = codec::put_signed(d, at, z);
    }
    at
}

// The record of an event at a place: its answer, the acting nodes, values and modes; the next place.
pub fn put_record(
    d: &mut [u8],
    i: usize,
    answer: u8,
    acting: &NodeSet,
    values: &[i32],
    modes: &[u8],
    ed: Edition,
) -> usize
    requires { i + record_length_of (edition_of ed) (length values.now) (length modes.now) ≤ length d.old }
    ensures { (result ≡ i + record_length_of (edition_of ed) (length values.now) (length modes.now)) ×
        Wrote d.old i (record_bytes (edition_of ed) answer (set_number (members acting.now.words)) values.now modes.now) d.new }
{
    let j = codec::put1(d, i, answer);
    let k = put_set(d, j, acting, ed);
    let l = put_values(d, k, values);
    codec::put_slice(d, l, modes)
}
