// How a reader fills a program's rows.
ghost use Rattle.std.specs.Prelude.{◌≡◌, ℕ, ◌++◌, map, ◌+◌, ◌≤◌, length};
ghost use Rattle.std.proofs.lemmas.List.Edits.{sets};
ghost use Rattle.program.specs.Filled.{shifted_by, Filled};

use super::{ENTRIES, RANGES};
use plant::sections::PlantRead;

// a place in a section that starts at `by`, as a place in the file
fn shifted(p: usize, by: usize) -> usize
    ensures { result ≡ shifted_by by p }
{
    p.checked_add(by).unwrap_or(0)
}

// a row from entry i on: what `entry` makes of each of `from`
fn put_row<T: Copy, F: Fn(T) -> usize>(ix: &mut [usize; ENTRIES], i: usize, from: &[T], entry: F)
    requires { (i + length from.now ≤ 2048) × F.IsAlwaysCallable entry }
    ensures { (f : T → ℕ) → ((x : T) (r : ℕ) → F.post entry x r → r ≡ f x) → ix.new ≡ sets ix.old i (map f from.now) }
{
    for (k, x) in from.iter().enumerate() {
        ix[i + k] = entry(*x);
    }
}

// places of a section that starts at `by`, from entry i on
fn put_places(ix: &mut [usize; ENTRIES], i: usize, from: &[usize], by: usize)
    requires { i + length from.now ≤ 2048 }
    ensures { ix.new ≡ sets ix.old i (map (shifted_by by) from.now) }
{
    put_row(ix, i, from, |p| shifted(p, by));
}

fn put_kinds(ix: &mut [usize; ENTRIES], from: &[u8])
    requires { 256 + length from.now ≤ 2048 }
    ensures { ix.new ≡ sets ix.old 256 from.now }
{
    put_row(ix, super::KINDS, from, |kind| usize::from(kind));
}

// All rows but that of locations: of a plant whose equations start at `equations` in the file, and of nodes with actions of these kinds whose
// operands start and end there in a section that starts at `operands`.
pub fn put_index<'a>(
    ix: &mut [usize; ENTRIES],
    p: PlantRead,
    kinds: &'a [u8],
    starts: &'a [usize],
    ends: &'a [usize],
    equations: usize,
    operands: usize,
)
    requires { (length ix.old ≡ 2048) × (length kinds.now ≤ 256) × (length starts.now ≤ 256) × (length ends.now ≤ 256) }
    ensures { Filled p kinds.now starts.now ends.now equations operands ix.new }
{
    put_places(ix, 0, &p.mode_offsets, equations);
    put_kinds(ix, kinds);
    put_places(ix, super::STARTS, starts, operands);
    put_places(ix, super::ENDS, ends, operands);
}

// the row of locations, in a section that starts at `by`
pub fn put_locations(ix: &mut [usize; ENTRIES], places: &[usize], by: usize)
    requires { length places.now ≤ 1024 }
    ensures { ix.new ≡ sets ix.old 1024 (map (shifted_by by) places.now) }
{
    put_places(ix, super::LOCATIONS, places, by);
}

// a row of ranges and rates, from entry i on
fn put_ranges(rs: &mut [i32; RANGES], i: usize, from: &[i32])
    requires { i + length from.now ≤ 96 }
    ensures { rs.new ≡ sets rs.old i from.now }
{
    rs[i..i + from.len()].copy_from_slice(from);
}

// the ranges and rates of a plant
pub fn ranges(p: PlantRead) -> [i32; RANGES]
    ensures { result ≡ p.lows ++ (p.highs ++ p.steady) }
{
    let mut rs = [0i32; RANGES];
    put_ranges(&mut rs, 0, &p.lows);
    put_ranges(&mut rs, super::HIGHS, &p.highs);
    put_ranges(&mut rs, super::STEADY, &p.steady);
    rs
}
