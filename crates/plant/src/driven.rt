// The equation section once more, after 6 and 7: no variable in two equations or twice in one mode (8), and which variables are driven (for 34).
// The walk is that of truths.rt. One walk with a closure would ask of it what is known of each part's bytes, and follow the marks from call to
// call: its contract is longer than both walks.
ghost use Rattle.std.specs.Prelude.{◌≡◌, ℕ};
ghost use mathlib.Core.List.{List, ◌++◌, flat_map};
ghost use Rattle.std.proofs.Math.Option.{some};
ghost use Rattle.paper.specs.Refusals.{judged_of, answered};
ghost use Rattle.semantics.specs.Bytes.{times};
ghost use Rattle.semantics.specs.Sections.{Equation, read_rate, read_mode, equation_in_bytes, equations_in};
ghost use Rattle.semantics.specs.Plant.{drives, equation_once, is_driven_in, rates_drive, mode_drives};
ghost use Rattle.plant.specs.Driven.{Named, Held, Few, Marks, rates_once, modes_apart, Tried, TriedAt, judge_driven, driven_marks, DrivenAt};

use crate::places::mode_end;
use paper::refusals::Refusal;

// n rates from a place on: none of a variable marked before, no variable twice; their variables are marked
fn rates(
    s: &[u8],
    at: usize,
    n: usize,
    before: &[bool; paper::VARIABLES],
    seen: &mut [bool; paper::VARIABLES],
) -> bool
    requires { Held (times n read_rate) rates_drive s.now at }
    ensures { TriedAt (times n read_rate) rates_once rates_drive s.now at before.now seen.old result seen.new }
{
    let mut mine = [false; paper::VARIABLES];
    for i in 0..n {
        let v = usize::from(s[at + 5 * i]);
        if before[v] || mine[v] {
            return false;
        }
        mine[v] = true;
        seen[v] = true;
    }
    true
}

// n modes of a CASE: each as above
fn modes(
    s: &[u8],
    at: usize,
    n: usize,
    before: &[bool; paper::VARIABLES],
    seen: &mut [bool; paper::VARIABLES],
) -> bool
    requires { Held (times n read_mode) (flat_map mode_drives) s.now at }
    ensures { TriedAt (times n read_mode) modes_apart (flat_map mode_drives) s.now at before.now seen.old result seen.new }
{
    let mut p = at;
    for _ in 0..n {
        if !rates(s, p + 1, usize::from(s[p]), before, seen) {
            return false;
        }
        p = mode_end(s, p);
    }
    true
}

// an equation's bytes: the variables marked so far are those of the equations before it
fn equation(s: &[u8], seen: &mut [bool; paper::VARIABLES]) -> bool
    requires { Few (equation_in_bytes s.now) drives }
    ensures { (q : Equation) → equation_in_bytes s.now ≡ some q → (before : List ℕ) → Marks before seen.old
        → Tried (equation_once before q) (drives q ++ before) result seen.new }
{
    let before = *seen;
    if s[0] == 1 {
        return rates(s, 1, 1, &before, seen);
    }
    modes(s, 3, usize::from(s[2]), &before, seen)
}

// 8, and which variables are driven, of a section that 6 and 7 let pass
pub fn read(s: &[u8]) -> Result<[bool; paper::VARIABLES], Refusal>
    requires { Named s.now }
    ensures { (es : List Equation) → equations_in s.now ≡ some es → judged_of result ≡ answered driven_marks (judge_driven es) }
{
    let mut seen = [false; paper::VARIABLES];
    let mut p = 1;
    for _ in 0..s[0] {
        let b = p + 2;
        let e = b + codec::nat2(s, p);
        if !equation(&s[b..e], &mut seen) {
            return Err(Refusal::DrivenTwice);
        }
        p = e;
    }
    Ok(seen)
}

// some equation drives variable v
pub fn is_driven(v: usize, marks: &[bool]) -> bool
    ensures { (es : List Equation) → DrivenAt marks.now es → result ≡ is_driven_in es v }
{
    v < marks.len() && marks[v]
}
