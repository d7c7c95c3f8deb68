// The equation section: its layout (6), its names (7), and where its modes stand.
ghost use Rattle.std.specs.Prelude.{◌≡◌, true, ◌&&◌, ◌+◌, ◌*◌, ◌≤◌, ◌<◌, length, set, Some};
ghost use mathlib.Core.List.{List, [], ◌∷◌, flat_map};
ghost use Rattle.std.proofs.lemmas.List.Edits.{sets};
ghost use Rattle.semantics.specs.Bytes.{times, every};
ghost use Rattle.semantics.specs.Sections as sections;
ghost use Rattle.semantics.specs.Writing.{write_mode};
ghost use Rattle.semantics.specs.Plant as names;
ghost use Rattle.plant.specs.Equations.{Several, StepSays, SeenSays, Stands, SectionStands, starts_from, rates_steady, accepted_equations};
ghost use Rattle.paper.specs.Refusals.{judged_of, answered};

use crate::places::mode_end;
use paper::refusals::Refusal;

// of selector j its modes, and at entry 8 * j + m where mode m of it stands; of each variable its rate of kind 1
// Arrays of the most that there can be: nothing here is on a heap.
#[derive(Clone, Copy)]
pub struct Equations {
    pub selectors: usize,
    pub modes: [usize; paper::EQUATIONS],
    pub mode_offsets: [usize; paper::MODE_PLACES],
    pub steady: [i32; paper::VARIABLES],
}

// what was read: the place after it, and whether its names are there
#[derive(Clone, Copy)]
struct Step {
    end: usize,
    named: bool,
}

// n parts one after the other, each as `one` reads it
fn several<F: Fn(usize) -> Option<Step>>(at: usize, n: u8, one: F) -> Option<Step>
    requires first { F.pre one at }
    requires next { (p : _) (w : Step) → F.post one p (Some w) → F.pre one w.end }
    ensures { Several (λ p w. F.post one p w) at n result }
{
    let mut whole = Step {
        end: at,
        named: true,
    };
    for _ in 0..n {
        let part = one(whole.end)?;
        whole = Step {
            end: part.end,
            named: whole.named & part.named,
        };
    }
    Some(whole)
}

fn rate(s: &[u8], at: usize, variables: usize) -> Option<Step>
    requires { at ≤ length s.now }
    ensures { StepSays sections.read_rate (names.rate_named variables) s.now at result }
{
    if s.len() - at < 5 {
        return None;
    }
    Some(Step {
        end: at + 5,
        named: usize::from(s[at]) < variables,
    })
}

fn switch(s: &[u8], at: usize, modes: u8) -> Option<Step>
    requires { at ≤ length s.now }
    ensures { StepSays sections.read_switch (names.switch_named modes) s.now at result }
{
    if s.len() <= at {
        return None;
    }
    let n = usize::from(s[at]);
    if n < 1 {
        return None;
    }
    if s.len() - at - 1 < n {
        return None;
    }
    Some(Step {
        end: at + 1 + n,
        named: s[at + 1] < modes,
    })
}

fn mode(s: &[u8], at: usize, variables: usize, modes: u8) -> Option<Step>
    requires { at ≤ length s.now }
    ensures { StepSays sections.read_mode (names.mode_named variables modes) s.now at result }
{
    if s.len() <= at {
        return None;
    }
    let rates = several(at + 1, s[at], |p| rate(s, p, variables))?;
    if s.len() <= rates.end {
        return None;
    }
    let switches = several(rates.end + 1, s[rates.end], |p| switch(s, p, modes))?;
    Some(Step {
        end: switches.end,
        named: rates.named & switches.named,
    })
}

fn choice(s: &[u8], at: usize, variables: usize) -> Option<Step>
    requires { at ≤ length s.now }
    ensures { StepSays sections.read_choice (names.equation_named variables) s.now at result }
{
    if s.len() - at < 2 {
        return None;
    }
    let n = s[at + 1];
    if !(1..=paper::MODES).contains(&usize::from(n)) {
        return None;
    }
    let modes = several(at + 2, n, |p| mode(s, p, variables, n))?;
    Some(Step {
        end: modes.end,
        named: (s[at] < n) & modes.named,
    })
}

// the kind, then an equation of that kind
fn kind(s: &[u8], variables: usize) -> Option<Step>
    ensures { StepSays sections.read_equation_body (names.equation_named variables) s.now 0 result }
{
    if s.len() < 1 {
        return None;
    }
    match s[0] {
        1 => rate(s, 1, variables),
        2 => choice(s, 1, variables),
        _ => None,
    }
}

// of a whole slice, whether its names are there
fn equation_in(s: &[u8], variables: usize) -> Option<bool>
    ensures { SeenSays (names.equation_named variables) (sections.equation_in_bytes s.now) result }
{
    let body = kind(s, variables)?;
    if body.end < s.len() {
        return None;
    }
    Some(body.named)
}

fn equation(s: &[u8], at: usize, variables: usize) -> Option<Step>
    requires { at ≤ length s.now }
    ensures { StepSays sections.read_equation (names.equation_named variables) s.now at result }
{
    let end = codec::end2(s, at)?;
    let named = equation_in(&s[at + 2..end], variables)?;
    Some(Step { end, named })
}

// 6 and 7
fn check(s: &[u8], variables: usize) -> Result<(), Refusal>
    ensures { judged_of result ≡ answered (λ es. tt) (names.judge_equations variables s.now) }
{
    if s.len() < 1 {
        return Err(Refusal::EquationLayout);
    }
    if usize::from(s[0]) > paper::EQUATIONS {
        return Err(Refusal::EquationLayout);
    }
    let Some(all) = several(1, s[0], |p| equation(s, p, variables)) else {
        return Err(Refusal::EquationLayout);
    };
    if all.end < s.len() {
        return Err(Refusal::EquationLayout);
    }
    if !all.named {
        return Err(Refusal::EquationName);
    }
    Ok(())
}

// the places of n modes, noted from entry `from` on
fn mode_places(s: &[u8], at: usize, n: u8, from: usize, places: &mut [usize; paper::MODE_PLACES])
    requires { (from + n ≤ sections.equation_limit * sections.mode_limit) × Stands (times n sections.read_mode) s.now at }
    ensures { (t : Stands (times n sections.read_mode) s.now at) → places.new ≡ sets places.old from (starts_from write_mode at t.value) }
{
    let mut p = at;
    for m in 0..usize::from(n) {
        places[from + m] = p;
        p = mode_end(s, p);
    }
}

// the CASEs of a section whose layout is right, beside its rates of kind 1
fn with_selectors(s: &[u8], steady: [i32; paper::VARIABLES]) -> Equations
    requires { SectionStands s.now }
    ensures { (t : SectionStands s.now) → steady ≡ rates_steady t.equations → result ≡ accepted_equations t.equations }
{
    let mut selectors = 0;
    let mut modes = [0usize; paper::EQUATIONS];
    let mut mode_offsets = [0usize; paper::MODE_PLACES];
    let mut p = 1;
    for _ in 0..s[0] {
        let k = p + 2;
        if s[k] != 1 {
            let n = s[k + 2];
            modes[selectors] = usize::from(n);
            mode_places(s, k + 3, n, paper::MODES * selectors, &mut mode_offsets);
            selectors += 1;
        }
        p = k + codec::nat2(s, p);
    }
    Equations {
        selectors,
        modes,
        mode_offsets,
        steady,
    }
}

// the rates of some equations, and with them that of an equation of kind 1 in front
fn put_steady(s: &[u8], at: usize, rates: &mut [i32; paper::VARIABLES])
    requires { Stands sections.read_equation_body s.now at }
    ensures { (t : Stands sections.read_equation_body s.now at) (es : List sections.Equation) → rates.old ≡ rates_steady es → rates.new ≡ rates_steady (t.value ∷ es) }
{
    if s[at] != 1 {
        return;
    }
    let v = usize::from(s[at + 1]);
    if v >= paper::VARIABLES {
        return;
    }
    rates[v] = codec::int4(s, at + 2);
}

// the rates of the equations of kind 1 among n; of two for one variable the first stays, so that those behind are put before it
fn put_rates(s: &[u8], at: usize, n: u8, rates: &mut [i32; paper::VARIABLES])
    requires stand { Stands (times n sections.read_equation) s.now at }
    requires clear { rates.old ≡ rates_steady [] }
    ensures { (t : Stands (times n sections.read_equation) s.now at) → rates.new ≡ rates_steady t.value }
{
    if n == 0 {
        return;
    }
    let k = at + 2;
    put_rates(s, k + codec::nat2(s, at), n - 1, rates);
    put_steady(s, k, rates);
}

// the section of a plant with so many variables
pub fn read(s: &[u8], variables: usize) -> Result<Equations, Refusal>
    ensures { judged_of result ≡ answered accepted_equations (names.judge_equations variables s.now) }
{
    check(s, variables)?;
    let mut steady = [0i32; paper::VARIABLES];
    put_rates(s, 1, s[0], &mut steady);
    Ok(with_selectors(s, steady))
}
