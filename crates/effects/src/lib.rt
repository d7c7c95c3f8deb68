// What a step of an event makes of values and modes: truths that are asked, ranges, sums, a picked node's action.
#![tactic(auto)]

ghost use Rattle.std.specs.Prelude.{◌≡◌, true, ℕ, ◌*◌, ◌≤◌, ◌<◌, length, get_or, ◌+ℤ◌};
ghost use Rattle.semantics.specs.Editions.{Edition};
ghost use Rattle.semantics.specs.Expressions.{ranged as ranged_of, value_of_truth};
ghost use Rattle.semantics.specs.Sections.{variable_limit};
ghost use Rattle.semantics.specs.Plant.{stored, advance as advanced};
ghost use Rattle.semantics.specs.Run.{valued};
ghost use Rattle.effects.specs.PaperNumbers.{Verdict, Stay};
ghost use Rattle.effects.specs.Verdicts.{step_verdict, is_going_on, truth_verdict, Gives};
ghost use Rattle.effects.specs.Told.{told_step, told_done, told_truth, told_pick, value_taken};
ghost use Rattle.effects.specs.Ranges.{variables_in, rate_in, Sized, FirstStay, first_sums};
ghost use Rattle.effects.specs.ActionForms.{Performs, Does, Assigns};

use expression::Side;
use paper::answers::TurnedAway;
use program::Program;

// Why an event is not taken: it is turned away, or a value lies above or below its range.
#[derive(Clone, Copy, PartialEq, Eq)]
pub enum Untaken {
    Away(TurnedAway),
    Above,
    Below,
}

// The move of a node, on done or true, or on false.
#[derive(Clone, Copy, PartialEq, Eq)]
pub struct Mover {
    pub node: usize,
    pub outcome: bool,
}

// The value of an expression, or the event's fault. None is never asked: as in the definition it faults above.
fn value<T>(told: Option<Result<T, Side>>) -> Result<T, Untaken>
    ensures { result ≡ value_taken told }
{
    match told {
        Some(Ok(x)) => Ok(x),
        Some(Err(Side::Above)) => Err(Untaken::Above),
        Some(Err(Side::Below)) => Err(Untaken::Below),
        None => Err(Untaken::Above),
    }
}

// Is a truth true?
pub fn ask(t: &[u8], values: &[i32]) -> Result<bool, Untaken>
    ensures { (ed : Edition) (yes no : Verdict) → told_truth yes no result ≡ truth_verdict yes no (value_of_truth ed values.now t.now) }
{
    value(expression::truth_value(t, values))
}

// Does a number lie in its range?
fn ranged(low: i32, high: i32, z: i64) -> Result<(), Untaken>
    ensures { told_step result ≡ step_verdict (valued (ranged_of low high z)) }
{
    if z < i64::from(low) {
        return Err(Untaken::Below);
    }
    if i64::from(high) < z {
        return Err(Untaken::Above);
    }
    Ok(())
}

// A value with its rate added: is the sum in its declared range?
fn stays(low: i32, high: i32, x: i32, rate: i32) -> Result<(), Untaken>
    ensures { told_step result ≡ step_verdict (valued (ranged_of low high (x +ℤ rate))) }
{
    ranged(low, high, i64::from(x) + i64::from(rate))
}

fn sum(low: i32, high: i32, x: i32, rate: i32) -> i32
    requires { is_going_on (step_verdict (valued (ranged_of low high (x +ℤ rate)))) ≡ true }
    ensures { result ≡ x +ℤ rate }
{
    x + rate
}

// Do all values, with their rates added, stay in their ranges? The first that does not is the answer.
fn all_stay(p: &Program<'_>, rates: &[i32], values: &[i32]) -> Result<(), Untaken>
    requires { Sized rates.now values.now × (length p.now.ranges.now ≡ 3 * variable_limit) }
    ensures told { told_step result ≡ step_verdict (valued (advanced (variables_in p.now.ranges.now (length values.now)) (rate_in rates.now) values.now)) }
    ensures stay { is_going_on (told_step result) ≡ true → FirstStay (variables_in p.now.ranges.now (length values.now)) rates.now values.now (length values.now) }
{
    for (v, x) in values.iter().enumerate() {
        stays(p.low(v), p.high(v), *x, rates[v])?;
    }
    Ok(())
}

// Each value adds its rate.
fn add_all(p: &Program<'_>, rates: &[i32], values: &mut [i32])
    requires { Sized rates.now values.old × (length p.now.ranges.now ≡ 3 * variable_limit)
        × FirstStay (variables_in p.now.ranges.now (length values.old)) rates.now values.old (length values.old) }
    ensures { values.new ≡ first_sums rates.now values.old (length values.old) }
{
    for v in 0..values.len() {
        values[v] = sum(p.low(v), p.high(v), values[v], rates[v]);
    }
}

// Each value adds its rate, or none does.
pub fn advance(p: &Program<'_>, rates: &[i32], values: &mut [i32]) -> Result<(), Untaken>
    requires { Sized rates.now values.old }
    ensures { Gives Stay values.old
        (advanced (variables_in p.now.ranges.now (length values.old)) (rate_in rates.now) values.old) (told_step result) values.new }
{
    // for the proof: as a slice its length is known
    let ranges = p.ranges;
    let all: &[i32] = ranges;
    all_stay(p, rates, values)?;
    add_all(p, rates, values);
    Ok(())
}

// Variable v becomes z where its range allows it.
fn store(p: &Program<'_>, z: i32, v: usize, values: &mut [i32]) -> Result<(), Untaken>
    requires { (v < length values.old) × (length values.old ≤ variable_limit) }
    ensures { (done : Verdict) → Gives done values.old (stored (variables_in p.now.ranges.now (length values.old)) values.old v z) (told_done done result) values.new }
{
    // for the proof: as a slice its length is known
    let ranges = p.ranges;
    let all: &[i32] = ranges;
    ranged(p.low(v), p.high(v), i64::from(z))?;
    values[v] = z;
    Ok(())
}

// An assignment: its operand is the variable, then the number.
fn assign(p: &Program<'_>, t: &[u8], values: &mut [i32]) -> Result<(), Untaken>
    requires { (1 ≤ length t.now) × (get_or t.now 0 0 < length values.old) × (length values.old ≤ variable_limit) }
    ensures { (done : Verdict) → Assigns t.now (variables_in p.now.ranges.now (length values.old)) done values.old (told_done done result) values.new }
{
    let v = usize::from(t[0]);
    let z = value(expression::number_value(&t[1..], values))?;
    store(p, z, v, values)
}

// What a picked node does, by its kind and its operand: the outcome on which it moves.
pub fn effect(
    p: &Program<'_>,
    kind: usize,
    t: &[u8],
    values: &mut [i32],
    modes: &mut [u8],
) -> Result<bool, Untaken>
    requires { Performs kind t.now (length values.old) (length modes.old) × (length values.old ≤ variable_limit) }
    ensures { (n : ℕ) → Does kind t.now (variables_in p.now.ranges.now (length values.old))
        n values.old modes.old (told_pick n result) values.new modes.new }
{
    match kind {
        program::kinds::TEST => ask(t, values),
        program::kinds::WAIT => {
            if !ask(t, values)? {
                return Err(Untaken::Away(TurnedAway::NotYet));
            }
            Ok(true)
        }
        program::kinds::ASSIGN => {
            assign(p, t, values)?;
            Ok(true)
        }
        program::kinds::SWITCH => {
            let s = usize::from(t[0]);
            modes[s] = t[1];
            Ok(true)
        }
        _ => Ok(true),
    }
}
