// The current modes of a plant: their switches and their rates.
#![tactic(auto)]

ghost use Rattle.std.specs.Prelude.{◌≡◌, true, ◌+◌, ◌*◌, ◌<◌, length, get_or};
ghost use mathlib.Core.List.{[], ◌∷◌, flat_map};
ghost use Rattle.std.proofs.Math.Option.{some};
ghost use Rattle.std.proofs.Math.ListN.{get_elem?};
ghost use Rattle.semantics.specs.Editions.{Edition};
ghost use Rattle.semantics.specs.Bytes.{every};
ghost use Rattle.semantics.specs.Sections.{Mode, Switch, variable_limit};
ghost use Rattle.semantics.specs.Plant.{rate_named};
ghost use Rattle.semantics.specs.Run.{check_modes};
ghost use Rattle.program.specs.Rows.{steady_row};
ghost use Rattle.program.specs.Lent.{Stands};
ghost use Rattle.effects.specs.PaperNumbers.{Verdict};
ghost use Rattle.effects.specs.Verdicts.{step_verdict};
ghost use Rattle.effects.specs.Told.{told_step, told_truth};
ghost use Rattle.modes.specs.Modes.{mode_at, SwitchAt, SwitchHere, Asked, modes_from, Current, Driving, Laid, InForce, Switched};

use effects::Untaken;
use paper::answers::TurnedAway;
use program::Program;

// The place of a mode's switch count: past its rates, of 5 bytes each.
fn switches_at(es: &[u8], at: usize) -> usize
    requires { Stands es.now at (mode_at es.now at) }
    ensures { result ≡ at + 1 + 5 * get_or es.now at 0 }
{
    at + 1 + 5 * usize::from(es[at])
}

// Is the switch at a place true?
fn truth(es: &[u8], at: usize, values: &[i32]) -> Result<bool, Untaken>
    requires { SwitchHere es.now at }
    ensures { (y n : Verdict) → Asked es.now at values.now y n (told_truth y n result) }
{
    let b = at + 2;
    let e = at + 1 + usize::from(es[at]);
    effects::ask(&es[b..e], values)
}

// The switches of the mode at a place, up to the first that is true or faults.
fn mode_check(es: &[u8], at: usize, values: &[i32]) -> Result<(), Untaken>
    requires { Stands es.now at (mode_at es.now at) }
    ensures { (ed : Edition) → told_step result ≡ step_verdict (check_modes ed (mode_at es.now at ∷ []) values.now) }
{
    let count = switches_at(es, at);
    let mut p = count + 1;
    for _ in 0..es[count] {
        if truth(es, p, values)? {
            return Err(Untaken::Away(TurnedAway::SwitchTrue));
        }
        p = p + 1 + usize::from(es[p]);
    }
    Ok(())
}

// The switches of all current modes, selectors rising.
pub fn switch_check(p: &Program<'_>, values: &[i32], modes: &[u8]) -> Result<(), Untaken>
    requires { Current p.now.bytes.now p.now.index.now modes.now }
    ensures { (ed : Edition) → told_step result ≡ step_verdict (check_modes ed (modes_from p.now.bytes.now p.now.index.now 0 modes.now) values.now) }
{
    for (j, mode) in modes.iter().enumerate() {
        mode_check(p.bytes, p.mode_place(j, *mode), values)?;
    }
    Ok(())
}

// The rates of the mode at a place, put over those of their variables.
fn lay_rates(es: &[u8], at: usize, rates: &mut [i32])
    requires { Stands es.now at (mode_at es.now at) × (every (rate_named (length rates.old)) (mode_at es.now at).rates ≡ true) }
    ensures { Laid rates.old (mode_at es.now at).rates rates.new }
{
    let mut p = at + 1;
    for _ in 0..es[at] {
        let v = usize::from(es[p]);
        rates[v] = codec::int4(es, p + 1);
        p += 5;
    }
}

// The rates of all current modes.
fn lay_all(p: &Program<'_>, modes: &[u8], rates: &mut [i32])
    requires { Current p.now.bytes.now p.now.index.now modes.now × Driving p.now.bytes.now p.now.index.now modes.now (length rates.old) }
    ensures { Laid rates.old (flat_map (λ (m : Mode). m.rates) (modes_from p.now.bytes.now p.now.index.now 0 modes.now)) rates.new }
{
    for (j, mode) in modes.iter().enumerate() {
        lay_rates(p.bytes, p.mode_place(j, *mode), rates);
    }
}

// The rates in force: those of kind 1, and the current modes' over them.
pub fn rates_now(p: &Program<'_>, modes: &[u8]) -> [i32; paper::VARIABLES]
    requires { Current p.now.bytes.now p.now.index.now modes.now × Driving p.now.bytes.now p.now.index.now modes.now variable_limit }
    ensures { InForce p.now.bytes.now p.now.index.now modes.now (steady_row p.now.ranges.now) result }
{
    let mut rates = p.steady();
    lay_all(p, modes, &mut rates);
    rates
}

// The place of switch k of a mode whose switch count stands at a place: past k switches.
fn switch_at(es: &[u8], at: usize, count: usize, k: usize) -> usize
    requires { Stands es.now at (mode_at es.now at) × (count ≡ at + 1 + 5 * get_or es.now at 0) × (k < get_or es.now count 0) }
    ensures { (w : Switch) → get_elem? (mode_at es.now at).switches k ≡ some w → SwitchAt es.now result w }
{
    let mut p = count + 1;
    for _ in 0..k {
        p = p + 1 + usize::from(es[p]);
    }
    p
}

// Switch k of selector s's current mode is taken.
pub fn take_switch(
    p: &Program<'_>,
    s: usize,
    k: usize,
    values: &[i32],
    modes: &mut [u8],
) -> Result<(), Untaken>
    requires { Current p.now.bytes.now p.now.index.now modes.old }
    ensures { Switched p.now.bytes.now p.now.index.now s k values.now modes.old (told_step result) modes.new }
{
    if modes.len() <= s {
        return Err(Untaken::Away(TurnedAway::NoSwitch));
    }
    let es = p.bytes;
    let at = p.mode_place(s, modes[s]);
    let count = switches_at(es, at);
    if usize::from(es[count]) <= k {
        return Err(Untaken::Away(TurnedAway::NoSwitch));
    }
    let q = switch_at(es, at, count, k);
    if !truth(es, q, values)? {
        return Err(Untaken::Away(TurnedAway::SwitchFalse));
    }
    modes[s] = es[q + 1];
    Ok(())
}
