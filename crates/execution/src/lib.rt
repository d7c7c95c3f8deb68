// One event judged, for a run by the rules and for one by a table.
#![tactic(auto)]

ghost use Rattle.std.specs.Prelude.{◌≡◌, [], ◌∷◌, map, ℕ, ◌<◌};
ghost use Rattle.semantics.specs.Editions as papers;
ghost use Rattle.edition.specs.Editions.{edition_of};
ghost use Rattle.semantics.specs.Bytes.{every};
ghost use Rattle.semantics.specs.Run.{Action, is_wait, check_waits};
ghost use Rattle.nodeset.specs.Sets.{members};
ghost use Rattle.codec.specs.Parts.{part_at};
ghost use Rattle.program.specs.Rows.{kind_row, start_row, end_row};
ghost use Rattle.program.specs.Lent.{Cut, lent_of};
ghost use Rattle.event.specs.declared.Event.TheVariants.{Tick, Pick};
ghost use Rattle.effects.specs.Verdicts.{step_verdict};
ghost use Rattle.effects.specs.Told.{told_step, told_pick, told};
ghost use Rattle.execution.specs.Operands.{Few, CutEach, KindsOf};
ghost use Rattle.execution.specs.Ready.{Promised, Judges};

use edition::Edition;
use effects::{Mover, Untaken};
use event::Event;
use nodeset::NodeSet;
use paper::answers::TurnedAway;
use program::Program;

// Are all acting nodes waits? A walk from one member to the next, no count; the set's iterator takes more instructions for a member.
fn all_wait(p: &Program<'_>, acting: &NodeSet, ed: Edition) -> bool
    requires few { Few (edition_of ed) acting.now.words }
    requires known { (f : ℕ → Action) × KindsOf f (kind_row p.now.index.now) acting.now.words }
    ensures { (f : ℕ → Action) → KindsOf f (kind_row p.now.index.now) acting.now.words → result ≡ every (λ n. is_wait (f n)) (members acting.now.words) }
{
    let end = edition::node_limit(ed);
    let mut n = acting.member_from(0, end);
    while n < nodeset::NODES {
        if p.kind(n) != program::kinds::WAIT {
            return false;
        }
        n = acting.member_from(n + 1, end);
    }
    true
}

// The truth of the wait n: it must not be true.
fn still(p: &Program<'_>, values: &[i32], n: usize) -> Result<(), Untaken>
    requires { (n < 256) × Cut p.now.bytes.now (start_row p.now.index.now) (end_row p.now.index.now) n }
    ensures { (ed : papers.Edition) → told_step result ≡ step_verdict (check_waits ed values.now
        (part_at p.now.bytes.now (start_row p.now.index.now) (end_row p.now.index.now) n ∷ [])) }
{
    if effects::ask(p.operand(n), values)? {
        return Err(Untaken::Away(TurnedAway::ContinueTrue));
    }
    Ok(())
}

// The truths of the acting nodes, up to the first that is true or faults. The same walk.
fn all_still(p: &Program<'_>, acting: &NodeSet, values: &[i32], ed: Edition) -> Result<(), Untaken>
    requires few { Few (edition_of ed) acting.now.words }
    requires cut { CutEach p.now.bytes.now (start_row p.now.index.now) (end_row p.now.index.now) acting.now.words }
    ensures { told_step result ≡ step_verdict (check_waits (edition_of ed) values.now
        (map (part_at p.now.bytes.now (start_row p.now.index.now) (end_row p.now.index.now)) (members acting.now.words))) }
{
    let end = edition::node_limit(ed);
    let mut n = acting.member_from(0, end);
    while n < nodeset::NODES {
        still(p, values, n)?;
        n = acting.member_from(n + 1, end);
    }
    Ok(())
}

// A tick: all acting nodes are waits, no switch and no wait is true, then each value adds its rate.
fn tick(
    p: &Program<'_>,
    acting: &NodeSet,
    values: &mut [i32],
    modes: &[u8],
    ed: Edition,
) -> Result<(), Untaken>
    requires { Promised (edition_of ed) (lent_of p.now) acting.now.words values.old modes.now }
    ensures { Judges (edition_of ed) (lent_of p.now) acting.now.words Tick values.old modes.now (told_step result) values.new modes.now }
{
    if !all_wait(p, acting, ed) {
        return Err(Untaken::Away(TurnedAway::NoContinue));
    }
    modes::switch_check(p, values, modes)?;
    all_still(p, acting, values, ed)?;
    let rates = modes::rates_now(p, modes);
    effects::advance(p, &rates, values)
}

// A pick of node n: it acts, no switch is true, then what it does.
fn pick(
    p: &Program<'_>,
    acting: &NodeSet,
    n: usize,
    values: &mut [i32],
    modes: &mut [u8],
) -> Result<bool, Untaken>
    requires { (ed : papers.Edition) × Promised ed (lent_of p.now) acting.now.words values.old modes.old }
    ensures { (ed : papers.Edition) → Judges ed (lent_of p.now) acting.now.words (Pick n) values.old modes.old (told_pick n result) values.new modes.new }
{
    if !acting.has(n) {
        return Err(Untaken::Away(TurnedAway::NotActing));
    }
    modes::switch_check(p, values, modes)?;
    effects::effect(p, p.kind(n), p.operand(n), values, modes)
}

// One event. Values and modes are those that it leaves.
pub fn judge(
    p: &Program<'_>,
    acting: &NodeSet,
    e: Event,
    values: &mut [i32],
    modes: &mut [u8],
    ed: Edition,
) -> Result<Option<Mover>, Untaken>
    requires { Promised (edition_of ed) (lent_of p.now) acting.now.words values.old modes.old }
    ensures { Judges (edition_of ed) (lent_of p.now) acting.now.words e values.old modes.old (told result) values.new modes.new }
{
    match e {
        Event::Tick => {
            tick(p, acting, values, modes, ed)?;
            Ok(None)
        }
        Event::Pick(node) => {
            let outcome = pick(p, acting, node, values, modes)?;
            Ok(Some(Mover { node, outcome }))
        }
        Event::Switch(s, k) => {
            modes::take_switch(p, s, k, values, modes)?;
            Ok(None)
        }
        Event::Senseless => Err(Untaken::Away(TurnedAway::Senseless)),
    }
}
