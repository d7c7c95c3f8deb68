// One event of a run of a table.
ghost use Rattle.std.specs.Prelude.{◌≡◌, get_or, None};
ghost use Rattle.semantics.specs.TableFile.{location_limit};
ghost use Rattle.edition.specs.Editions.{edition_of};
ghost use Rattle.nodeset.specs.Sets.{empty_set};
ghost use Rattle.program.specs.Rows.{location_row};
ghost use Rattle.program.specs.Lent.{lent_of};
ghost use Rattle.effects.specs.PaperNumbers.{Move};
ghost use Rattle.effects.specs.Told.{told};
ghost use Rattle.table_step.specs.Situations.{Startable, Started, Moving, Moved, Settled, Promised, StepsOn};

use super::entries;
use edition::Edition;
use effects::{Mover, Untaken};
use event::Event;
use nodeset::NodeSet;
use paper::answers::{Answer, TurnedAway};
use program::Program;

// Where a run stands: at a location, none once it is over, and the nodes that act there.
#[derive(Clone, Copy)]
pub struct Standing {
    pub place: Option<usize>,
    pub acting: NodeSet,
}

// The location at which a run starts.
pub const START: usize = 0;

// Where a run starts.
pub fn start(p: &Program<'_>, ed: Edition) -> Standing
    requires { Startable (edition_of ed) (lent_of p.now) }
    ensures { Started (edition_of ed) (lent_of p.now) result }
{
    Standing {
        place: Some(START),
        acting: entries::acting(p.bytes, p.location(START), ed),
    }
}

// The run is over, and no node acts.
fn end(at: &mut Standing)
    ensures place { at.new.place ≡ None }
    ensures none { at.new.acting.words ≡ empty_set }
{
    at.place = None;
    at.acting.clear();
}

// A taken event with the move of a node at location x.
fn moved(p: &Program<'_>, x: usize, m: Mover, at: &mut Standing, ed: Edition) -> Answer
    requires { Moving (edition_of ed) (lent_of p.now) x (Move m.node m.outcome) }
    ensures { Moved (edition_of ed) (lent_of p.now) x m.node m.outcome result at.new }
{
    let to = entries::target(p.bytes, p.location(x), m.node, m.outcome, ed);
    if to == paper::targets::FINISHED {
        end(at);
        return Answer::Finished;
    }
    if to == paper::targets::HALTED {
        end(at);
        return Answer::Halted;
    }
    at.place = Some(to);
    at.acting = entries::acting(p.bytes, p.location(to), ed);
    Answer::Taken
}

// What a judged event makes of location x and its acting nodes.
fn settled(
    p: &Program<'_>,
    x: usize,
    event: Result<Option<Mover>, Untaken>,
    at: &mut Standing,
    ed: Edition,
) -> Answer
    requires { Moving (edition_of ed) (lent_of p.now) x (told event) }
    ensures { Settled (edition_of ed) (lent_of p.now) x at.old (told event) result at.new }
{
    match event {
        Err(Untaken::Away(why)) => Answer::TurnedAway(why),
        Err(Untaken::Above) => {
            end(at);
            Answer::Above
        }
        Err(Untaken::Below) => {
            end(at);
            Answer::Below
        }
        Ok(None) => Answer::Taken,
        Ok(Some(m)) => moved(p, x, m, at, ed),
    }
}

// The answer to the event e of a run that stands there. Where it stands then, values and modes are those that the event leaves.
pub fn step(
    p: &Program<'_>,
    e: Event,
    at: &mut Standing,
    values: &mut [i32],
    modes: &mut [u8],
    ed: Edition,
) -> Answer
    requires { Promised (edition_of ed) (lent_of p.now) at.old values.old modes.old }
    ensures { StepsOn (edition_of ed) (lent_of p.now) at.old values.old modes.old e result at.new values.new modes.new }
{
    let Some(x) = at.place else {
        return Answer::TurnedAway(TurnedAway::Over);
    };
    let event = execution::judge(p, &at.acting, e, values, modes, ed);
    settled(p, x, event, at, ed)
}
