// One event of a run by the rules. A run is over once no node acts.
ghost use Rattle.std.specs.Prelude.{◌≡◌};
ghost use Rattle.semantics.specs.Editions as papers;
ghost use Rattle.edition.specs.Editions.{edition_of};
ghost use Rattle.paper.specs.Answers.{answer_number};
ghost use Rattle.nodeset.specs.Sets.{empty_set};
ghost use Rattle.moves.specs.MoveContracts.{Standing};
ghost use Rattle.program.specs.Lent.{lent_of};
ghost use Rattle.effects.specs.Told.{told};
ghost use Rattle.rule_step.specs.Situations.{Movable, Moved, Settled, Promised, StepsOn};

use edition::Edition;
use effects::{Mover, Untaken};
use event::Event;
use moves::{How, Moves};
use nodeset::NodeSet;
use paper::answers::{Answer, TurnedAway};
use program::Program;

// The run is over, and no node acts.
fn end(answer: Answer, acting: &mut NodeSet) -> Answer
    ensures answer { result ≡ answer }
    ensures none { acting.new.words ≡ empty_set }
{
    acting.clear();
    answer
}

// A taken event with the move of a node.
fn moved(moves: &Moves, mover: Mover, acting: &mut NodeSet) -> Answer
    requires { Standing moves.now acting.old mover.node }
    ensures { Moved moves.now acting.old.words mover.node mover.outcome (answer_number result) acting.new.words }
{
    match moves.advance(acting, mover.node, mover.outcome) {
        How::To => Answer::Taken,
        How::Finished => Answer::Finished,
        How::Halted => Answer::Halted,
    }
}

// What a judged event makes of the acting nodes.
fn settled(moves: &Moves, event: Result<Option<Mover>, Untaken>, acting: &mut NodeSet) -> Answer
    requires { Movable moves.now acting.old (told event) }
    ensures { (ed : papers.Edition) → Settled ed moves.now (told event) acting.old.words (answer_number result) acting.new.words }
{
    match event {
        Err(Untaken::Away(why)) => Answer::TurnedAway(why),
        Err(Untaken::Above) => end(Answer::Above, acting),
        Err(Untaken::Below) => end(Answer::Below, acting),
        Ok(None) => Answer::Taken,
        Ok(Some(mover)) => moved(moves, mover, acting),
    }
}

// The event e. Acting nodes, values and modes are those that it leaves.
pub fn step(
    p: &Program<'_>,
    moves: &Moves,
    e: Event,
    acting: &mut NodeSet,
    values: &mut [i32],
    modes: &mut [u8],
    ed: Edition,
) -> Answer
    requires { Promised (edition_of ed) (lent_of p.now) moves.now acting.old.words values.old modes.old }
    ensures { StepsOn (edition_of ed) (lent_of p.now) moves.now acting.old.words values.old modes.old e
        (answer_number result) acting.new.words values.new modes.new }
{
    if acting.is_empty() {
        return Answer::TurnedAway(TurnedAway::Over);
    }
    let event = execution::judge(p, acting, e, values, modes, ed);
    settled(moves, event, acting)
}
