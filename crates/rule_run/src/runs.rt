// All events of a run by the rules.
ghost use Rattle.edition.specs.Editions.{edition_of};
ghost use Rattle.program.specs.Lent.{lent_of};
ghost use Rattle.rule_run.specs.Runs.{Asking, Completes};

use edition::Edition;
use moves::Moves;
use program::Program;
use records::Counts;
use rule_step::steps;

// The record of each event goes to records, one after the other. Values and modes are those that the run starts with.
pub fn all(
    p: &Program<'_>,
    kinds: &[u8],
    subtrees: &[usize],
    events: &[u8],
    values: &mut [i32],
    modes: &mut [u8],
    records: &mut [u8],
    ed: Edition,
) -> Counts
    requires { Asking (edition_of ed) (lent_of p.now) kinds.now subtrees.now values.old modes.old events.now records.old }
    ensures { Completes (edition_of ed) (lent_of p.now) kinds.now subtrees.now
        values.old modes.old events.now records.old result records.new }
{
    let moves = Moves::of(kinds, subtrees);
    let mut acting = moves.start();
    let mut counts = Counts::default();
    let bytes = edition::event_bytes(ed);
    // where the next event stands, and the next record
    let mut from = 0;
    let mut to = 0;
    for _ in 0..events.len() / bytes {
        let e = event::at(events, from, ed);
        let answer = u8::from(steps::step(p, &moves, e, &mut acting, values, modes, ed));
        to = records::put_record(records, to, answer, &acting, values, modes, ed);
        counts.book(answer);
        from += bytes;
    }
    counts
}
