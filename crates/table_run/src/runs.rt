// All events of a run of a table.
ghost use Rattle.edition.specs.Editions.{edition_of};
ghost use Rattle.program.specs.Lent.{lent_of};
ghost use Rattle.table_run.specs.Runs.{Asking, Completes};

use edition::Edition;
use program::Program;
use records::Counts;
use table_step::steps;

// The record of each event goes to records, one after the other. Values and modes are those that the run starts with.
pub fn all(
    p: &Program<'_>,
    events: &[u8],
    values: &mut [i32],
    modes: &mut [u8],
    records: &mut [u8],
    ed: Edition,
) -> Counts
    requires { Asking (edition_of ed) (lent_of p.now) values.old modes.old events.now records.old }
    ensures { Completes (edition_of ed) (lent_of p.now) values.old modes.old events.now records.old result records.new }
{
    let mut at = steps::start(p, ed);
    let mut counts = Counts::default();
    let bytes = edition::event_bytes(ed);
    // where the next event stands, and the next record
    let mut from = 0;
    let mut to = 0;
    for _ in 0..events.len() / bytes {
        let e = event::at(events, from, ed);
        let answer = u8::from(steps::step(p, e, &mut at, values, modes, ed));
        to = records::put_record(records, to, answer, &at.acting, values, modes, ed);
        counts.book(answer);
        from += bytes;
    }
    counts
}
