// The call "running a schedule by the rules": 1 to 11, 34 and 12, then 20 to 22, then its events.
ghost use Rattle.std.specs.Prelude.{◌≡◌, List, ℕ, length, Ok};
ghost use Rattle.semantics.specs.Editions.{edition1};
ghost use Rattle.edition.specs.Editions.{edition_of};
ghost use Rattle.semantics.specs.Calls.{judge_run};
ghost use Rattle.paper.specs.Refusals.{judged_of, answered};
ghost use Rattle.schedules.specs.Calls.{rule_program, rule_run_of};
ghost use Rattle.schedule_read.specs.ScheduleFile.{ScheduleIndexed};
ghost use Rattle.records.specs.Reported.{ran_with};
ghost use Rattle.rule_run.specs.Called.{Admitting, Carried, passed};

use super::runs;
use edition::Edition;
use paper::refusals::Refusal;
use program::Program;
use records::Counts;
use schedule_read::call::ScheduleIndex;
use start_read::admission::Admitted;

// The events of an admitted run, over what the reader lends of the file.
fn lend(
    ix: &ScheduleIndex,
    asked: Admitted,
    file: &[u8],
    events: &[u8],
    records: &mut [u8],
    ed: Edition,
) -> Counts
    requires { ScheduleIndexed (edition_of ed) file.now (Ok ix.now) × Admitting (edition_of ed) file.now asked events.now records.old }
    ensures { Carried (edition_of ed) file.now asked events.now records.old result records.new }
{
    let mut index = [0usize; program::ENTRIES];
    let ranges = schedule_read::call::program(ix, &mut index);
    let p = Program {
        bytes: file,
        index: &index,
        ranges: &ranges,
    };
    let mut values = asked.values;
    let mut modes = asked.modes;
    runs::all(
        &p,
        &ix.nodes.kinds,
        &ix.subtrees,
        events,
        &mut values[..ix.plant.variables],
        &mut modes[..ix.plant.selectors],
        records,
        ed,
    )
}

pub fn run(file: &[u8], start: &[u8], events: &[u8], records: &mut [u8]) -> Result<Counts, Refusal>
    ensures { ran_with result records.new ≡ rule_run_of edition1 file.now start.now events.now records.old }
{
    let ed = Edition::First;
    let ix = schedule_read::call::index(file, ed)?;
    let asked = start_read::admission::admit(ix.plant, start, events.len(), records.len(), ed)?;
    Ok(lend(&ix, asked, file, events, records, ed))
}

// 1 to 11, 34, 12, 20 to 22 in order: of a run with so many event bytes and a record buffer of so many bytes
pub fn check(file: &[u8], start: &[u8], events: usize, room: usize) -> Result<(), Refusal>
    ensures { (es d : List ℕ) → length es ≡ events → length d ≡ room
        → judged_of result ≡ answered passed (judge_run edition1 (rule_program edition1 file.now) start.now es d) }
{
    let ed = Edition::First;
    let x = schedule_read::call::index(file, ed)?;
    start_read::admission::admit(x.plant, start, events, room, ed)?;
    Ok(())
}
