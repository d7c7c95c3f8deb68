// The call "running a table": 15 to 19, then 20 to 22, then its events.
ghost use Rattle.std.specs.Prelude.{◌≡◌};
ghost use Rattle.semantics.specs.Editions.{edition1};
ghost use Rattle.semantics.specs.Calls.{table_run_of};
ghost use Rattle.edition.specs.Editions.{edition_of};
ghost use Rattle.records.specs.Reported.{ran_with};
ghost use Rattle.table_run.specs.Called.{Read, Admitting, Carried};

use super::runs;
use edition::Edition;
use paper::refusals::Refusal;
use program::Program;
use records::Counts;
use start_read::admission::Admitted;
use table_read::call::TableIndex;

// The events of an admitted run, over what the reader lends of the table.
fn lend(
    ix: TableIndex,
    asked: Admitted,
    table: &[u8],
    events: &[u8],
    records: &mut [u8],
    ed: Edition,
) -> Counts
    requires { Read (edition_of ed) table.now ix × Admitting (edition_of ed) table.now asked events.now records.old }
    ensures { Carried (edition_of ed) table.now asked events.now records.old result records.new }
{
    let mut index = [0usize; program::ENTRIES];
    let ranges = table_read::call::program(ix, &mut index);
    let p = Program {
        bytes: table,
        index: &index,
        ranges: &ranges,
    };
    let mut values = asked.values;
    let mut modes = asked.modes;
    runs::all(
        &p,
        events,
        &mut values[..ix.plant.variables],
        &mut modes[..ix.plant.selectors],
        records,
        ed,
    )
}

pub fn run(table: &[u8], start: &[u8], events: &[u8], records: &mut [u8]) -> Result<Counts, Refusal>
    ensures { ran_with result records.new ≡ table_run_of edition1 table.now start.now events.now records.old }
{
    let ed = Edition::First;
    let ix = table_read::call::index(table, ed)?;
    let asked = start_read::admission::admit(ix.plant, start, events.len(), records.len(), ed)?;
    Ok(lend(ix, asked, table, events, records, ed))
}
