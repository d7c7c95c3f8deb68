// The product's calls.
use super::stored::{Call, NUMBERS, Strings};
use paper::refusals::Refusal;
use records::Counts;

// of a run
fn counted(c: Counts) -> [usize; NUMBERS] {
    [c.taken, c.turned_away, c.faulted, 0, 0, 0, 0, 0]
}

fn examined(
    s: &Strings,
    table: &mut [u8],
    records: &mut [u8],
    others: &mut [u8],
) -> Result<[usize; NUMBERS], Refusal> {
    let x = exam::examine(
        s.file.bytes(),
        s.start.bytes(),
        s.events.bytes(),
        table,
        records,
        others,
    )?;
    let a = x.counts;
    let b = x.table_counts;
    Ok([
        x.length,
        a.taken,
        a.turned_away,
        a.faulted,
        b.taken,
        b.turned_away,
        b.faulted,
        usize::from(x.agree),
    ])
}

// what the call returns, with these buffers lent; the numbers behind its own are 0
pub fn made(
    call: Call,
    s: &Strings,
    table: &mut [u8],
    records: &mut [u8],
    others: &mut [u8],
) -> Result<[usize; NUMBERS], Refusal> {
    match call {
        Call::Read => {
            let x = schedule_read::call::read(s.file.bytes())?;
            Ok([x.variables, x.selectors, x.nodes, 0, 0, 0, 0, 0])
        }
        Call::ReadTable => {
            let x = table_read::call::read(s.table.bytes())?;
            Ok([x.variables, x.selectors, x.actions, x.locations, 0, 0, 0, 0])
        }
        Call::Size => {
            let x = compiler::size::of(s.file.bytes())?;
            Ok([x.locations, x.entries, 0, 0, 0, 0, 0, 0])
        }
        Call::Compile => {
            let x = compiler::call::compile(s.file.bytes(), table)?;
            Ok([x.length, x.comparisons as usize, 0, 0, 0, 0, 0, 0])
        }
        Call::Rules => {
            let (start, events) = (s.start.bytes(), s.events.bytes());
            Ok(counted(rule_run::call::run(s.file.bytes(), start, events, records)?))
        }
        Call::ByTable => {
            let (start, events) = (s.start.bytes(), s.events.bytes());
            Ok(counted(table_run::call::run(s.table.bytes(), start, events, records)?))
        }
        Call::Examine => examined(s, table, records, others),
    }
}
