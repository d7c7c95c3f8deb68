// The seven calls for C, each under its plain name: include/zimtleiter.h declares them.
// A lent slice is a pointer and a length there, a `&mut u64` a pointer. No call asks anything of its bytes.
#![tactic(auto)]

ghost use Rattle.std.specs.Prelude.{◌≡◌, List, ℕ};
ghost use Rattle.semantics.specs.Editions.{edition1};
ghost use Rattle.semantics.specs.Calls.{read_table_of, table_run_of};
ghost use Rattle.semantics.specs.Practice.{practice};
ghost use Rattle.schedules.specs.Calls.{read_schedule, size, compile, rule_run_of};
ghost use Rattle.compiler.specs.Answers.{returned, sized};
ghost use Rattle.records.specs.Reported.{ran_with};
ghost use Rattle.capi.specs.Returned.{ran, practised};

use compiler::call::Compiled;
use compiler::size::TableSize;
use paper::refusals::Refusal;
use records::Counts;

// 0, or the first of 1 to 11, 34, 12 that applies
#[unsafe(no_mangle)]
pub extern "C" fn zimtleiter_read_schedule(file: &[u8]) -> u8
    ensures { result ≡ (read_schedule edition1 file.now).refusal }
{
    match schedule_read::call::read(file) {
        Ok(_) => 0,
        Err(why) => u8::from(why),
    }
}

// 0, or the first of 15 to 19 that applies
#[unsafe(no_mangle)]
#[tactic(auto, unfolding(table_read::specs::TableIndex::told))]
pub extern "C" fn zimtleiter_read_table(table: &[u8]) -> u8
    ensures { result ≡ (read_table_of edition1 table.now).refusal }
{
    match table_read::call::read(table) {
        Ok(_) => 0,
        Err(why) => u8::from(why),
    }
}

// 0 and the numbers of locations and entries, or 1,025 and 0 where 13 would apply; or the first of 1 to 11, 34, 12 that applies, and both 0
#[unsafe(no_mangle)]
pub extern "C" fn zimtleiter_size(file: &[u8], locations: &mut u64, entries: &mut u64) -> u8
    ensures { sized result locations.new entries.new ≡ size edition1 file.now }
{
    let (refusal, x) = match compiler::size::of(file) {
        Ok(x) => (0, x),
        Err(why) => {
            let none = TableSize {
                locations: 0,
                entries: 0,
            };
            (u8::from(why), none)
        }
    };
    *locations = x.locations as u64;
    *entries = x.entries as u64;
    refusal
}

// 0, the table, its length and the comparisons of numbering; or the first of 1 to 11, 34, 12 to 14 that applies, and both numbers 0
#[unsafe(no_mangle)]
pub extern "C" fn zimtleiter_compile(
    file: &[u8],
    table: &mut [u8],
    length: &mut u64,
    comparisons: &mut u64,
) -> u8
    ensures { returned result length.new comparisons.new table.new ≡ compile edition1 file.now table.old }
{
    let (refusal, x) = match compiler::call::compile(file, table) {
        Ok(x) => (0, x),
        Err(why) => {
            let none = Compiled {
                length: 0,
                comparisons: 0,
            };
            (u8::from(why), none)
        }
    };
    *length = x.length as u64;
    *comparisons = x.comparisons;
    refusal
}

// the counts of a run behind their pointers, and its number
#[tactic(auto, unfolding(records::specs::Reported::ran_with))]
fn counted(
    run: Result<Counts, Refusal>,
    taken: &mut u64,
    turned_away: &mut u64,
    faulted: &mut u64,
) -> u8
    ensures { (d : List ℕ) → ran result taken.new turned_away.new faulted.new d ≡ ran_with run d }
{
    let (refusal, counts) = match run {
        Ok(counts) => (0, counts),
        Err(why) => (u8::from(why), Counts::default()),
    };
    *taken = counts.taken as u64;
    *turned_away = counts.turned_away as u64;
    *faulted = counts.faulted as u64;
    refusal
}

// 0, the records and their counts; or the first of 1 to 11, 34, 12, 20 to 22 that applies, and counts 0
#[unsafe(no_mangle)]
pub extern "C" fn zimtleiter_rule_run(
    file: &[u8],
    start: &[u8],
    events: &[u8],
    records: &mut [u8],
    taken: &mut u64,
    turned_away: &mut u64,
    faulted: &mut u64,
) -> u8
    ensures { ran result taken.new turned_away.new faulted.new records.new
        ≡ rule_run_of edition1 file.now start.now events.now records.old }
{
    let by_rules = rule_run::call::run(file, start, events, records);
    counted(by_rules, taken, turned_away, faulted)
}

// 0, the records and their counts; or the first of 15 to 22 that applies, and counts 0
#[unsafe(no_mangle)]
pub extern "C" fn zimtleiter_table_run(
    table: &[u8],
    start: &[u8],
    events: &[u8],
    records: &mut [u8],
    taken: &mut u64,
    turned_away: &mut u64,
    faulted: &mut u64,
) -> u8
    ensures { ran result taken.new turned_away.new faulted.new records.new
        ≡ table_run_of edition1 table.now start.now events.now records.old }
{
    let by_table = table_run::call::run(table, start, events, records);
    counted(by_table, taken, turned_away, faulted)
}

// 0, the events and their length in bytes; or the first of 32 and 33 that applies, and length 0
#[unsafe(no_mangle)]
pub extern "C" fn zimtleiter_practice(
    seed: u32,
    count: u64,
    events: &mut [u8],
    length: &mut u64,
) -> u8
    ensures { practised result length.new events.new ≡ practice seed count events.old }
{
    let (refusal, written) = match practice::call::write(seed, count, events) {
        Ok(written) => (0, written),
        Err(why) => (u8::from(why), 0),
    };
    *length = written as u64;
    refusal
}
