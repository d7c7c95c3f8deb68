// The call "examining": a schedule compiled, run by the rules and run by its table, and the two runs compared.
#![tactic(auto)]

ghost use Rattle.std.specs.Prelude.{◌≡◌, List, ℕ, ◌≤◌, length, Ok};
ghost use Rattle.semantics.specs.Editions.{edition1};
ghost use Rattle.semantics.specs.Refusals.{refusal_of, accepted};
ghost use Rattle.semantics.specs.Calls.{records_size};
ghost use Rattle.schedules.specs.Files.{Schedule, judge_file};
ghost use Rattle.paper.specs.Refusals.{judged_of};
ghost use Rattle.records.specs.Reported.{ran_with};
ghost use Rattle.schedules.specs.Exam as Exam;
ghost use Rattle.schedules.specs.Exam.{judge_exam, exam_of};
ghost use Rattle.exam.specs.Examining.{examined_with, Room};

use edition::Edition;
use paper::refusals::Refusal;
use records::Counts;

#[derive(Clone, Copy)]
pub struct Examined {
    // of the table
    pub length: usize,
    // by the rules
    pub counts: Counts,
    // by the table
    pub table_counts: Counts,
    pub agree: bool,
}

// 1 to 11, 34, 12 to 14, 20 to 22, and 22 of the second record buffer, in order; of the events and the buffers only their lengths count
fn judged(
    file: &[u8],
    start: &[u8],
    events: usize,
    table: usize,
    records: usize,
    others: usize,
) -> Result<(), Refusal>
    ensures { (es ts rs os : List ℕ) → length es ≡ events → length ts ≡ table → length rs ≡ records → length os ≡ others
        → refusal_of (judged_of result) ≡ refusal_of (judge_exam edition1 file.now start.now es ts rs os) }
{
    let length = compiler::call::measure(file)?;
    if table < length {
        return Err(Refusal::TableRoom);
    }
    rule_run::call::check(file, start, events, records)?;
    rule_run::call::check(file, start, events, others)
}

// the length of a run's records, for which there is room
fn records_length(file: &[u8], events: &[u8], records: &[u8]) -> usize
    requires { Room edition1 file.now events.now records.now }
    ensures { (s : Schedule) → judge_file edition1 file.now ≡ accepted s → result ≡ records_size edition1 s.plant events.now }
{
    let ed = Edition::First;
    let Ok(s) = schedule_read::call::read(file) else {
        unreachable!()
    };
    events.len() / edition::event_bytes(ed) * records::record_length(s.variables, s.selectors, ed)
}

// whether two runs, whose records are a and b, say the same
fn agreed(r: Counts, t: Counts, a: &[u8], b: &[u8]) -> bool
    ensures { (n : ℕ) → length a.now ≤ n → length b.now ≤ n
        → result ≡ Exam.agreed n (ran_with (Ok r) a.now) (ran_with (Ok t) b.now) }
{
    r == t && a == b
}

// the same of the whole record buffers
fn compared(file: &[u8], events: &[u8], r: Counts, t: Counts, a: &[u8], b: &[u8]) -> bool
    requires { Room edition1 file.now events.now a.now × Room edition1 file.now events.now b.now }
    ensures { (s : Schedule) → judge_file edition1 file.now ≡ accepted s
        → result ≡ Exam.agreed (records_size edition1 s.plant events.now) (ran_with (Ok r) a.now) (ran_with (Ok t) b.now) }
{
    let size = records_length(file, events, a);
    agreed(r, t, &a[..size], &b[..size])
}

pub fn examine(
    file: &[u8],
    start: &[u8],
    events: &[u8],
    table: &mut [u8],
    records: &mut [u8],
    others: &mut [u8],
) -> Result<Examined, Refusal>
    ensures { examined_with result table.new records.new others.new
        ≡ exam_of edition1 file.now start.now events.now table.old records.old others.old }
{
    judged(
        file,
        start,
        events.len(),
        table.len(),
        records.len(),
        others.len(),
    )?;
    let c = compiler::call::compile(file, table)?;
    let r = rule_run::call::run(file, start, events, records)?;
    let t = table_run::call::run(&table[..c.length], start, events, others)?;
    Ok(Examined {
        length: c.length,
        counts: r,
        table_counts: t,
        agree: compared(file, events, r, t, records, others),
    })
}
