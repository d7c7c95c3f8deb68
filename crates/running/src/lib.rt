// What runrules and runtable share: a run of the files that the arguments name.
#![tactic(auto)]

mod faults;

ghost use Rattle.std.specs.Prelude.{◌≡◌, ◌+◌, ◌≤◌, length, IfSome};
ghost use Rattle.running.specs.Told.{asked, Chooses, size_of};
ghost use Rattle.output.specs.Written.{given};

use edition::Edition;
use initial_start::Start;
use paper::refusals::Refusal;
use records::Counts;
use std::env::Env;
use std::fs::Files;

// whether two or three files are named, of so many words with the program's own name
#[tactic(auto, unfolding(crate::specs::Told::asked))]
pub fn is_asked(words: usize) -> bool
    ensures { result ≡ asked words }
{
    matches!(words, 3 | 4)
}

// for the records of the events; a run whose records are longer is refused with 22
pub const RECORD_ROOM: usize = 400000;

// the start in the third file, or where none is named the initial one
pub fn start(
    rt: &(impl Env + Files),
    err: &impl Print,
    words: usize,
    program: &[u8],
    initial: Start,
) -> Option<Start>
    ensures { Chooses words initial result }
{
    if words < 4 {
        return Some(initial);
    }
    let mut bytes = [0u8; paper::START_BYTES];
    let length = input::load(rt, err, 3, program, &mut bytes)?;
    Some(Start { length, bytes })
}

// Which event faulted, if one did, of so many, and on which side of its range the result fell.
fn report_fault(err: &impl Print, records: &[u8], count: usize) {
    if let Some(fault) = faults::of(records, count) {
        let number = fault.number;
        let side = fault.side;
        let _ = println!(err; "event {number} of {count} faulted: {side}");
    }
}

fn report(err: &impl Print, counts: Counts) {
    let Counts {
        taken,
        turned_away,
        faulted,
    } = counts;
    let _ = println!(err; "taken {taken}, turned away {turned_away}, faulted {faulted}");
}

// the number of a refusal as one byte; or the records of so many events, so many bytes, and the counts. How many bytes were given to standard output
pub fn tell(
    out: &impl Print,
    err: &impl Print,
    program: &[u8],
    run: Result<Counts, u8>,
    count: usize,
    size: usize,
    records: &[u8],
) -> usize
    ensures value { result ≡ given (size_of run size) records.now }
    ensures within { result ≤ length records.now + 1 }
{
    match run {
        Ok(counts) => {
            let n = output::give(out, err, program, Ok(size), records);
            report(err, counts);
            report_fault(err, output::front(size, records), count);
            n
        }
        Err(number) => {
            output::noticed(err, program, out.write_all(&[number]));
            1
        }
    }
}

fn usage(err: &impl Print, program: &[u8], kind: &str) {
    let _ = err.write_all(program);
    let _ = err.write_all(b": usage: ");
    let _ = err.write_all(program);
    let _ = println!(err; " {kind} EVENTS [START]");
}

// A run of the file, the events and, if one is named, the start that the arguments name: its records on standard output, or the refusal as one byte;
// the counts, and which event faulted, on standard error. How many bytes were given to standard output, where there was a run.
// `kind` is what the usage calls the file, `buffer` is as long as the longest that may be accepted; `initial` gives the file's own start,
// `call` runs it, and `counts` gives its numbers of variables and selectors.
pub fn run<I, C, N>(
    rt: &(impl Env + Files + Print),
    err: &impl Print,
    program: &[u8],
    kind: &str,
    buffer: &mut [u8],
    initial: I,
    call: C,
    counts: N,
) -> Option<usize>
where
    I: FnOnce(&[u8]) -> Start,
    C: FnOnce(&[u8], &[u8], &[u8], &mut [u8]) -> Result<Counts, Refusal>,
    N: FnOnce(&[u8]) -> Option<(usize, usize)>,
    requires initial { I.IsAlwaysCallable initial }
    requires call { C.IsAlwaysCallable call }
    requires counts { N.IsAlwaysCallable counts }
    ensures { IfSome result (λ n. n ≤ 400001) }
{
    let words = input::words(rt);
    if !is_asked(words) {
        usage(err, program, kind);
        return None;
    }
    let mut events = [0; output::EVENT_ROOM];
    let n = input::load(rt, err, 1, program, buffer)?;
    let file = &buffer[..n];
    let m = input::load(rt, err, 2, program, &mut events)?;
    let events = &events[..m];
    let start = start(rt, err, words, program, initial(file))?;
    let mut records = [0; RECORD_ROOM];
    let start = start.as_slice();
    let r = call(file, start, events, &mut records).map_err(u8::from);
    let ed = Edition::First;
    let size = match counts(file) {
        Some((v, s)) => output::records_length(events.len(), v, s, ed).unwrap_or(0),
        None => 0,
    };
    let count = events.len() / edition::event_bytes(ed);
    Some(tell(rt, err, program, r, count, size, &records))
}
