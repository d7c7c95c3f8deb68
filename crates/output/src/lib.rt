// What the programs share: how much of a buffer to write, and what is said where that fails.
#![tactic(auto)]

ghost use Rattle.std.specs.Prelude.{◌≡◌, ◌≤◌, IsTrue, ◌↔◌, IsOk, [], cond, leb, length, take};
ghost use Rattle.edition.specs.Editions.{edition_of};
ghost use Rattle.output.specs.Written.{RecordsTake, given};

use edition::Edition;
use paper::refusals::Refusal;
use std::io;

// the programs have room for so many events
const EVENTS: usize = 10000;

// an event of the first edition, which the programs take, has so many bytes
const EVENT_BYTES: usize = 3;

// the bytes of so many events: the length of an array is fixed
pub const EVENT_ROOM: usize = EVENTS * EVENT_BYTES;

// no accepted table has more bytes
pub const TABLE_ROOM: usize = 407570;

// a message of the program where a write failed; whether it did not
pub fn noticed(err: &impl Print, program: &[u8], written: io::Result<()>) -> bool
    ensures { IsTrue result ↔ IsOk written }
{
    if written.is_err() {
        let _ = err.write_all(program);
        let _ = println!(err; ": the output could not be written");
    }
    written.is_ok()
}

// the first n bytes, or none where there are fewer
pub fn front(n: usize, bytes: &[u8]) -> &[u8]
    ensures { result.now ≡ cond (leb n (length bytes.now)) (take n bytes.now) [] }
{
    bytes.get(..n).unwrap_or(&[])
}

// what a call answered, on standard output: so many bytes of a buffer, or the refusal as one byte. How many bytes that are
pub fn give(
    out: &impl Print,
    err: &impl Print,
    program: &[u8],
    answer: Result<usize, Refusal>,
    bytes: &[u8],
) -> usize
    ensures { result ≡ given answer bytes.now }
{
    match answer {
        Ok(n) => {
            let bytes = front(n, bytes);
            noticed(err, program, out.write_all(bytes));
            bytes.len()
        }
        Err(why) => {
            noticed(err, program, out.write_all(&[u8::from(why)]));
            1
        }
    }
}

// the bytes of the records of so many event bytes; none where the programs have no room for them
pub fn records_length(
    events: usize,
    variables: usize,
    selectors: usize,
    ed: Edition,
) -> Option<usize>
    ensures { RecordsTake (edition_of ed) events variables selectors result }
{
    let bytes = edition::event_bytes(ed);
    if events > EVENTS * bytes || variables > paper::VARIABLES || selectors > paper::EQUATIONS {
        return None;
    }
    Some(events / bytes * records::record_length(variables, selectors, ed))
}
