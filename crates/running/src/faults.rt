// The event of a run that faulted, found in its records.
ghost use Rattle.std.specs.Prelude.{◌≡◌, ℕ, ◌*◌, ◌≤◌, length};
ghost use Rattle.running.specs.Faulting.{side_of, FirstFault};

use std::fmt;

// on which side of its range a result fell
#[derive(Clone, Copy, PartialEq, Eq)]
pub enum Side {
    Above,
    Below,
}

impl fmt::Display for Side {
    fn fmt<W: fmt::Write>(&self, f: &mut fmt::Formatter<W>) -> fmt::Result {
        match self {
            Side::Above => f.write_str("too high (203)"),
            Side::Below => f.write_str("too low (204)"),
        }
    }
}

// the number of the event, from 1
#[derive(Clone, Copy)]
pub struct Fault {
    pub number: usize,
    pub side: Side,
}

impl Side {
    fn told(answer: u8) -> Side
        ensures { result ≡ side_of answer }
    {
        if answer == paper::answers::ABOVE {
            Side::Above
        } else {
            Side::Below
        }
    }
}

// Of records of so many bytes each, the first that tells of a fault.
fn first(records: &[u8], size: usize) -> Option<Fault>
    requires { 1 ≤ size }
    ensures { FirstFault records.now size result }
{
    for n in 0..records.len() / size {
        let answer = records[n * size];
        if paper::answers::HALTED < answer {
            return Some(Fault {
                number: n + 1,
                side: Side::told(answer),
            });
        }
    }
    None
}

// The same of the records of so many events, all of one size.
pub fn of(records: &[u8], count: usize) -> Option<Fault>
    ensures { (size : ℕ) → 1 ≤ size → length records.now ≡ count * size → FirstFault records.now size result }
{
    let size = records.len().checked_div(count)?;
    if size == 0 {
        return None;
    }
    first(records, size)
}
