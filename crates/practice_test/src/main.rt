// The call "practice events" on the stored cases of standard input: for each a line with what it was given and what it returned,
// and the lent buffer afterwards in hexadecimal digits on a line of its own.
// Its functions promise nothing but to end and to be safe.
#![tactic(auto)]

// the most bytes that are lent: those of 10,000 events and some behind them
const MOST_BYTES: usize = 30100;

// the bytes of all cases
const INPUT_BYTES: usize = 65536;

// what every lent byte is before a call
const UNTOUCHED: u8 = 0xAA;

// what the call is given
#[derive(Clone, Copy)]
struct Case {
    seed: u32,
    count: u64,
    // how many bytes are lent
    room: usize,
}

const CASE_BYTES: usize = 16;

impl Case {
    // seed (4 bytes), count (8), room (4)
    fn read(bytes: &[u8]) -> Option<Case> {
        let (seed, rest) = bytes.split_first_chunk::<4>()?;
        let (count, rest) = rest.split_first_chunk::<8>()?;
        let room = rest.first_chunk::<4>()?;
        Some(Case {
            seed: u32::from_be_bytes(*seed),
            count: u64::from_be_bytes(*count),
            room: u32::from_be_bytes(*room) as usize,
        })
    }
}

// a digit of the lower half of a byte
fn digit(b: u8) -> u8 {
    let n = b % 16;
    if n < 10 { b'0' + n } else { b'a' - 10 + n }
}

// two digits for each byte, and the line's end
const LINE: usize = 2 * MOST_BYTES + 1;

// the bytes in hexadecimal digits, as one line. A call of the formatter for each byte takes nine times as long
fn hexadecimal(out: &impl Print, bytes: &[u8]) {
    let mut line = [b'\n'; LINE];
    let n = bytes.len().min(MOST_BYTES);
    for i in 0..n {
        line[2 * i] = digit(bytes[i] / 16);
        line[2 * i + 1] = digit(bytes[i]);
    }
    let _ = out.write_all(&line[..2 * n + 1]);
}

// the two lines of a case; none where its bytes are none, or its room is more than can be lent
fn shown(out: &impl Print, bytes: &[u8]) -> Option<()> {
    let Case { seed, count, room } = Case::read(bytes)?;
    let mut buffer = [UNTOUCHED; MOST_BYTES];
    let events = buffer.get_mut(..room)?;
    let (refusal, length) = match practice::call::write(seed, count, events) {
        Ok(length) => (0, length),
        Err(why) => (u8::from(why), 0),
    };
    let _ = println!(out; "seed {seed}, count {count}, room {room}: {refusal}, {length}");
    hexadecimal(out, events);
    Some(())
}

// the cases one after the other; their number
fn all(out: &impl Print, cases: &[u8]) -> Option<usize> {
    for bytes in cases.chunks(CASE_BYTES) {
        shown(out, bytes)?;
    }
    Some(cases.len() / CASE_BYTES)
}

fn main(rt: HostRuntime) {
    let mut buffer = [0; INPUT_BYTES];
    let n = input::fill(&mut rt.stdin(), &mut buffer);
    let _ = match all(&rt, &buffer[..n]) {
        Some(n) => println!(rt; "{n} cases"),
        None => println!(rt; "no list of cases"),
    };
}
