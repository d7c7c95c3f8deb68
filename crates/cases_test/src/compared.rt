// A case's call with what is lent to it; what it returns and leaves is compared with what is stored.
use super::calls;
use super::stored::{Call, Case, NUMBERS, ROOM, Strings};

// what every lent byte is before a call
const UNTOUCHED: u8 = 0xAA;

// whether a lent buffer has the string that the call writes at its front, if it writes one, and is untouched behind
fn left(lent: &[u8], written: Option<&[u8]>) -> bool {
    let written = written.unwrap_or(&[]);
    match lent.split_at_checked(written.len()) {
        Some((front, rest)) => front == written && rest.iter().all(|b| *b == UNTOUCHED),
        None => false,
    }
}

// the string, where the call writes it
fn written(is_written: bool, string: &[u8]) -> Option<&[u8]> {
    if is_written { Some(string) } else { None }
}

// The call with as many bytes lent as the case says, and its line; whether all is as stored. A refused call writes nothing.
pub fn is_same(out: &impl Print, c: Case, s: &Strings) -> bool {
    let mut table = [UNTOUCHED; ROOM];
    let mut records = [UNTOUCHED; ROOM];
    let mut others = [UNTOUCHED; ROOM];
    let (refusal, numbers) = match lent(c, s, &mut table, &mut records, &mut others) {
        Ok(numbers) => (0, numbers),
        Err(number) => (number, [0; NUMBERS]),
    };
    shown(out, c.call, refusal, &numbers);
    let accepts = c.refusal == 0;
    let examines = accepts && c.call == Call::Examine;
    let compiles = examines || accepts && c.call == Call::Compile;
    let runs = examines || accepts && (c.call == Call::Rules || c.call == Call::ByTable);
    refusal == c.refusal
        && numbers == c.numbers
        && left(
            output::front(c.table_room, &table),
            written(compiles, s.table.bytes()),
        )
        && left(
            output::front(c.record_room, &records),
            written(runs, s.records.bytes()),
        )
        && left(
            output::front(c.other_room, &others),
            written(examines, s.records.bytes()),
        )
}

// the call with the fronts of these buffers lent; the number of a refusal
fn lent(
    c: Case,
    s: &Strings,
    table: &mut [u8; ROOM],
    records: &mut [u8; ROOM],
    others: &mut [u8; ROOM],
) -> Result<[usize; NUMBERS], u8> {
    let a = c.table_room.min(ROOM);
    let b = c.record_room.min(ROOM);
    let d = c.other_room.min(ROOM);
    match calls::made(
        c.call,
        s,
        &mut table[..a],
        &mut records[..b],
        &mut others[..d],
    ) {
        Ok(numbers) => Ok(numbers),
        Err(why) => Err(u8::from(why)),
    }
}

// the call, its refusal and its numbers
fn shown(out: &impl Print, call: Call, refusal: u8, numbers: &[usize; NUMBERS]) {
    let _ = print!(out; "{call} {refusal},");
    for n in numbers.iter().take(call.count()) {
        let _ = print!(out; " {n}");
    }
}
