// mkevents SEED COUNT: so many practice events from a seed on standard output, or the refusal as one byte.
#![tactic(auto)]

ghost use Rattle.std.specs.Prelude.{◌≡◌, ◌≤◌, IfSome};
ghost use Rattle.decimal.specs.Decimal.{decimal_in};
ghost use Rattle.decimal.specs.Parsing.{parsed_of};

use decimal::Misread;
use std::env::Env;

// the program's name, SEED and COUNT
const WORDS: usize = 3;

// a seed has 32 bits
const SEED_MOST: u64 = 4294967295;

// a count has 64 bits; the call's own limit is far below
const COUNT_MOST: u64 = 18446744073709551615;

// the number that the bytes of an argument are; where they are none up to `most`, a line on standard error
fn told(err: &impl Print, s: &[u8], name: &str, most: u64) -> Result<u64, Misread>
    ensures { result ≡ parsed_of most (decimal_in s.now) }
{
    let number = decimal::read(s, most);
    match number {
        Ok(_) => {}
        Err(Misread::NotDecimal) => {
            let _ = println!(err; "mkevents: {name} is no decimal number");
        }
        Err(Misread::TooLarge) => {
            let _ = println!(err; "mkevents: {name} is above {most}");
        }
    }
    number
}

// the same of argument i, which may have as many bytes as the buffer
fn argument(rt: &impl Env, err: &impl Print, i: usize, name: &str, most: u64) -> Option<u64>
    ensures { IfSome result (λ n. n ≤ most) }
{
    let mut word = [0u8; 4096];
    let Ok(n) = rt.arg(i, &mut word) else {
        let _ = println!(err; "mkevents: {name} is longer than 4096 bytes");
        return None;
    };
    match told(err, &word[..n], name, most) {
        Ok(number) => Some(number),
        Err(_) => None,
    }
}

fn write(rt: &impl Print, err: &impl Print, seed: u32, count: u64) {
    let mut events = [0; output::EVENT_ROOM];
    let answer = practice::call::write(seed, count, &mut events);
    output::give(rt, err, b"mkevents", answer, &events);
}

fn main(rt: HostRuntime) {
    let err = rt.stderr();
    if input::words(&rt) != WORDS {
        let _ = println!(err; "mkevents: usage: mkevents SEED COUNT");
        return;
    }
    let Some(seed) = argument(&rt, &err, 1, "SEED", SEED_MOST) else {
        return;
    };
    let Some(count) = argument(&rt, &err, 2, "COUNT", COUNT_MOST) else {
        return;
    };
    write(&rt, &err, seed as u32, count);
}
