// The product's seven calls on the stored cases of standard input: a line for each case, which ends in whether every number and every lent byte is the stored one.
// Its functions promise nothing but to end and to be safe.
#![tactic(auto)]

mod calls; // calls.rt: the seven calls
mod compared; // compared.rt: what a call returns and leaves beside what is stored
mod stored; // stored.rt: a case as it is stored

use std::io::Read;
use stored::{Case, Strings};

// the case's line; whether all is as stored
fn shown(out: &impl Print, c: Case, s: &Strings) -> bool {
    let _ = out.write_all(s.name.bytes());
    let _ = print!(out; ": ");
    let is_same = compared::is_same(out, c, s);
    let _ = if is_same {
        println!(out; "; as stored")
    } else {
        println!(out; "; DIFFERENT")
    };
    is_same
}

// the cases one after the other; the strings stay for the next. The last line has the counts, where the input ends behind a case
fn all(from: &mut impl Read, out: &impl Print, strings: &mut Strings) {
    let mut different = 0u64;
    for cases in 0..u64::MAX {
        match stored::next(from, strings) {
            Ok(Some(c)) => {
                if !shown(out, c, strings) {
                    different = different.wrapping_add(1);
                }
            }
            Ok(None) => {
                let _ = println!(out; "{cases} cases, {different} different");
                return;
            }
            Err(_) => {
                let _ = println!(out; "no list of cases");
                return;
            }
        }
    }
}

fn main(rt: HostRuntime) {
    let mut strings = Strings::new();
    all(&mut rt.stdin(), &rt, &mut strings);
}
