// A file whole, by the name in an argument of the program or from standard input.
#![tactic(auto)]

ghost use Rattle.std.specs.Prelude.{IfSome, IfOk};
ghost use Rattle.input.specs.Fronts.{IsPrefixLen};

mod reason; // reason.rt: why a file is not there whole

use reason::Unread;
use std::env::{Env, FillError};
use std::fs;
use std::fs::Files;
use std::io::Read;

const STANDARD: &[u8] = b"standard input";

// Reads until the buffer is full, the input ends or a read fails; how many bytes the buffer's front then has. A read gives any number of bytes, so that the loop is no count.
pub fn fill(from: &mut impl Read, buf: &mut [u8]) -> usize
    ensures { IsPrefixLen result buf.new }
{
    let mut done = 0;
    while done < buf.len() {
        match from.read(&mut buf[done..]) {
            Ok(0) | Err(_) => break,
            Ok(n) => done += n,
        }
    }
    done
}

// the same where nothing follows what was read; what a call of the system reads no contract can say
fn read(from: &mut impl Read, buf: &mut [u8]) -> Result<usize, Unread>
    ensures { IfOk result (λ n. IsPrefixLen n buf.new) }
{
    let n = fill(from, buf);
    if from.read(&mut [0])? == 0 {
        Ok(n)
    } else {
        Err(Unread::Longer(buf.len()))
    }
}

// the same where something may follow
fn front(from: &mut impl Read, buf: &mut [u8]) -> Result<usize, Unread>
    ensures { IfOk result (λ n. IsPrefixLen n buf.new) }
{
    let n = fill(from, buf);
    from.read(&mut [0])?;
    Ok(n)
}

// the program's message; names are bytes, for an argument need not be text
fn tell(err: &impl Print, program: &[u8], name: &[u8], why: &Unread) {
    let _ = err.write_all(program);
    let _ = err.write_all(b": ");
    let _ = err.write_all(name);
    let _ = println!(err; ": {why}");
}

// standard input, read into the buffer; how many bytes it has. Where it is not whole, a message on standard error under the program's name
pub fn standard(
    from: &impl Input,
    err: &impl Print,
    program: &[u8],
    buf: &mut [u8],
) -> Option<usize>
    ensures { IfSome result (λ n. IsPrefixLen n buf.new) }
{
    read(&mut from.reader(), buf)
        .inspect_err(|why| tell(err, program, STANDARD, why))
        .ok()
}

// standard input as far as the buffer goes; how many bytes were read. Where it cannot be read, a message on standard error under the program's name
pub fn standard_front(
    from: &impl Input,
    err: &impl Print,
    program: &[u8],
    buf: &mut [u8],
) -> Option<usize>
    ensures { IfSome result (λ n. IsPrefixLen n buf.new) }
{
    front(&mut from.reader(), buf)
        .inspect_err(|why| tell(err, program, STANDARD, why))
        .ok()
}

// how many words the program was started with, its own name among them
pub fn words(env: &impl Env) -> usize {
    for i in 0..usize::MAX {
        if let Err(FillError::NotPresent) = env.arg(i, &mut []) {
            return i;
        }
    }
    usize::MAX
}

// the file of this name, read into the buffer
fn named(files: &impl Files, name: &[u8], buf: &mut [u8]) -> Result<usize, Unread>
    ensures { IfOk result (λ n. IsPrefixLen n buf.new) }
{
    let name = std::str::from_utf8(name)?;
    read(&mut fs::open(files, name)?, buf)
}

// the file that argument i names, read into the buffer; how many bytes it has, or a message likewise
pub fn load(
    rt: &(impl Env + Files),
    err: &impl Print,
    i: usize,
    program: &[u8],
    buf: &mut [u8],
) -> Option<usize>
    ensures { IfSome result (λ n. IsPrefixLen n buf.new) }
{
    let mut path = [0u8; 4096];
    match rt.arg(i, &mut path) {
        Ok(n) => {
            let name = &path[..n];
            named(rt, name, buf)
                .inspect_err(|why| tell(err, program, name, why))
                .ok()
        }
        Err(why) => {
            tell(err, program, b"argument", &Unread::from(why));
            None
        }
    }
}
