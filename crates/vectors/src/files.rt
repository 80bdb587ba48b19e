// Files of bytes: what each reads as; where it reads, the judge's verdict; where that accepts it, its result lines.
use crate::print;
use std::rt::Runtime;
use std::{env, fs, io};

// More bytes than a bench file may have, so that a file that has too many is not cut.
const FILE: usize = 65536;
// No file that is read holds more numbers.
const NUMBERS: usize = 4096;
// So many of a file's numbers are printed.
const SHOWN: usize = 4;
// Bytes enough for the result lines of every file.
const LINES: usize = 12288;

pub(crate) fn each(rt: &impl Runtime) -> io::Result<()> {
    for name in env::args(rt)?.skip(1) {
        named_by(rt, name.as_str())?;
    }
    Ok(())
}

// A file that cannot be opened is named on standard error, with the reason, and the others follow all the same.
fn named_by(rt: &impl Runtime, name: &str) -> io::Result<()> {
    match fs::open(rt, name) {
        Ok(mut opened) => file(rt, name, &mut opened),
        Err(error) => eprintln!(rt; "{name}: {error}"),
    }
}

fn file(rt: &impl Print, name: &str, opened: &mut impl io::Read) -> io::Result<()> {
    let mut bytes = [0u8; FILE];
    let length = input::fill(opened, &mut bytes)?;
    check(rt, name.as_bytes(), &bytes[..length])
}

fn check(rt: &impl Print, name: &[u8], bytes: &[u8]) -> io::Result<()> {
    let mut slots = [0u64; NUMBERS];
    let answer = bench::read(bytes, &mut slots);
    print::text(rt, name)?;
    print::read(rt, answer)?;
    match answer {
        Ok(count) => {
            print::numbers(rt, &slots[..count], SHOWN)?;
            print::end(rt)?;
            judge(rt, name, bytes)
        }
        Err(_) => print::end(rt),
    }
}

fn judge(rt: &impl Print, name: &[u8], bytes: &[u8]) -> io::Result<()> {
    let answer = bench::judge(bytes);
    print::text(rt, name)?;
    print::judged(rt, answer)?;
    print::end(rt)?;
    match answer {
        Ok(_) => run(rt, name, bytes),
        Err(_) => Ok(()),
    }
}

// The result lines as they are, with the name before the first.
fn run(rt: &impl Print, name: &[u8], bytes: &[u8]) -> io::Result<()> {
    let mut result = [0u8; LINES];
    let answer = bench::lines(bytes, &mut result);
    print::text(rt, name)?;
    match answer {
        Ok(length) => {
            print::text(rt, b" ")?;
            print::text(rt, &result[..length])
        }
        Err(refusal) => {
            print::refusal(rt, refusal)?;
            print::end(rt)
        }
    }
}
