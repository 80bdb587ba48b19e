// What is printed: words, and numbers and bytes with a blank before each.
use rules::{Acceptance, Refusal};
use std::io;

pub(crate) fn text(rt: &impl Print, words: &[u8]) -> io::Result<()> {
    rt.write_all(words)
}

pub(crate) fn end(rt: &impl Print) -> io::Result<()> {
    text(rt, b"\n")
}

pub(crate) fn number(rt: &impl Print, n: u64) -> io::Result<()> {
    print!(rt; " {n}")
}

// Two hexadecimal digits.
fn byte(rt: &impl Print, b: u8) -> io::Result<()> {
    print!(rt; " {b:02x}")
}

// The first `most` numbers, or all where there are fewer.
pub(crate) fn numbers(rt: &impl Print, list: &[u64], most: usize) -> io::Result<()> {
    for n in list.iter().take(most) {
        number(rt, *n)?;
    }
    Ok(())
}

pub(crate) fn bytes(rt: &impl Print, list: &[u8]) -> io::Result<()> {
    for b in list {
        byte(rt, *b)?;
    }
    Ok(())
}

pub(crate) fn refusal(rt: &impl Print, refusal: Refusal) -> io::Result<()> {
    text(rt, b" refused")?;
    number(rt, refusal.reason.number())?;
    number(rt, refusal.place as u64)
}

pub(crate) fn read(rt: &impl Print, answer: Result<usize, Refusal>) -> io::Result<()> {
    counted(rt, b" numbers", answer)
}

pub(crate) fn written(rt: &impl Print, answer: Result<usize, Refusal>) -> io::Result<()> {
    counted(rt, b" length", answer)
}

// How many there are of what is named.
fn counted(rt: &impl Print, name: &[u8], answer: Result<usize, Refusal>) -> io::Result<()> {
    match answer {
        Ok(count) => {
            text(rt, name)?;
            number(rt, count as u64)
        }
        Err(unread) => refusal(rt, unread),
    }
}

pub(crate) fn judged(rt: &impl Print, answer: Result<Acceptance, Refusal>) -> io::Result<()> {
    match answer {
        Ok(file) => {
            text(rt, b" judged")?;
            number(rt, file.ceiling)?;
            number(rt, file.length as u64)
        }
        Err(refused) => refusal(rt, refused),
    }
}
