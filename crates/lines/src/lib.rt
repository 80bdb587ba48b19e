// The result lines (document 01, the section of that name), put into lent bytes: measured first, so that too few bytes
// stay as found.
#![tactic(auto)]

ghost use Rattle.std.specs.Prelude.{◌≡◌, ◌∷◌, [], ◌+◌, ◌≤◌, length};
ghost use Rattle.std.proofs.lemmas.List.Edits.{sets};
ghost use Rattle.rules.specs.Answers.{of_write, ended};
ghost use Rattle.rules.specs.Lines.{blank, decimal, behind_blanks, between_blanks, word_of, refused_line, lines_of};
ghost use Rattle.lines.specs.Promises.{Prints};
ghost use Rattle.lines.specs.Parts.{most_letters, word_line, store_line, measured, Stored};

use rules::{Reason, Refusal, Signal};

const BLANK: u8 = 32;

const NEWLINE: u8 = 10;

// The digit 0; the others follow it.
const ZERO: u64 = 48;

// How many letters `refused` has.
const REFUSED_LETTERS: usize = 7;

// How many letters `done` and `exit` have.
const SIGNAL_LETTERS: usize = 4;

// How many letters `reject` has.
const REJECT_LETTERS: usize = 6;

// More bytes are wanted than are lent.
const TOO_FEW: Refusal = Refusal {
    reason: Reason::Room,
    place: 0,
};

// The line of a refusal, into the bytes from the first on: how many; or refused 13, with the bytes as found.
pub fn refused(number: u64, place: usize, bytes: &mut [u8]) -> Result<usize, Refusal>
    ensures { Prints (refused_line number place) bytes.old result bytes.new }
{
    let length = line_length(REFUSED_LETTERS, number, place as u64);
    if bytes.len() < length {
        return Err(TOO_FEW);
    }
    put_line(b"refused", number, place as u64, bytes);
    Ok(length)
}

// The two lines of a run that ended, with the store's numbers on the second, likewise.
pub fn ended(
    signal: Signal,
    steps: u64,
    ceiling: u64,
    store: &[u64],
    bytes: &mut [u8],
) -> Result<usize, Refusal>
    ensures { Prints (lines_of (ended signal steps ceiling store.now)) bytes.old result bytes.new }
{
    let letters = word_length(signal);
    let line = line_length(letters, steps, ceiling);
    let length = measure(store, line, bytes.len())?;
    put_signal(signal, steps, ceiling, bytes);
    put_store(store, line, bytes);
    Ok(length)
}

// How many bytes the word of a signal takes, with the error behind that of a reject.
fn word_length(signal: Signal) -> usize
    ensures { result ≡ length (word_of signal) }
{
    match signal {
        Signal::Done => SIGNAL_LETTERS,
        Signal::Exit => SIGNAL_LETTERS,
        Signal::Reject(error) => REJECT_LETTERS + 1 + digits(error),
    }
}

// How many bytes a line takes that has a word of so many letters and two numbers.
fn line_length(letters: usize, first: u64, second: u64) -> usize
    requires { letters ≤ most_letters }
    ensures { result ≡ letters + length (behind_blanks (first ∷ second ∷ [])) + 1 }
{
    letters + digits(first) + digits(second) + 3
}

// How many bytes the lines take whose first takes so many, or 13 where that is more than there is room for.
fn measure(store: &[u64], line: usize, room: usize) -> Result<usize, Refusal>
    ensures { of_write result ≡ measured (line + length (store_line store.now)) room }
{
    if room <= line {
        Err(TOO_FEW)
    } else if store.len() == 0 {
        Ok(line + 1)
    } else {
        measure_numbers(store, line, room)
    }
}

// The same behind so many bytes for numbers with one byte more for each.
fn measure_numbers(store: &[u64], line: usize, room: usize) -> Result<usize, Refusal>
    requires { line ≤ room }
    ensures { of_write result ≡ measured (line + length (behind_blanks store.now)) room }
{
    let mut taken = line;
    for &number in store {
        let more = 1 + digits(number);
        if room - taken < more {
            return Err(TOO_FEW);
        }
        taken += more;
    }
    Ok(taken)
}

// How many digits a number has.
fn digits(number: u64) -> usize
    ensures { result ≡ length (decimal number) }
{
    let mut rest = number;
    let mut count = 1;
    while 10 <= rest {
        rest /= 10;
        count += 1;
    }
    count
}

// The first line of a run that ended, into bytes that it fits, from the first on.
fn put_signal(signal: Signal, steps: u64, ceiling: u64, bytes: &mut [u8])
    requires { length (word_line (word_of signal) steps ceiling) ≤ length bytes.old }
    ensures { bytes.new ≡ sets bytes.old 0 (word_line (word_of signal) steps ceiling) }
{
    let next = put_named(signal, bytes);
    let end = put_pair(steps, ceiling, next, bytes);
    bytes[end] = NEWLINE;
}

// The word of a signal, and behind that of a reject its error, from the first byte on: the place behind them.
fn put_named(signal: Signal, bytes: &mut [u8]) -> usize
    requires { length (word_of signal) ≤ length bytes.old }
    ensures { Stored (word_of signal) 0 bytes.old result bytes.new }
{
    match signal {
        Signal::Done => put_word(b"done", bytes),
        Signal::Exit => put_word(b"exit", bytes),
        Signal::Reject(error) => {
            let next = put_word(b"reject", bytes);
            put_behind(error, next, bytes)
        }
    }
}

// A word and two numbers behind it, likewise.
fn put_line(word: &[u8], first: u64, second: u64, bytes: &mut [u8])
    requires { length (word_line word.now first second) ≤ length bytes.old }
    ensures { bytes.new ≡ sets bytes.old 0 (word_line word.now first second) }
{
    let next = put_word(word, bytes);
    let end = put_pair(first, second, next, bytes);
    bytes[end] = NEWLINE;
}

// A word into bytes that it fits, from the first on: the place behind it.
fn put_word(word: &[u8], bytes: &mut [u8]) -> usize
    requires { length word.now ≤ length bytes.old }
    ensures { Stored word.now 0 bytes.old result bytes.new }
{
    let length = word.len();
    bytes[..length].copy_from_slice(word);
    length
}

// The line of a store's numbers, into bytes that it fits, from a place on.
fn put_store(store: &[u64], place: usize, bytes: &mut [u8])
    requires { place + length (store_line store.now) ≤ length bytes.old }
    ensures { bytes.new ≡ sets bytes.old place (store_line store.now) }
{
    let last = put_between(store, place, bytes);
    bytes[last] = NEWLINE;
}

// Numbers with blanks between them, from a place on: the place behind them.
fn put_between(store: &[u64], place: usize, bytes: &mut [u8]) -> usize
    requires { place + length (between_blanks store.now) ≤ length bytes.old }
    ensures { Stored (between_blanks store.now) place bytes.old result bytes.new }
{
    if store.len() == 0 {
        place
    } else {
        let next = put_decimal(store[0], place, bytes);
        put_numbers(&store[1..], next, bytes)
    }
}

// Numbers with a blank in front of each, from a place on: the place behind them.
fn put_numbers(numbers: &[u64], place: usize, bytes: &mut [u8]) -> usize
    requires { place + length (behind_blanks numbers.now) ≤ length bytes.old }
    ensures { Stored (behind_blanks numbers.now) place bytes.old result bytes.new }
{
    let mut at = place;
    for &number in numbers {
        at = put_behind(number, at, bytes);
    }
    at
}

// Two numbers, likewise.
fn put_pair(first: u64, second: u64, place: usize, bytes: &mut [u8]) -> usize
    requires { place + length (behind_blanks (first ∷ second ∷ [])) ≤ length bytes.old }
    ensures { Stored (behind_blanks (first ∷ second ∷ [])) place bytes.old result bytes.new }
{
    let next = put_behind(first, place, bytes);
    put_behind(second, next, bytes)
}

// A number behind a blank, from a place on: the place behind it.
fn put_behind(number: u64, place: usize, bytes: &mut [u8]) -> usize
    requires { place + length (blank ∷ decimal number) ≤ length bytes.old }
    ensures { Stored (blank ∷ decimal number) place bytes.old result bytes.new }
{
    bytes[place] = BLANK;
    put_decimal(number, place + 1, bytes)
}

// A number's digits, from a place on: the place behind them. The last one is put first.
fn put_decimal(number: u64, place: usize, bytes: &mut [u8]) -> usize
    requires { place + length (decimal number) ≤ length bytes.old }
    ensures { Stored (decimal number) place bytes.old result bytes.new }
{
    let next = place + digits(number);
    let mut at = next - 1;
    let mut rest = number;
    while 10 <= rest {
        bytes[at] = (ZERO + rest % 10) as u8;
        rest /= 10;
        at -= 1;
    }
    bytes[at] = (ZERO + rest) as u8;
    next
}
