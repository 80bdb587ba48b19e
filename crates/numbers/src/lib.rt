// Bytes as numbers and back, and the places of numbers.
#![tactic(auto)]

ghost use Rattle.std.specs.Prelude.{◌≡◌, ◌+◌, ◌<◌, ◌≤◌, length};
ghost use Rattle.rules.specs.Numbers.{group_of, tenth, ends_with, stream_from, bytes_of_number, bytes_of, place_of};
ghost use Rattle.rules.specs.Answers.{of_read, read_stream, read_says, read_leaves};
ghost use Rattle.rules.specs.Answers.{of_write, write_says, write_leaves};
ghost use Rattle.numbers.specs.Promises.{Reads, Writes};
ghost use Rattle.numbers.specs.Parts.{of_group, NumberAt, Readable, Stored};

use rules::{Reason, Refusal};

// The most bytes of a bench file.
const MOST_BYTES: usize = 4096;

// What a byte holds of its number: a group with others behind it, or the last group.
#[derive(Clone, Copy)]
enum Group {
    More(u64),
    Last(u64),
}

// A number, and where the next one begins.
#[derive(Clone, Copy)]
struct Number {
    value: u64,
    next: usize,
}

// The bytes as numbers, into the slots from the first on: how many; or refused 1, 2, 3 or 13, with the slots as found.
pub fn read(bytes: &[u8], slots: &mut [u64]) -> Result<usize, Refusal>
    ensures { Reads bytes.now slots.old result slots.new }
{
    let count = count(bytes, slots.len())?;
    fill(bytes, slots);
    Ok(count)
}

// How many numbers the bytes hold, or why they are refused: 13 where that is more than there is room for.
fn count(bytes: &[u8], room: usize) -> Result<usize, Refusal>
    ensures { of_read result ≡ read_says bytes.now room }
{
    if bytes.len() == 0 || MOST_BYTES < bytes.len() {
        return Err(Refusal {
            reason: Reason::Size,
            place: 0,
        });
    }
    count_numbers(bytes, room)
}

// The same for bytes of which there are neither too few nor too many. Most numbers are of one byte.
#[tactic(auto, using(crate::proofs::Counting::counts))]
fn count_numbers(bytes: &[u8], room: usize) -> Result<usize, Refusal>
    ensures { of_read result ≡ read_stream (stream_from 0 0 0 bytes.now) room }
{
    let mut count = 0;
    let mut at = 0;
    while at < bytes.len() {
        if bytes[at] < 128 {
            at += 1;
        } else {
            match number_at(bytes, at) {
                Ok(number) => at = number.next,
                Err(reason) => return Err(Refusal { reason, place: at }),
            }
        }
        count += 1;
    }
    if count <= room {
        Ok(count)
    } else {
        Err(Refusal {
            reason: Reason::Room,
            place: 0,
        })
    }
}

// The numbers of bytes that read, into the slots from the first on.
fn fill(bytes: &[u8], slots: &mut [u64])
    requires { Readable bytes.now (length slots.old) }
    ensures { slots.new ≡ read_leaves bytes.now slots.old }
{
    let mut index = 0;
    let mut at = 0;
    while at < bytes.len() {
        let byte = bytes[at];
        if byte < 128 {
            slots[index] = byte as u64;
            at += 1;
        } else {
            let Ok(number) = number_at(bytes, at) else {
                return;
            };
            slots[index] = number.value;
            at = number.next;
        }
        index += 1;
    }
}

// The number that begins at a place within the bytes, or what is wrong there.
fn number_at(bytes: &[u8], place: usize) -> Result<Number, Reason>
    requires { place < length bytes.now }
    ensures { NumberAt bytes.now place result }
{
    let mut value: u64 = 0;
    let mut weight: u64 = 1;
    for at in place..bytes.len() {
        match group_of(at - place, bytes[at]) {
            Some(Group::More(group)) => {
                value += group * weight;
                weight *= 128;
            }
            Some(Group::Last(group)) => {
                return Ok(Number {
                    value: value + group * weight,
                    next: at + 1,
                });
            }
            None => return Err(Reason::Overlong),
        }
    }
    Err(Reason::CutOff)
}

// A byte, behind so many others of its number; none where it is wrong there.
fn group_of(before: usize, byte: u8) -> Option<Group>
    ensures { of_group result ≡ group_of before byte }
{
    if before == 9 {
        tenth(byte)
    } else if 128 <= byte {
        Some(Group::More((byte - 128) as u64))
    } else {
        ends_with(before, byte)
    }
}

// The tenth byte of a number, which ends it.
fn tenth(byte: u8) -> Option<Group>
    ensures { of_group result ≡ tenth byte }
{
    if byte == 1 {
        Some(Group::Last(1))
    } else {
        None
    }
}

// A byte below 128, behind so many others of its number.
fn ends_with(before: usize, byte: u8) -> Option<Group>
    ensures { of_group result ≡ ends_with before byte }
{
    if byte != 0 {
        Some(Group::Last(byte as u64))
    } else if before == 0 {
        Some(Group::Last(0))
    } else {
        None
    }
}

// The numbers as bytes, into the bytes from the first on: how many; or refused 13, with the bytes as found.
pub fn write(numbers: &[u64], bytes: &mut [u8]) -> Result<usize, Refusal>
    ensures { Writes numbers.now bytes.old result bytes.new }
{
    let length = measure(numbers, bytes.len())?;
    store(numbers, bytes);
    Ok(length)
}

// How many bytes the numbers take, or 13 where that is more than there is room for.
fn measure(numbers: &[u64], room: usize) -> Result<usize, Refusal>
    ensures { of_write result ≡ write_says numbers.now room }
{
    let mut taken = 0;
    for &number in numbers {
        let more = length_of(number);
        if room - taken < more {
            return Err(Refusal {
                reason: Reason::Room,
                place: 0,
            });
        }
        taken += more;
    }
    Ok(taken)
}

// How many bytes a number takes.
fn length_of(number: u64) -> usize
    ensures { result ≡ length (bytes_of_number number) }
{
    let mut rest = number;
    let mut taken = 1;
    while 128 <= rest {
        rest /= 128;
        taken += 1;
    }
    taken
}

// The numbers into bytes that they fit, from the first on.
fn store(numbers: &[u64], bytes: &mut [u8])
    requires { length (bytes_of numbers.now) ≤ length bytes.old }
    ensures { bytes.new ≡ write_leaves numbers.now bytes.old }
{
    let mut at = 0;
    for &number in numbers {
        at = store_number(number, at, bytes);
    }
}

// A number into bytes that it fits, from a place on: the place behind it.
fn store_number(number: u64, place: usize, bytes: &mut [u8]) -> usize
    requires { place + length (bytes_of_number number) ≤ length bytes.old }
    ensures { Stored number place bytes.old result bytes.new }
{
    let mut at = place;
    let mut rest = number;
    while 128 <= rest {
        bytes[at] = (128 + rest % 128) as u8;
        rest /= 128;
        at += 1;
    }
    bytes[at] = rest as u8;
    at + 1
}

// The byte offset of the number with this index, or the length where there is no such number.
pub fn place_of(bytes: &[u8], index: usize) -> usize
    ensures { result ≡ place_of bytes.now index }
{
    let mut left = index;
    for (at, byte) in bytes.iter().enumerate() {
        if left == 0 {
            return at;
        }
        if *byte < 128 {
            left -= 1;
        }
    }
    bytes.len()
}
