// Reading and writing where there is little room, and what stays. A line says what is read or written, how many of the
// slots or bytes are lent, the answer, and what all of them hold afterwards.
ghost use Rattle.std.specs.Prelude.{◌≤◌, length};

use crate::print;
use rules::Refusal;
use std::io;

// So many slots and bytes there are.
const ALL: usize = 4;
// What each slot holds before.
const SLOT_MARK: u64 = 9;
// What each byte holds before.
const BYTE_MARK: u8 = 9;
// So many numbers of a list are printed.
const SHOWN: usize = 4;
// So many zeros take one byte more than a bench file may have.
const TOO_MANY: usize = 4097;
// So many of the widest number take more bytes than that.
const TOO_MANY_WIDE: usize = 410;
// Bytes enough for each list that is written.
const ROOM: usize = 65536;

// 300 and 5; 300 and a number that is cut off, or padded; nothing.
pub(crate) fn reads(rt: &impl Print) -> io::Result<()> {
    read(rt, b"\xac\x02\x05", 0)?;
    read(rt, b"\xac\x02\x05", 1)?;
    read(rt, b"\xac\x02\x05", 2)?;
    read(rt, b"\xac\x02\x05", 4)?;
    read(rt, b"\xac\x02\x80", 0)?;
    read(rt, b"\xac\x02\x80\x00", 1)?;
    read(rt, b"\xac\x02\x80\x00", 4)?;
    read(rt, b"", 0)
}

fn read(rt: &impl Print, bytes: &[u8], room: usize) -> io::Result<()>
    requires { room ≤ 4 }
{
    let mut slots = [SLOT_MARK; ALL];
    let answer = read_into(bytes, room, &mut slots);
    print::text(rt, b"read")?;
    print::bytes(rt, bytes)?;
    print::text(rt, b" into")?;
    print::number(rt, room as u64)?;
    print::read(rt, answer)?;
    print::text(rt, b" slots")?;
    print::numbers(rt, &slots, ALL)?;
    print::end(rt)
}

// With the first `room` of the slots lent.
fn read_into(bytes: &[u8], room: usize, slots: &mut [u64]) -> Result<usize, Refusal>
    requires { room ≤ length slots.old }
{
    bench::read(bytes, &mut slots[0..room])
}

pub(crate) fn writes(rt: &impl Print) -> io::Result<()> {
    write(rt, &[300, 5], 0)?;
    write(rt, &[300, 5], 2)?;
    write(rt, &[300, 5], 3)?;
    write(rt, &[300, 5], 4)?;
    write(rt, &[], 0)?;
    write(rt, &[], 4)
}

fn write(rt: &impl Print, list: &[u64], room: usize) -> io::Result<()>
    requires { room ≤ 4 }
{
    let mut bytes = [BYTE_MARK; ALL];
    let answer = write_into(list, room, &mut bytes);
    print::text(rt, b"write")?;
    print::numbers(rt, list, SHOWN)?;
    print::text(rt, b" into")?;
    print::number(rt, room as u64)?;
    print::written(rt, answer)?;
    print::text(rt, b" bytes")?;
    print::bytes(rt, &bytes)?;
    print::end(rt)
}

// With the first `room` of the bytes lent.
fn write_into(list: &[u64], room: usize, bytes: &mut [u8]) -> Result<usize, Refusal>
    requires { room ≤ length bytes.old }
{
    bench::write(list, &mut bytes[0..room])
}

// Lists that are written and read back. One that takes more bytes than a bench file may have is written and not read.
pub(crate) fn round_trips(rt: &impl Print) -> io::Result<()> {
    round_trip(rt, &[0, 127, 128, u64::MAX])?;
    round_trip(rt, &[])?;
    round_trip(rt, &[0; TOO_MANY])?;
    round_trip(rt, &[u64::MAX; TOO_MANY_WIDE])
}

fn round_trip(rt: &impl Print, list: &[u64]) -> io::Result<()> {
    let mut bytes = [0u8; ROOM];
    let answer = bench::write(list, &mut bytes);
    print::text(rt, b"there")?;
    print::number(rt, list.len() as u64)?;
    print::numbers(rt, list, SHOWN)?;
    print::written(rt, answer)?;
    match answer {
        Ok(length) => read_back(rt, &bytes[0..length]),
        Err(_) => print::end(rt),
    }
}

fn read_back(rt: &impl Print, bytes: &[u8]) -> io::Result<()> {
    let mut slots = [0u64; ALL];
    let answer = bench::read(bytes, &mut slots);
    print::text(rt, b" back")?;
    print::read(rt, answer)?;
    if let Ok(count) = answer {
        print::numbers(rt, &slots, count)?;
    }
    print::end(rt)
}
