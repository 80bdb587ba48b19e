// The packet: a header filled from its unread bytes. They are the last numbers of the file, from the index on that the
// slot POSITION holds.
ghost use Rattle.store.specs.Packets.{AsksBits, ReadsBits, AsksWidths, CountsBits, AsksFields, FillsFields, AsksExtract, Extracts};
ghost use Rattle.program.specs.In.{In};

use super::globals::header_type;
use super::headers::VALID;
use super::{POSITION, STORE};
use program::Source;
use shape::OFFSETS;

// The number that so many bits stand for, highest first: `first` is their place among the bits of the bytes from `from`
// on.
fn read_bits(nums: &[u64], from: usize, first: usize, width: usize) -> u64
    requires { AsksBits nums.now from first width }
    ensures { ReadsBits nums.now from first width result }
{
    let mut number = 0;
    for at in 0..width {
        let bit = first + at;
        let byte = nums[from + bit / 8];
        number = number * 2 + (byte >> (7 - bit % 8)) % 2;
    }
    number
}

// How many bits so many widths are in all.
fn count_bits(nums: &[u64], at: usize, count: usize) -> usize
    requires { AsksWidths nums.now at count }
    ensures { CountsBits nums.now at count result }
{
    let mut bits = 0;
    for &width in &nums[at..at + count] {
        bits += width as usize;
    }
    bits
}

// So many fields, whose widths stand from `at` on, take the bits of the bytes from `from` on, into slots one after the
// other.
fn fill_fields(
    nums: &[u64],
    at: usize,
    count: usize,
    from: usize,
    slot: usize,
    slots: &mut [u64; STORE],
)
    requires { AsksFields nums.now slots.old at count from slot }
    ensures { FillsFields nums.now slots.old slots.new at count from slot }
{
    let mut first = 0;
    for i in 0..count {
        let width = nums[at + i] as usize;
        slots[slot + i] = read_bits(nums, from, first, width);
        first += width;
    }
}

// A header is filled from the unread bytes and made valid, if there are enough of them; if not, nothing changes.
pub fn extract(source: &Source, g: usize, slots: &mut [u64; STORE]) -> bool
    requires { In AsksExtract source.now slots.old g }
    ensures { In Extracts source.now slots.old slots.new g result }
{
    let header = header_type(source, g);
    let widths = header + 1;
    let count = source.nums[header] as usize;
    let bytes = count_bits(source.nums, widths, count) / 8;
    let mark = source.directory[OFFSETS + g] as usize;
    let position = slots[POSITION] as usize;
    if source.nums.len() - position < bytes {
        false
    } else {
        slots[mark] = VALID;
        fill_fields(source.nums, widths, count, position, mark + 1, slots);
        slots[POSITION] = (position + bytes) as u64;
        true
    }
}
