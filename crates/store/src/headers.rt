// A header in the store: its valid mark, and behind it its fields, which are 0 where the header is invalid.
ghost use Rattle.rules.specs.Running.{make_valid, make_invalid};
ghost use Rattle.store.specs.Changes.{AsksHeader, ReadsMark, ChangesHeader};

use super::STORE;
use super::fill::clear;
use shape::OFFSETS;

// The mark of a valid header.
pub const VALID: u64 = 1;

// Whether a header is valid: 1 or 0.
pub fn valid_mark(directory: &[u64; shape::SLOTS], slots: &[u64; STORE], g: usize) -> u64
    requires { AsksHeader directory.now slots.now g }
    ensures { ReadsMark directory.now slots.now g result }
{
    slots[directory[OFFSETS + g] as usize]
}

// A header is made valid: its fields stay, since those of an invalid one are 0 already.
pub fn set_valid(directory: &[u64; shape::SLOTS], g: usize, slots: &mut [u64; STORE])
    requires { AsksHeader directory.now slots.old g }
    ensures { ChangesHeader make_valid directory.now slots.old slots.new g }
{
    let mark = directory[OFFSETS + g] as usize;
    slots[mark] = VALID;
}

// A header is made invalid: its mark and its fields up to the next global's.
pub fn set_invalid(directory: &[u64; shape::SLOTS], g: usize, slots: &mut [u64; STORE])
    requires { AsksHeader directory.now slots.old g }
    ensures { ChangesHeader make_invalid directory.now slots.old slots.new g }
{
    clear(
        directory[OFFSETS + g] as usize,
        directory[OFFSETS + g + 1] as usize,
        slots,
    );
}
