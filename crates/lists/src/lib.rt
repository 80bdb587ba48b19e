// The lists behind a program: refusals 10, 11, 16 and 12 over the list of numbers. Entries, store, packet and what is
// left over are looked at strictly in file order, and each number a fixed number of times, so the time is linear in
// their count.
#![tactic(auto)]

ghost use Rattle.lists.specs.Listing.{AsksLists, JudgesLists};
ghost use Rattle.program.specs.In.{In};

mod entries;
mod packet;
mod patterns;
mod store;
mod values;

use entries::entry_list_at;
use packet::last_at;
use program::{Source, WIDTHS};
use rules::Fault;
use store::cells_at;

// How many slots the entries have: their count, and one for each entry that a file may have.
pub const ENTRIES: usize = 65;
// How many slots the offsets have: one for each global that a program may have, and one for the store's length.
pub const OFFSETS: usize = 33;

// Where the store begins and how many numbers it has.
#[derive(Clone, Copy)]
pub struct Lists {
    pub store: usize,
    pub length: usize,
}

// The entries, the store and the packet behind the program, whose keys' widths are given. The count of entries and where
// each begins go into `entries`, and how many numbers of the store stand before each global, and in all, into `offsets`.
// A fault leaves both as found.
pub fn judge_lists(
    source: &Source,
    widths: &[u64; WIDTHS],
    entries: &mut [u64; ENTRIES],
    offsets: &mut [u64; OFFSETS],
) -> Result<Lists, Fault>
    requires { In AsksLists source.now widths.now }
    ensures { In JudgesLists source.now widths.now entries.old entries.new offsets.old offsets.new result }
{
    let mut starts = *entries;
    let end = source.directory[shape::END] as usize;
    let store = entry_list_at(source, widths, end, &mut starts)?;
    let mut slots = *offsets;
    let globals = source.directory[shape::GLOBALS];
    let next = cells_at(source, globals, store, &mut slots)?;
    last_at(source.nums, next)?;
    *entries = starts;
    *offsets = slots;
    Ok(Lists {
        store,
        length: next - store,
    })
}
