// The entries: each names a table, has a pattern for each of its keys, and an action of its list with that action's
// arguments.
ghost use Rattle.std.specs.Prelude.{◌≤◌};
ghost use Rattle.rules.specs.Lists.{most_entries};
ghost use Rattle.lists.specs.Listing.{AsksLists};
ghost use Rattle.lists.specs.Parts.{AsksArguments, JudgesArguments, AsksCalled, JudgesCalled, AsksAction, JudgesAction, AsksTable, JudgesOfTable, JudgesEntry, JudgesEntries, JudgesEntryList};
ghost use Rattle.program.specs.In.{In};
ghost use Rattle.shape.specs.Scans.{told};

use super::patterns::patterns_at;
use super::values::{number_at, typed_at};
use program::{MOST_KEYS, Source, WIDTHS};
use rules::{Fault, Reason};
use shape::Scanned;

// The most entries.
const MOST_ENTRIES: u64 = 64;

// The arguments for so many parameters, the first of which stands at `parameter`.
fn arguments_at(nums: &[u64], parameter: usize, count: u64, at: usize) -> Scanned
    requires { AsksArguments nums.now parameter count }
    ensures { JudgesArguments nums.now parameter count at (told result) }
{
    let mut next = at;
    for i in 0..count as usize {
        let ty = nums[parameter + 2 * i + 1];
        next = typed_at(nums, Reason::Entries, ty, next)?;
    }
    Ok(next)
}

// The arguments of the callable with a number, behind the position at `at`, which is at fault where there is none.
fn called_at(source: &Source, f: u64, at: usize) -> Scanned
    requires { In AsksCalled source.now at }
    ensures { In JudgesCalled source.now f at (told result) }
{
    if f < source.directory[shape::CALLABLES] {
        let head = source.head_of(f as usize);
        arguments_at(source.nums, head.parameters, head.count, at + 1)
    } else {
        Err(Fault {
            reason: Reason::Entries,
            index: at,
        })
    }
}

// An action's position in the list whose count stands at `actions`, and its arguments.
fn action_at(source: &Source, actions: usize, at: usize) -> Scanned
    requires { In AsksAction source.now actions }
    ensures { In JudgesAction source.now actions at (told result) }
{
    let position = number_at(source.nums, Reason::Entries, at)?;
    if position < source.nums[actions] {
        called_at(source, source.nums[actions + 1 + position as usize], at)
    } else {
        Err(Fault {
            reason: Reason::Entries,
            index: at,
        })
    }
}

// An entry of a table, behind the table's number.
fn of_table_at(source: &Source, widths: &[u64; WIDTHS], t: usize, at: usize) -> Scanned
    requires { In AsksTable source.now widths.now t }
    ensures { In JudgesOfTable source.now widths.now t at (told result) }
{
    let parts = source.table_of(t);
    let table = parts.at;
    let next = patterns_at(
        source,
        widths,
        table + 1,
        source.nums[table],
        MOST_KEYS * t,
        at,
    )?;
    action_at(source, parts.actions, next)
}

// An entry.
fn entry_at(source: &Source, widths: &[u64; WIDTHS], at: usize) -> Scanned
    requires { In AsksLists source.now widths.now }
    ensures { In JudgesEntry source.now widths.now at (told result) }
{
    let t = number_at(source.nums, Reason::Entries, at)?;
    if t < source.directory[shape::TABLES] {
        of_table_at(source, widths, t as usize, at + 1)
    } else {
        Err(Fault {
            reason: Reason::Entries,
            index: at,
        })
    }
}

// So many entries. Where each begins goes into the slots behind the first.
fn entries_at(
    source: &Source,
    widths: &[u64; WIDTHS],
    count: u64,
    at: usize,
    entries: &mut [u64; super::ENTRIES],
) -> Scanned
    requires asks_lists { In AsksLists source.now widths.now }
    requires count_bound { count ≤ most_entries }
    ensures { In JudgesEntries source.now widths.now count at 1 entries.old entries.new (told result) }
{
    let mut next = at;
    for i in 0..count as usize {
        entries[i + 1] = next as u64;
        next = entry_at(source, widths, next)?;
    }
    Ok(next)
}

// The list of entries. Its count and where each begins go into the slots.
pub fn entry_list_at(
    source: &Source,
    widths: &[u64; WIDTHS],
    at: usize,
    entries: &mut [u64; super::ENTRIES],
) -> Scanned
    requires { In AsksLists source.now widths.now }
    ensures { In JudgesEntryList source.now widths.now at entries.old entries.new (told result) }
{
    let count = number_at(source.nums, Reason::Entries, at)?;
    if count <= MOST_ENTRIES {
        entries[0] = count;
        entries_at(source, widths, count, at + 1, entries)
    } else {
        Err(Fault {
            reason: Reason::Entries,
            index: at,
        })
    }
}
