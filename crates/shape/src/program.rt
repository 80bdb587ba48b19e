// A program: its version, its parts one after the other, and where each of them begins.
ghost use Rattle.std.specs.Prelude.{◌+◌, ◌<◌, ◌≤◌, length};
ghost use Rattle.rules.specs.Reading.{deepest, read_stmt, read_states, read_after_version, read_program};
ghost use Rattle.shape.specs.Walks.{Lays, read_declared, lay_declared, read_defined, lay_defined, lay_states, lay_body, read_blocks, lay_blocks, Walks, WalksList, no_ends, ends_defined, ends_blocks};
ghost use Rattle.shape.specs.Directory.{directory_of, slot_count};
ghost use Rattle.shape.specs.Ends.{most_numbers, lay_stmt, lay_all, state_at, lay_state, ends_of};
ghost use Rattle.shape.specs.Scans.{told};

use super::callables::callable_at;
use super::declarations::{global_at, header_at};
use super::limits::{
    DEEPEST, LATEST, MOST_CALLABLES, MOST_GLOBALS, MOST_HEADERS, MOST_STATES, MOST_TABLES,
    has_parser,
};
use super::looks::{Number, value_in};
use super::statements::scan_stmt;
use super::states::state_at;
use super::tables::table_at;
use super::{BODY, CALLABLES, END, GLOBALS, HEADERS, NUMBERS, SLOTS, STATES, Scanned, TABLES};

// The end of so many parts, one after the other. Where each begins goes into the directory, from `slot` on.
fn parts_at<F: Fn(usize, &mut [u64; NUMBERS]) -> Scanned>(
    count: u64,
    at: usize,
    slot: usize,
    directory: &mut [u64; SLOTS],
    ends: &mut [u64; NUMBERS],
    part: F,
) -> Scanned
    requires room { slot + count ≤ slot_count }
    requires callable { F.IsAlwaysCallable part }
    ensures { Walks (F.post part) count at slot directory.old directory.new ends.old ends.new (told result) }
{
    let mut next = at;
    for entry in slot..slot + count as usize {
        directory[entry] = next as u64;
        next = part(next, ends)?;
    }
    Ok(next)
}

// The end of a list of `least` to `most` parts. Its count and where each begins go into the directory, from `slot` on.
fn part_list_at<F: Fn(usize, &mut [u64; NUMBERS]) -> Scanned>(
    nums: &[u64],
    least: u64,
    most: u64,
    at: usize,
    slot: usize,
    directory: &mut [u64; SLOTS],
    ends: &mut [u64; NUMBERS],
    part: F,
) -> Scanned
    requires room { slot + most < slot_count }
    requires callable { F.IsAlwaysCallable part }
    ensures { WalksList (F.post part) least most nums.now at slot directory.old directory.new ends.old ends.new (told result) }
{
    let Number { value, next } = value_in(nums, least, most, at)?;
    directory[slot] = value;
    parts_at(value, next, slot + 1, directory, ends, part)
}

// The header types and the globals.
fn declared_at(
    nums: &[u64],
    version: u64,
    at: usize,
    directory: &mut [u64; SLOTS],
    ends: &mut [u64; NUMBERS],
) -> Scanned
    requires { length nums.now ≤ most_numbers }
    ensures lays_directory { Lays (read_declared version) lay_declared nums.now at directory.old directory.new (told result) }
    ensures lays_ends { Lays (read_declared version) no_ends nums.now at ends.old ends.new (told result) }
{
    let next = part_list_at(
        nums,
        0,
        MOST_HEADERS,
        at,
        HEADERS,
        directory,
        ends,
        |at, _| header_at(nums, version, at),
    )?;
    part_list_at(
        nums,
        0,
        MOST_GLOBALS,
        next,
        GLOBALS,
        directory,
        ends,
        |at, _| global_at(nums, version, at),
    )
}

// The callables and the tables.
fn defined_at(
    nums: &[u64],
    version: u64,
    at: usize,
    directory: &mut [u64; SLOTS],
    ends: &mut [u64; NUMBERS],
) -> Scanned
    requires { length nums.now ≤ most_numbers }
    ensures lays_directory { Lays (read_defined version) lay_defined nums.now at directory.old directory.new (told result) }
    ensures lays_ends { Lays (read_defined version) ends_defined nums.now at ends.old ends.new (told result) }
{
    let next = part_list_at(
        nums,
        0,
        MOST_CALLABLES,
        at,
        CALLABLES,
        directory,
        ends,
        |at, ends| callable_at(nums, version, at, ends),
    )?;
    part_list_at(
        nums,
        0,
        MOST_TABLES,
        next,
        TABLES,
        directory,
        ends,
        |at, ends| table_at(nums, version, at, ends),
    )
}

// The parser's states, where the version has a parser.
fn states_at(
    nums: &[u64],
    version: u64,
    at: usize,
    directory: &mut [u64; SLOTS],
    ends: &mut [u64; NUMBERS],
) -> Scanned
    requires { length nums.now ≤ most_numbers }
    ensures lays_directory { Lays (read_states version) lay_states nums.now at directory.old directory.new (told result) }
    ensures lays_ends { Lays (read_states version) (lay_all state_at lay_state) nums.now at ends.old ends.new (told result) }
{
    if has_parser(version) {
        part_list_at(
            nums,
            1,
            MOST_STATES,
            at,
            STATES,
            directory,
            ends,
            |at, ends| state_at(nums, version, at, ends),
        )
    } else {
        directory[STATES] = 0;
        Ok(at)
    }
}

// The apply body, and the program's end.
fn body_at(
    nums: &[u64],
    version: u64,
    at: usize,
    directory: &mut [u64; SLOTS],
    ends: &mut [u64; NUMBERS],
) -> Scanned
    requires { length nums.now ≤ most_numbers }
    ensures lays_directory { Lays (read_stmt version deepest) lay_body nums.now at directory.old directory.new (told result) }
    ensures lays_ends { Lays (read_stmt version deepest) lay_stmt nums.now at ends.old ends.new (told result) }
{
    let end = scan_stmt(nums, version, DEEPEST, at, ends)?;
    directory[BODY] = at as u64;
    directory[END] = end as u64;
    Ok(end)
}

// The parser's states and the apply body.
fn blocks_at(
    nums: &[u64],
    version: u64,
    at: usize,
    directory: &mut [u64; SLOTS],
    ends: &mut [u64; NUMBERS],
) -> Scanned
    requires { length nums.now ≤ most_numbers }
    ensures lays_directory { Lays (read_blocks version) lay_blocks nums.now at directory.old directory.new (told result) }
    ensures lays_ends { Lays (read_blocks version) ends_blocks nums.now at ends.old ends.new (told result) }
{
    let next = states_at(nums, version, at, directory, ends)?;
    body_at(nums, version, next, directory, ends)
}

// What follows the version.
fn after_version(
    nums: &[u64],
    version: u64,
    at: usize,
    directory: &mut [u64; SLOTS],
    ends: &mut [u64; NUMBERS],
) -> Scanned
    requires { length nums.now ≤ most_numbers }
    ensures lays_directory { Lays (read_after_version version) directory_of nums.now at directory.old directory.new (told result) }
    ensures lays_ends { Lays (read_after_version version) ends_of nums.now at ends.old ends.new (told result) }
{
    let next = declared_at(nums, version, at, directory, ends)?;
    let after = defined_at(nums, version, next, directory, ends)?;
    blocks_at(nums, version, after, directory, ends)
}

// A program, from the first number on.
pub(crate) fn program_at(
    nums: &[u64],
    directory: &mut [u64; SLOTS],
    ends: &mut [u64; NUMBERS],
) -> Scanned
    requires { length nums.now ≤ most_numbers }
    ensures lays_directory { Lays read_program directory_of nums.now 0 directory.old directory.new (told result) }
    ensures lays_ends { Lays read_program ends_of nums.now 0 ends.old ends.new (told result) }
{
    let Number { value, next } = value_in(nums, 1, LATEST, 0)?;
    after_version(nums, value, next, directory, ends)
}
