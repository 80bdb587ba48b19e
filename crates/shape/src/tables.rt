// Tables: their keys, their actions, their default.
ghost use Rattle.std.specs.Prelude.{◌≡◌, ◌≤◌, length};
ghost use Rattle.std.proofs.Math.ListN.{get_elem?};
ghost use Rattle.rules.specs.Reading.{stands_for, repeat, list_of, key_kinds, read_key, read_table, most_keys};
ghost use Rattle.shape.specs.Walks.{Lays};
ghost use Rattle.shape.specs.Parts.{read_choices, lay_keys, lay_choices, read_default};
ghost use Rattle.shape.specs.Scans.{told, scan_of};
ghost use Rattle.shape.specs.Ends.{most_numbers, lay_key, lay_table};

use super::expressions::scan_expr;
use super::items::{list_at, numeral_at};
use super::limits::{DEEPEST, LAST_KEY_KIND, MOST_ACTIONS, MOST_ARGUMENTS, MOST_KEYS};
use super::looks::{Number, number_in, value_in};
use super::{NUMBERS, Scanned};

// A key's kind.
fn key_kind_at(nums: &[u64], version: u64, at: usize) -> Scanned
    ensures { told result ≡ scan_of (stands_for (get_elem? (key_kinds version))) nums.now at }
{
    number_in(nums, 0, LAST_KEY_KIND, at)
}

// A key: its kind and its expression.
fn key_at(nums: &[u64], version: u64, at: usize, ends: &mut [u64; NUMBERS]) -> Scanned
    requires { length nums.now ≤ most_numbers }
    ensures { Lays (read_key version) lay_key nums.now at ends.old ends.new (told result) }
{
    let next = key_kind_at(nums, version, at)?;
    scan_expr(nums, version, DEEPEST, next, ends)
}

// The end of so many keys, one after the other.
fn keys_at(nums: &[u64], version: u64, count: u64, at: usize, ends: &mut [u64; NUMBERS]) -> Scanned
    requires { length nums.now ≤ most_numbers }
    ensures { Lays (repeat count (read_key version)) lay_keys nums.now at ends.old ends.new (told result) }
{
    let mut next = at;
    for _ in 0..count {
        next = key_at(nums, version, next, ends)?;
    }
    Ok(next)
}

// The end of a list of keys.
fn key_list_at(nums: &[u64], version: u64, at: usize, ends: &mut [u64; NUMBERS]) -> Scanned
    requires { length nums.now ≤ most_numbers }
    ensures { Lays (list_of 1 most_keys (read_key version)) lay_keys nums.now at ends.old ends.new (told result) }
{
    let Number { value, next } = value_in(nums, 1, MOST_KEYS, at)?;
    keys_at(nums, version, value, next, ends)
}

// A table's keys and actions.
fn choices_at(nums: &[u64], version: u64, at: usize, ends: &mut [u64; NUMBERS]) -> Scanned
    requires { length nums.now ≤ most_numbers }
    ensures { Lays (read_choices version) lay_choices nums.now at ends.old ends.new (told result) }
{
    let next = key_list_at(nums, version, at, ends)?;
    list_at(
        nums,
        1,
        MOST_ACTIONS,
        next,
        |at| numeral_at(nums, version, at),
    )
}

// A table's default: its position, and its arguments.
fn default_at(nums: &[u64], version: u64, at: usize) -> Scanned
    ensures { told result ≡ scan_of (read_default version) nums.now at }
{
    let next = numeral_at(nums, version, at)?;
    list_at(
        nums,
        0,
        MOST_ARGUMENTS,
        next,
        |at| numeral_at(nums, version, at),
    )
}

// A table: its keys and actions, its default.
pub(crate) fn table_at(nums: &[u64], version: u64, at: usize, ends: &mut [u64; NUMBERS]) -> Scanned
    requires { length nums.now ≤ most_numbers }
    ensures { Lays (read_table version) lay_table nums.now at ends.old ends.new (told result) }
{
    let next = choices_at(nums, version, at, ends)?;
    default_at(nums, version, next)
}
