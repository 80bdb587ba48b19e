// What stands in lists inside a part of a program: parameters, numerals, pairs; and the lists.
ghost use Rattle.std.specs.Prelude.{◌≡◌};
ghost use Rattle.std.proofs.Math.ListN.{get_elem?};
ghost use Rattle.rules.specs.Reading.{stands_for, directions, read_parameter, read_numeral, read_pair};
ghost use Rattle.shape.specs.Parts.{Repeats, Lists};
ghost use Rattle.shape.specs.Scans.{told, scan_of};

use super::Scanned;
use super::limits::LAST_DIRECTION;
use super::looks::{Number, any_number, number_in, two_numbers, type_at, value_in};

// A parameter's direction.
fn direction_at(nums: &[u64], version: u64, at: usize) -> Scanned
    ensures { told result ≡ scan_of (stands_for (get_elem? (directions version))) nums.now at }
{
    number_in(nums, 0, LAST_DIRECTION, at)
}

// A parameter: its direction and its type.
pub(crate) fn parameter_at(nums: &[u64], version: u64, at: usize) -> Scanned
    ensures { told result ≡ scan_of (read_parameter version) nums.now at }
{
    let next = direction_at(nums, version, at)?;
    type_at(nums, version, next)
}

// A number that stands for itself: an action, a position, a literal.
pub(crate) fn numeral_at(nums: &[u64], version: u64, at: usize) -> Scanned
    ensures { told result ≡ scan_of (read_numeral version) nums.now at }
{
    any_number(nums, at)
}

// A pair of a select: a value and a state's number.
pub(crate) fn pair_at(nums: &[u64], version: u64, at: usize) -> Scanned
    ensures { told result ≡ scan_of (read_pair version) nums.now at }
{
    two_numbers(nums, at)
}

// The end of so many items, one after the other.
fn items_at<F: Fn(usize) -> Scanned>(item: F, count: u64, at: usize) -> Scanned
    requires { F.IsAlwaysCallable item }
    ensures { Repeats (F.post item) count at (told result) }
{
    let mut next = at;
    for _ in 0..count {
        next = item(next)?;
    }
    Ok(next)
}

// The end of a list of `least` to `most` items: their count, then the items.
pub(crate) fn list_at<F: Fn(usize) -> Scanned>(
    nums: &[u64],
    least: u64,
    most: u64,
    at: usize,
    item: F,
) -> Scanned
    requires { F.IsAlwaysCallable item }
    ensures { Lists (F.post item) least most nums.now at (told result) }
{
    let Number { value, next } = value_in(nums, least, most, at)?;
    items_at(item, value, next)
}
