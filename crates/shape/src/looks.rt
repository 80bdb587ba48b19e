// Looks at one number or two: whether it is there, and within its range.
ghost use Rattle.std.specs.Prelude.{◌≡◌, ℕ};
ghost use Rattle.rules.specs.Words.{widest};
ghost use Rattle.rules.specs.Reading.{number, between, stands_for, repeat, too_deep, type_of};
ghost use Rattle.shape.specs.Scans.{told, scan_of};
ghost use Rattle.shape.specs.Leads.{told_value, value_of};

use super::Scanned;
use super::limits::WIDEST;
use rules::{Fault, Reason};

// A number's value, and the index after it.
#[derive(Clone, Copy)]
pub(crate) struct Number {
    pub value: u64,
    pub next: usize,
}

// A number of any value.
pub(crate) fn any_number(nums: &[u64], at: usize) -> Scanned
    ensures { told result ≡ scan_of number nums.now at }
{
    if at < nums.len() {
        Ok(at + 1)
    } else {
        Err(Fault {
            reason: Reason::Unlisted,
            index: at,
        })
    }
}

// A number from `least` to `most`, with its value.
pub(crate) fn value_in(nums: &[u64], least: u64, most: u64, at: usize) -> Result<Number, Fault>
    ensures { told_value result ≡ value_of least most nums.now at }
{
    if at < nums.len() {
        let n = nums[at];
        if n < least {
            Err(Fault {
                reason: Reason::Unlisted,
                index: at,
            })
        } else if most < n {
            Err(Fault {
                reason: Reason::Unlisted,
                index: at,
            })
        } else {
            Ok(Number {
                value: n,
                next: at + 1,
            })
        }
    } else {
        Err(Fault {
            reason: Reason::Unlisted,
            index: at,
        })
    }
}

// A number from `least` to `most`.
pub(crate) fn number_in(nums: &[u64], least: u64, most: u64, at: usize) -> Scanned
    ensures { told result ≡ scan_of (between least most) nums.now at }
{
    let Number { next, .. } = value_in(nums, least, most, at)?;
    Ok(next)
}

// Two numbers of any value.
pub(crate) fn two_numbers(nums: &[u64], at: usize) -> Scanned
    ensures { told result ≡ scan_of (repeat 2 number) nums.now at }
{
    let next = any_number(nums, at)?;
    any_number(nums, next)
}

// A width.
pub(crate) fn width_at(nums: &[u64], at: usize) -> Scanned
    ensures { told result ≡ scan_of (between 1 widest) nums.now at }
{
    number_in(nums, 1, WIDEST, at)
}

// A type of a value.
pub(crate) fn type_at(nums: &[u64], version: u64, at: usize) -> Scanned
    ensures { told result ≡ scan_of (stands_for (type_of version)) nums.now at }
{
    number_in(nums, 0, WIDEST, at)
}

// A tag where no further level is allowed.
pub(crate) fn too_deep(nums: &[u64], at: usize) -> Scanned
    ensures { told result ≡ scan_of (too_deep {A = ℕ}) nums.now at }
{
    if at < nums.len() {
        Err(Fault {
            reason: Reason::TooDeep,
            index: at,
        })
    } else {
        Err(Fault {
            reason: Reason::Unlisted,
            index: at,
        })
    }
}
