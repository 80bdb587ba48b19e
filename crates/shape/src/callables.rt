// Callables: their kind and return type, their parameters and locals, their body.
ghost use Rattle.std.specs.Prelude.{◌≡◌, ◌≤◌, length};
ghost use Rattle.rules.specs.Reading.{read_callable};
ghost use Rattle.shape.specs.Walks.{Lays};
ghost use Rattle.shape.specs.Parts.{read_returning, read_frame};
ghost use Rattle.shape.specs.Scans.{told, scan_of};
ghost use Rattle.shape.specs.Ends.{most_numbers, lay_callable};

use super::items::{list_at, parameter_at};
use super::limits::{DEEPEST, LAST_CALLABLE_KIND, MOST_LOCALS, MOST_PARAMETERS};
use super::looks::{Number, type_at, value_in};
use super::statements::scan_stmt;
use super::{NUMBERS, Scanned};

// A callable up to its parameters: its kind and, of a function, its return type.
fn returning_at(nums: &[u64], version: u64, at: usize) -> Scanned
    ensures { told result ≡ scan_of (read_returning version) nums.now at }
{
    let Number { value, next } = value_in(nums, 0, LAST_CALLABLE_KIND, at)?;
    if value == 0 {
        Ok(next)
    } else {
        type_at(nums, version, next)
    }
}

// A callable's parameters and locals.
fn frame_at(nums: &[u64], version: u64, at: usize) -> Scanned
    ensures { told result ≡ scan_of (read_frame version) nums.now at }
{
    let next = list_at(
        nums,
        0,
        MOST_PARAMETERS,
        at,
        |at| parameter_at(nums, version, at),
    )?;
    list_at(nums, 0, MOST_LOCALS, next, |at| type_at(nums, version, at))
}

// A callable: its head, its parameters and locals, its body.
pub(crate) fn callable_at(
    nums: &[u64],
    version: u64,
    at: usize,
    ends: &mut [u64; NUMBERS],
) -> Scanned
    requires { length nums.now ≤ most_numbers }
    ensures { Lays (read_callable version) lay_callable nums.now at ends.old ends.new (told result) }
{
    let next = returning_at(nums, version, at)?;
    let body = frame_at(nums, version, next)?;
    scan_stmt(nums, version, DEEPEST, body, ends)
}
