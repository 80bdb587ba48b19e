// Header types and globals.
ghost use Rattle.std.specs.Prelude.{◌≡◌};
ghost use Rattle.rules.specs.Reading.{read_header, read_global};
ghost use Rattle.shape.specs.Scans.{told, scan_of};

use super::Scanned;
use super::items::list_at;
use super::limits::{FIRST_HEADER_TYPE, LAST_HEADER_TYPE, MOST_FIELDS, WIDEST};
use super::looks::{number_in, width_at};

// A header type: its fields' widths.
pub(crate) fn header_at(nums: &[u64], version: u64, at: usize) -> Scanned
    ensures { told result ≡ scan_of (read_header version) nums.now at }
{
    list_at(nums, 1, MOST_FIELDS, at, |at| width_at(nums, at))
}

// A global: the type of a value, or a header type's number.
pub(crate) fn global_at(nums: &[u64], version: u64, at: usize) -> Scanned
    ensures { told result ≡ scan_of (read_global version) nums.now at }
{
    number_in(nums, 0, WIDEST, at).or_else(|_| number_in(
        nums,
        FIRST_HEADER_TYPE,
        LAST_HEADER_TYPE,
        at,
    ))
}
