// What an entry asks of the keys of its table: a value for each, and behind it the prefix length of an lpm key or the
// mask of a ternary one, to which a bit outside is charged.
ghost use Rattle.std.specs.Prelude.{◌≡◌, ◌≤◌};
ghost use Rattle.rules.specs.Words.{widest, prefix_fits, mask_fits};
ghost use Rattle.rules.specs.Lists.{passing};
ghost use Rattle.shape.specs.Scans.{told, scan_of};
ghost use Rattle.lists.specs.Parts.{JudgesLimit, JudgesPattern, AsksPatterns, JudgesPatterns};

use super::values::{passing_at, value_at};
use program::{EXACT, LPM, Source, WIDTHS};
use rules::Reason;
use shape::Scanned;

// A prefix length within the width, outside which the value is 0.
fn prefix_at(nums: &[u64], width: u64, value: u64, at: usize) -> Scanned
    requires { width ≤ widest }
    ensures { told result ≡ scan_of (passing 10 (prefix_fits width value)) nums.now at }
{
    passing_at(nums, Reason::Entries, at, |prefix| {
        words::keys::prefix_fits(width, value, prefix)
    })
}

// A mask that fits the width, outside which the value is 0.
fn mask_at(nums: &[u64], width: u64, value: u64, at: usize) -> Scanned
    requires { width ≤ widest }
    ensures { told result ≡ scan_of (passing 10 (mask_fits width value)) nums.now at }
{
    passing_at(nums, Reason::Entries, at, |mask| {
        words::keys::mask_fits(width, value, mask)
    })
}

// What stands behind the value of a key of a kind: one that is neither exact nor lpm is ternary.
fn limit_at(nums: &[u64], kind: u64, width: u64, value: u64, at: usize) -> Scanned
    requires { width ≤ widest }
    ensures { JudgesLimit nums.now kind width value at (told result) }
{
    if kind == EXACT {
        Ok(at)
    } else if kind == LPM {
        prefix_at(nums, width, value, at)
    } else {
        mask_at(nums, width, value, at)
    }
}

// What an entry asks of a key of a kind and a width.
fn pattern_at(nums: &[u64], kind: u64, width: u64, at: usize) -> Scanned
    requires { width ≤ widest }
    ensures { JudgesPattern nums.now kind width at (told result) }
{
    let next = value_at(nums, Reason::Entries, width, at)?;
    limit_at(nums, kind, width, nums[at], next)
}

// What an entry asks of so many keys, the first of which stands at `key`; their widths stand from `slot` on.
#[tactic(auto, using(crate::proofs::Keys::keys))]
pub fn patterns_at(
    source: &Source,
    widths: &[u64; WIDTHS],
    key: usize,
    count: u64,
    slot: usize,
    at: usize,
) -> Scanned
    requires { AsksPatterns source.now.nums.now source.now.ends.now widths.now key count slot }
    ensures { JudgesPatterns source.now.nums.now source.now.ends.now widths.now key count slot at (told result) }
{
    let mut next = at;
    let mut here = key;
    for i in 0..count as usize {
        next = pattern_at(source.nums, source.nums[here], widths[slot + i], next)?;
        here = source.ends[here + 1] as usize;
    }
    Ok(next)
}
