// The parser's states: a statement and a transition each.
ghost use Rattle.std.specs.Prelude.{◌≤◌, length};
ghost use Rattle.rules.specs.Reading.{read_transition, read_state};
ghost use Rattle.shape.specs.Walks.{Lays};
ghost use Rattle.shape.specs.Parts.{read_select, lay_select};
ghost use Rattle.shape.specs.Ends.{most_numbers, lay_transition, lay_state};
ghost use Rattle.shape.specs.Scans.{told};

use super::expressions::scan_expr;
use super::items::{list_at, numeral_at, pair_at};
use super::limits::{DEEPEST, LAST_TRANSITION, MOST_ERROR, MOST_PAIRS};
use super::looks::{Number, number_in, value_in};
use super::statements::scan_stmt;
use super::{NUMBERS, Scanned};

// A select behind its tag: its expression, whose end goes into `ends`, and its pairs.
fn select_at(nums: &[u64], version: u64, at: usize, ends: &mut [u64; NUMBERS]) -> Scanned
    requires { length nums.now ≤ most_numbers }
    ensures { Lays (read_select version) lay_select nums.now at ends.old ends.new (told result) }
{
    let next = scan_expr(nums, version, DEEPEST, at, ends)?;
    list_at(nums, 0, MOST_PAIRS, next, |at| pair_at(nums, version, at))
}

// A transition: its tag, and what stands behind it.
fn transition_at(nums: &[u64], version: u64, at: usize, ends: &mut [u64; NUMBERS]) -> Scanned
    requires { length nums.now ≤ most_numbers }
    ensures { Lays (read_transition version) lay_transition nums.now at ends.old ends.new (told result) }
{
    let Number { value, next } = value_in(nums, 0, LAST_TRANSITION, at)?;
    match value {
        2 => number_in(nums, 0, MOST_ERROR, next),
        3 => numeral_at(nums, version, next),
        4 => select_at(nums, version, next, ends),
        _ => Ok(next),
    }
}

// A state: its statement and its transition.
pub(crate) fn state_at(nums: &[u64], version: u64, at: usize, ends: &mut [u64; NUMBERS]) -> Scanned
    requires { length nums.now ≤ most_numbers }
    ensures { Lays (read_state version) lay_state nums.now at ends.old ends.new (told result) }
{
    let next = scan_stmt(nums, version, DEEPEST, at, ends)?;
    transition_at(nums, version, next, ends)
}
