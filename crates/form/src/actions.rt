// The actions of a table and its default: that there are such callables, that the default's literals fit its parameters,
// and that a table may list them.
ghost use Rattle.std.specs.Prelude.{◌≡◌, ◌≤◌};
ghost use Rattle.rules.specs.Words.{widest};
ghost use Rattle.rules.specs.Form.{fits};
ghost use Rattle.program.specs.Codes.{ty_of};
ghost use Rattle.form.specs.Parts.{AsksExist, JudgesExist, AsksGiven, GivesAll, AsksListed, JudgesListed, AsksLiterals, JudgesLiterals};
ghost use Rattle.program.specs.In.{In};

use super::{Formal, rule};
use bodies::types::both;
use program::{Kind, Source};
use rules::Reason;

// The direction of a parameter that a table gives.
const NO_DIRECTION: u64 = 0;

// So many numbers each name a callable.
pub fn actions_exist(source: &Source, at: usize, count: u64) -> Formal
    requires { AsksExist source.now.nums.now at count }
    ensures { JudgesExist source.now.nums.now source.now.directory.now at count result }
{
    for action in at..at + count as usize {
        rule(
            Reason::Unnamed,
            action,
            source.nums[action] < source.directory[shape::CALLABLES],
        )?;
    }
    Ok(())
}

// A table gives each of so many parameters.
fn gives_all(nums: &[u64], at: usize, count: u64) -> bool
    requires { AsksGiven nums.now at count }
    ensures { GivesAll nums.now at count result }
{
    for i in 0..count as usize {
        if nums[at + 2 * i] != NO_DIRECTION {
            return false;
        }
    }
    true
}

// So many numbers each name an action that a table may list.
pub fn judge_listed(source: &Source, at: usize, count: u64) -> Formal
    requires { In AsksListed source.now at count }
    ensures { In JudgesListed source.now at count result }
{
    for action in at..at + count as usize {
        let head = source.head_of(source.nums[action] as usize);
        let given = gives_all(source.nums, head.parameters, head.count);
        let is_action = Kind::numbered(head.kind) == Kind::Action;
        rule(Reason::Form, action, both(is_action, given))?;
    }
    Ok(())
}

// A number fits a type, written as in the program: 0 is bool, any other is bits of that width.
fn fits_type(ty: u64, n: u64) -> bool
    requires { ty ≤ widest }
    ensures { result ≡ fits (ty_of ty) n }
{
    if ty == 0 {
        n < 2
    } else {
        words::widths::fits(ty, n)
    }
}

// So many literals each fit their parameter.
pub fn literals_fit(nums: &[u64], parameter: usize, at: usize, count: u64) -> Formal
    requires { AsksLiterals nums.now parameter at count }
    ensures { JudgesLiterals nums.now parameter at count result }
{
    for i in 0..count as usize {
        let literal = at + i;
        let ty = nums[parameter + 2 * i + 1];
        rule(Reason::Type, literal, fits_type(ty, nums[literal]))?;
    }
    Ok(())
}
