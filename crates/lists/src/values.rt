// Numbers that must fit a width or a type: values of keys, arguments, variables, fields.
ghost use Rattle.std.specs.Prelude.{Bool, ◌≡◌, ℕ, ◌^◌, ◌<◌, ◌≤◌};
ghost use Rattle.rules.specs.Words.{widest, fits_width};
ghost use Rattle.rules.specs.Form.{fits};
ghost use Rattle.rules.specs.Lists.{passing};
ghost use Rattle.shape.specs.Scans.{told, scan_of};
ghost use Rattle.program.specs.Codes.{ty_of};
ghost use Rattle.rules.specs.Answers.{number_of};
ghost use Rattle.lists.specs.Parts.{NumberAt};

use rules::{Fault, Reason};
use shape::Scanned;

// A bool is a number of one bit.
pub const BOOL: u64 = 1;

// The number at an index, with the fault that is given where it is missing.
pub fn number_at(nums: &[u64], reason: Reason, at: usize) -> Result<u64, Fault>
    ensures { NumberAt nums.now (number_of reason) at result }
{
    nums.get(at).copied().ok_or(Fault { reason, index: at })
}

// A number that passes a test, with the fault that is given where it does not or is missing.
pub fn passing_at<F: Fn(u64) -> bool>(nums: &[u64], reason: Reason, at: usize, passes: F) -> Scanned
    requires { F.IsAlwaysCallable passes }
    ensures { (test : ℕ → Bool) → ((n : ℕ) (b : Bool) → n < 2 ^ 64 → F.post passes n b → b ≡ test n) → told result ≡ scan_of (passing (number_of reason) test) nums.now at }
{
    let number = number_at(nums, reason, at)?;
    if passes(number) {
        Ok(at + 1)
    } else {
        Err(Fault { reason, index: at })
    }
}

// A number that fits a width.
pub fn value_at(nums: &[u64], reason: Reason, width: u64, at: usize) -> Scanned
    requires { width ≤ widest }
    ensures { told result ≡ scan_of (passing (number_of reason) (fits_width width)) nums.now at }
{
    passing_at(nums, reason, at, |n| words::widths::fits(width, n))
}

// A number that fits a type, written as in the program: 0 is bool, any other is bits of that width.
pub fn typed_at(nums: &[u64], reason: Reason, ty: u64, at: usize) -> Scanned
    requires { ty ≤ widest }
    ensures { told result ≡ scan_of (passing (number_of reason) (fits (ty_of ty))) nums.now at }
{
    if ty == 0 {
        value_at(nums, reason, BOOL, at)
    } else {
        value_at(nums, reason, ty, at)
    }
}
