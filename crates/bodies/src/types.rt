// What an expression asks of its literals and of the types of its operands, and the type that it has then.
ghost use Rattle.std.specs.Prelude.{◌&&◌, ◌||◌, ◌≡◌};
ghost use Rattle.program.specs.Codes.{ty_of};
ghost use Rattle.bodies.specs.Leaves.{Tells, checked_ty, MostIf, IsWidth, bool_ty, bits_ty, SliceMost, slice_ty, AsksOne, OneTyped, join_ty, TwoMost, OperatorTyped, AsksTwo, TwoTyped};

use super::Typed;
use rules::{Fault, Reason};
use words::widths::{WIDEST, fits};

pub fn both(a: bool, b: bool) -> bool
    ensures { result ≡ (a && b) }
{
    if a { b } else { false }
}

pub fn either(a: bool, b: bool) -> bool
    ensures { result ≡ (a || b) }
{
    if a { true } else { b }
}

// A type where a rule holds, and 7 where it does not.
fn checked(at: usize, holds: bool, then: u64) -> Typed
    requires { MostIf holds then }
    ensures { Tells result (checked_ty at holds (ty_of then)) }
{
    if holds {
        Ok(then)
    } else {
        Err(Fault {
            reason: Reason::Type,
            index: at,
        })
    }
}

// A bool literal.
pub fn bool_type(at: usize, n: u64) -> Typed
    ensures { Tells result (bool_ty at n) }
{
    checked(at, n < 2, 0)
}

// A bits literal.
pub fn bits_type(at: usize, width: u64, n: u64) -> Typed
    requires { IsWidth width }
    ensures { Tells result (bits_ty at width n) }
{
    checked(at, fits(width, n), width)
}

// A slice of an operand.
fn slice_type(at: usize, high: u64, low: u64, t: u64) -> Typed
    requires { SliceMost high t }
    ensures { Tells result (slice_ty at high low (ty_of t)) }
{
    if low <= high {
        checked(at, high < t, high - low + 1)
    } else {
        Err(Fault {
            reason: Reason::Type,
            index: at,
        })
    }
}

// An expression of one operand: not takes a bool; complement, cast and slice take bits.
pub fn one_type(nums: &[u64], at: usize, t: u64) -> Typed
    requires { AsksOne nums.now at t }
    ensures { OneTyped nums.now at t result }
{
    let tag = nums[at];
    match tag {
        7 => checked(at, t == 0, 0),
        8 => checked(at, t != 0, t),
        10 => checked(at, t != 0, nums[at + 1]),
        _ => slice_type(at, nums[at + 1], nums[at + 2], t),
    }
}

// An operator, by its number, of two operands.
fn operator_type(at: usize, operator: u64, t: u64, u: u64) -> Typed
    requires { TwoMost t u }
    ensures { OperatorTyped at operator t u result }
{
    if operator < 6 {
        checked(at, both(t != 0, t == u), t)
    } else if operator < 8 {
        checked(at, both(t != 0, u != 0), t)
    } else if operator < 10 {
        checked(at, t == u, 0)
    } else if operator < 12 {
        checked(at, both(t != 0, t == u), 0)
    } else {
        checked(at, both(t == 0, u == 0), 0)
    }
}

// A concatenation of two operands.
fn join_type(at: usize, t: u64, u: u64) -> Typed
    requires { TwoMost t u }
    ensures { Tells result (join_ty at (ty_of t) (ty_of u)) }
{
    let bits = both(t != 0, u != 0);
    checked(at, both(bits, t + u <= WIDEST), t + u)
}

// An expression of two operands.
pub fn two_type(nums: &[u64], at: usize, t: u64, u: u64) -> Typed
    requires { AsksTwo nums.now at t u }
    ensures { TwoTyped nums.now at t u result }
{
    let tag = nums[at];
    if tag == 9 {
        operator_type(at, nums[at + 1], t, u)
    } else {
        join_type(at, t, u)
    }
}
