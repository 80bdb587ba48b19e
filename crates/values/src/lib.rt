// What the runner does with values once operands are worked out: operators, casts, slices, concatenations. Each answer
// is the rules' own, and fits its type.
#![tactic(auto)]

ghost use Rattle.std.proofs.Math.Option.{some};
ghost use Rattle.rules.specs.Running.{truth, not_on, complement_on, cast_on, slice_on, concatenation_on};
ghost use Rattle.values.specs.Claims.{value_of, Gives, AsksOne, AsksCast, AsksTwo, AsksBinary, GivesBinary, Made};

use words::arithmetic::{difference, product, sum};
use words::bits::{and_bits, complement, or_bits, shift_left, shift_right, xor_bits};
use words::order::{equal, less, less_or_equal};
use words::parts::{cast, join, slice};

// The type of truths.
const BOOL: u64 = 0;

// The operators, by their numbers. The last is less or equal, 11.
const PLUS: u64 = 0;

const MINUS: u64 = 1;

const TIMES: u64 = 2;

const AND: u64 = 3;

const OR: u64 = 4;

const XOR: u64 = 5;

const SHIFT_LEFT: u64 = 6;

const SHIFT_RIGHT: u64 = 7;

const EQUAL: u64 = 8;

const UNEQUAL: u64 = 9;

const LESS: u64 = 10;

// A number of a type, the type written as in the program: 0 is bool, any other is bits of that width.
#[derive(Clone, Copy)]
pub struct Value {
    pub ty: u64,
    pub number: u64,
}

// A value of two numbers.
fn typed(ty: u64, number: u64) -> Value
    ensures { Made ty number result.ty result.number }
{
    Value { ty, number }
}

// A truth as a value.
fn truth(holds: bool) -> Value
    ensures { Gives (some (truth holds)) result.ty result.number }
{
    if holds {
        typed(BOOL, 1)
    } else {
        typed(BOOL, 0)
    }
}

// An operator, by its number, on two values: any but both and either, which stop early.
pub fn binary(operator: u64, a: Value, b: Value) -> Value
    requires { AsksBinary operator a.ty a.number b.ty b.number }
    ensures { GivesBinary operator a.ty a.number b.ty b.number result.ty result.number }
{
    match operator {
        PLUS => typed(a.ty, sum(a.ty, a.number, b.number)),
        MINUS => typed(a.ty, difference(a.ty, a.number, b.number)),
        TIMES => typed(a.ty, product(a.ty, a.number, b.number)),
        AND => typed(a.ty, and_bits(a.number, b.number)),
        OR => typed(a.ty, or_bits(a.number, b.number)),
        XOR => typed(a.ty, xor_bits(a.number, b.number)),
        SHIFT_LEFT => typed(a.ty, shift_left(a.ty, a.number, b.number)),
        SHIFT_RIGHT => typed(a.ty, shift_right(a.ty, a.number, b.number)),
        EQUAL => truth(equal(a.number, b.number)),
        UNEQUAL => truth(!equal(a.number, b.number)),
        LESS => truth(less(a.number, b.number)),
        _ => truth(less_or_equal(a.number, b.number)),
    }
}

// Not: of a bool.
pub fn negated(a: Value) -> Value
    requires { AsksOne not_on a.ty a.number }
    ensures { Gives (not_on (value_of a.ty a.number)) result.ty result.number }
{
    typed(BOOL, 1 - a.number)
}

// Each bit turned over.
pub fn complemented(a: Value) -> Value
    requires { AsksOne complement_on a.ty a.number }
    ensures { Gives (complement_on (value_of a.ty a.number)) result.ty result.number }
{
    typed(a.ty, complement(a.ty, a.number))
}

// A value at another width.
pub fn cast_to(width: u64, a: Value) -> Value
    requires { AsksCast width a.ty a.number }
    ensures { Gives (cast_on width (value_of a.ty a.number)) result.ty result.number }
{
    typed(width, cast(width, a.number))
}

// The bits from `high` down to `low`.
pub fn sliced(high: u64, low: u64, a: Value) -> Value
    requires { AsksOne (slice_on high low) a.ty a.number }
    ensures { Gives (slice_on high low (value_of a.ty a.number)) result.ty result.number }
{
    typed(high - low + 1, slice(high, low, a.number))
}

// `a` in front of `b`.
pub fn joined(a: Value, b: Value) -> Value
    requires { AsksTwo concatenation_on a.ty a.number b.ty b.number }
    ensures { Gives (concatenation_on (value_of a.ty a.number) (value_of b.ty b.number)) result.ty result.number }
{
    typed(a.ty + b.ty, join(b.ty, a.number, b.number))
}
