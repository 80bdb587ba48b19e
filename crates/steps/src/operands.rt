// What an expression does with the values of its operands, and expressions that have none.
ghost use Rattle.steps.specs.Outcomes.{AsksCount, Counts};
ghost use Rattle.steps.specs.Operands.{AsksLeaf, GivesLeaf, AsksOneOn, GivesOne, AsksStop, TellsStop, AsksTwoOn, GivesTwo};
ghost use Rattle.program.specs.In.{In};

use program::{Scope, Source};
use store::headers::valid_mark;
use store::{COUNTER, STORE, read_place};
use values::Value;

// The tags of expressions.
const BOOL_LITERAL: u64 = 0;

const BITS_LITERAL: u64 = 1;

const VALID: u64 = 6;

pub const NOT: u64 = 7;

pub const COMPLEMENT: u64 = 8;

pub const BINARY: u64 = 9;

pub const CAST: u64 = 10;

pub const SLICE: u64 = 11;

pub const CONCATENATION: u64 = 12;

pub const CALL: u64 = 13;

// The operators that stop early.
const BOTH: u64 = 12;

const EITHER: u64 = 13;

// A step is counted: its construct begins.
pub fn count_step(slots: &mut [u64; STORE])
    requires { AsksCount slots.old }
    ensures { Counts slots.old slots.new }
{
    slots[COUNTER] += 1;
}

// A literal, a place, or whether a header is valid.
pub fn leaf(source: &Source, scope: &Scope, at: usize, slots: &[u64; STORE], frame: &[u64]) -> Value
    requires { In AsksLeaf source.now scope.now slots.now frame.now at }
    ensures { In GivesLeaf source.now scope.now slots.now frame.now at result.ty result.number }
{
    let tag = source.nums[at];
    match tag {
        BOOL_LITERAL => Value {
            ty: 0,
            number: source.nums[at + 1],
        },
        BITS_LITERAL => Value {
            ty: source.nums[at + 1],
            number: source.nums[at + 2],
        },
        VALID => Value {
            ty: 0,
            number: valid_mark(source.directory, slots, source.nums[at + 1] as usize),
        },
        _ => read_place(source, scope, slots, frame, at),
    }
}

// What an expression with one operand makes of it.
pub fn one(nums: &[u64], at: usize, a: Value) -> Value
    requires { AsksOneOn nums.now at a.ty a.number }
    ensures { GivesOne nums.now at a.ty a.number result.ty result.number }
{
    let tag = nums[at];
    match tag {
        NOT => values::negated(a),
        COMPLEMENT => values::complemented(a),
        CAST => values::cast_to(nums[at + 1], a),
        _ => values::sliced(nums[at + 1], nums[at + 2], a),
    }
}

// Whether an expression with two operands is settled by the first: both by false, either by true.
pub fn stops_early(nums: &[u64], at: usize, a: Value) -> bool
    requires { AsksStop nums.now at }
    ensures { TellsStop nums.now at a.ty a.number result }
{
    if nums[at] == BINARY {
        let operator = nums[at + 1];
        if a.number == 0 {
            operator == BOTH
        } else {
            operator == EITHER
        }
    } else {
        false
    }
}

// What an expression with two operands makes of them, where the first does not settle it.
pub fn two(nums: &[u64], at: usize, a: Value, b: Value) -> Value
    requires { AsksTwoOn nums.now at a.ty a.number b.ty b.number }
    ensures { GivesTwo nums.now at a.ty a.number b.ty b.number result.ty result.number }
{
    if nums[at] == BINARY {
        let operator = nums[at + 1];
        if operator < BOTH {
            values::binary(operator, a, b)
        } else {
            b
        }
    } else {
        values::joined(a, b)
    }
}
