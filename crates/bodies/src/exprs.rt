// Expressions: the operands from left to right, then the expression itself. A call's name comes before its arguments.
ghost use Rattle.bodies.specs.Claims.{AsksExpr, JudgesExpr};
ghost use Rattle.bodies.specs.Leaves.{Inside, OperandsAt, AsksOperands};
ghost use Rattle.bodies.specs.Calls.{AsksArgs, JudgesArgs, AsksCall, JudgesCall};
ghost use Rattle.program.specs.In.{In};

use super::calls::{settle, value_type, wanted_at, weigh};
use super::places::{judge_leaf, writable_at};
use super::types::{one_type, two_type};
use super::{Agreed, Callee, Operands, Typed};
use program::{Scope, Source};
use rules::{Fault, Reason};

// Where the first operand of an expression stands, by its tag, and whether it has a second.
fn operands_at(nums: &[u64], at: usize) -> Operands
    requires { Inside nums.now at }
    ensures { OperandsAt nums.now at result.first result.two }
{
    let tag = nums[at];
    match tag {
        9 => Operands {
            first: at + 2,
            two: true,
        },
        10 => Operands {
            first: at + 2,
            two: false,
        },
        11 => Operands {
            first: at + 3,
            two: false,
        },
        12 => Operands {
            first: at + 1,
            two: true,
        },
        _ => Operands {
            first: at + 1,
            two: false,
        },
    }
}

// So many arguments, for the parameters that are left.
#[cycle(expressions)]
fn judge_args(
    source: &Source,
    scope: &Scope,
    depth: usize,
    at: usize,
    count: u64,
    parameters: usize,
    left: u64,
) -> Result<Agreed, Fault>
    requires { In AsksArgs source.now scope.now depth at count parameters left }
    ensures { In JudgesArgs source.now scope.now depth at count parameters left result }
{
    if count == 0 {
        Ok(Agreed {
            types: left == 0,
            places: true,
        })
    } else {
        let t = judge_expr(source, scope, depth, at)?;
        let wanted = wanted_at(source.nums, parameters, left);
        let next = source.ends[at] as usize;
        let rest = count - 1;
        let behind = judge_args(source, scope, depth, next, rest, wanted.next, wanted.left)?;
        let writable = writable_at(source.nums, scope, at);
        Ok(weigh(wanted, t, writable, behind))
    }
}

// A call: the name of what it calls, its arguments, and whether they agree with the parameters.
#[cycle(expressions)]
pub fn judge_call(source: &Source, scope: &Scope, depth: usize, at: usize) -> Result<Callee, Fault>
    requires { In AsksCall source.now scope.now depth at }
    ensures { In JudgesCall source.now scope.now depth at result }
{
    let f = source.nums[at + 1];
    if f < scope.reach {
        let head = source.head_of(f as usize);
        let count = source.nums[at + 2];
        let agreed = judge_args(
            source,
            scope,
            depth - 1,
            at + 3,
            count,
            head.parameters,
            head.count,
        )?;
        settle(at, head.kind, head.returns, agreed)
    } else {
        Err(Fault {
            reason: Reason::Unnamed,
            index: at + 1,
        })
    }
}

// An expression with one or two operands that is no call.
#[cycle(expressions)]
fn judge_operands(source: &Source, scope: &Scope, depth: usize, at: usize) -> Typed
    requires { In AsksOperands source.now scope.now depth at }
    ensures { In JudgesExpr source.now scope.now depth at result }
{
    let operands = operands_at(source.nums, at);
    let first = operands.first;
    let t = judge_expr(source, scope, depth - 1, first)?;
    if operands.two {
        let second = source.ends[first] as usize;
        let u = judge_expr(source, scope, depth - 1, second)?;
        two_type(source.nums, at, t, u)
    } else {
        one_type(source.nums, at, t)
    }
}

// The expression at an index, with so many levels left: its type, or its first fault.
#[cycle(expressions)]
pub fn judge_expr(source: &Source, scope: &Scope, depth: usize, at: usize) -> Typed
    requires { In AsksExpr source.now scope.now depth at }
    ensures { In JudgesExpr source.now scope.now depth at result }
{
    let tag = source.nums[at];
    if tag < 7 {
        judge_leaf(source, scope, at)
    } else if tag == 13 {
        let Callee { kind, returns } = judge_call(source, scope, depth, at)?;
        value_type(scope, at, kind, returns)
    } else {
        judge_operands(source, scope, depth, at)
    }
}
