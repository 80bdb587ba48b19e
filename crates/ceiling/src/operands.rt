// Sums, and the operands of a construct: where they begin, and how many they are.
ghost use Rattle.std.specs.Prelude.{◌≡◌, suc, ◌+◌, ◌≤◌, ◌<◌};
ghost use Rattle.rules.specs.Ceiling.{most_steps};
ghost use Rattle.ceiling.specs.Cut.{cut};
ghost use Rattle.ceiling.specs.Claims.{Plain, AsksHeld, HeldExpr, AsksHeldStmt, HeldStmt, HeldRuns};

use crate::MOST_STEPS;
use program::Source;

// The tags of the expressions that have operands.
const NOT: u64 = 7;

const COMPLEMENT: u64 = 8;

const BINARY: u64 = 9;

const CAST: u64 = 10;

const SLICE: u64 = 11;

const CONCATENATION: u64 = 12;

const CALL: u64 = 13;

// The tags of the statements that hold others.
const ASSIGN: u64 = 1;

const IF: u64 = 2;

const BLOCK: u64 = 3;

const CALL_STMT: u64 = 4;

const APPLY: u64 = 5;

const RETURN_VALUE: u64 = 6;

const VERIFY: u64 = 12;

// The operands of an expression, a level down: where they begin and how many they are; and the callable that it calls,
// if it calls one.
#[derive(Clone, Copy)]
pub(crate) struct Operands {
    pub lower: usize,
    pub first: usize,
    pub count: usize,
    pub callable: Option<u64>,
}

// The same of a statement, without a call.
#[derive(Clone, Copy)]
pub(crate) struct StmtOperands {
    pub lower: usize,
    pub first: usize,
    pub count: usize,
}

// What a statement runs besides its operands: one of two branches, members, a callable's body, what an apply runs.
#[derive(Clone, Copy)]
pub(crate) enum Runs {
    Branches {
        lower: usize,
        first: usize,
        second: usize,
    },
    Members {
        lower: usize,
        first: usize,
        count: usize,
    },
    Body(u64),
    Applied(u64),
    Nothing,
}

// A sum, cut.
pub(crate) fn add(a: u64, b: u64) -> u64
    requires { (a ≤ suc most_steps) × (b ≤ suc most_steps) }
    ensures { result ≡ cut (a + b) }
{
    (a + b).min(MOST_STEPS + 1)
}

// The operands of an expression whose tag calls nothing.
fn held(depth: usize, first: usize, count: usize) -> Operands
    requires { 0 < depth }
    ensures { Plain depth first count result.lower result.first result.count result.callable }
{
    Operands {
        lower: depth - 1,
        first,
        count,
        callable: None,
    }
}

// The operands of the expression at `at`.
pub(crate) fn of_expr(source: &Source, depth: usize, at: usize) -> Operands
    requires { AsksHeld source.now.nums.now source.now.ends.now depth at }
    ensures { HeldExpr source.now.nums.now source.now.ends.now depth at result.lower result.first result.count result.callable }
{
    let tag = source.nums[at];
    match tag {
        NOT => held(depth, at + 1, 1),
        COMPLEMENT => held(depth, at + 1, 1),
        BINARY => held(depth, at + 2, 2),
        CAST => held(depth, at + 2, 1),
        SLICE => held(depth, at + 3, 1),
        CONCATENATION => held(depth, at + 1, 2),
        CALL => Operands {
            lower: depth - 1,
            first: at + 3,
            count: source.nums[at + 2] as usize,
            callable: Some(source.nums[at + 1]),
        },
        _ => held(depth, at, 0),
    }
}

// The operands of the statement at `at`.
pub(crate) fn of_stmt(source: &Source, depth: usize, at: usize) -> StmtOperands
    requires { AsksHeldStmt source.now.nums.now source.now.ends.now depth at }
    ensures { HeldStmt source.now.nums.now source.now.ends.now depth at result.lower result.first result.count }
{
    let tag = source.nums[at];
    let lower = depth - 1;
    match tag {
        ASSIGN => StmtOperands {
            lower,
            first: source.ends[at + 1] as usize,
            count: 1,
        },
        IF => StmtOperands {
            lower,
            first: at + 1,
            count: 1,
        },
        CALL_STMT => StmtOperands {
            lower,
            first: at + 3,
            count: source.nums[at + 2] as usize,
        },
        RETURN_VALUE => StmtOperands {
            lower,
            first: at + 1,
            count: 1,
        },
        VERIFY => StmtOperands {
            lower,
            first: at + 1,
            count: 1,
        },
        _ => StmtOperands {
            lower,
            first: at,
            count: 0,
        },
    }
}

// What the statement at `at` runs besides its operands.
pub(crate) fn runs_of(source: &Source, depth: usize, at: usize) -> Runs
    requires { AsksHeldStmt source.now.nums.now source.now.ends.now depth at }
    ensures { HeldRuns source.now.nums.now source.now.ends.now depth at result }
{
    let tag = source.nums[at];
    let lower = depth - 1;
    match tag {
        IF => {
            let first = source.ends[at + 1] as usize;
            Runs::Branches {
                lower,
                first,
                second: source.ends[first] as usize,
            }
        }
        BLOCK => Runs::Members {
            lower,
            first: at + 2,
            count: source.nums[at + 1] as usize,
        },
        CALL_STMT => Runs::Body(source.nums[at + 1]),
        APPLY => Runs::Applied(source.nums[at + 1]),
        _ => Runs::Nothing,
    }
}
