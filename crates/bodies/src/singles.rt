// Statements that hold no statement: their names and operands, then themselves, 7 before 8.
ghost use Rattle.std.specs.Prelude.{◌+◌, ◌<◌, length};
ghost use Rattle.bodies.specs.Claims.{JudgesStmt};
ghost use Rattle.bodies.specs.Leaves.{AsksName};
ghost use Rattle.bodies.specs.Forms.{Applies, MarksIn, ExtractsIn, AsksTagged, AsksSingle};
ghost use Rattle.program.specs.In.{In};

use super::exprs::{judge_call, judge_expr};
use super::forms::{applied, called, left, parsed, returned, rules};
use super::places::{global_named, header_type, judge_leaf, whole_bytes, writable_at};
use super::{Callee, Formed, Found};
use program::{Scope, Source};
use rules::{Fault, Reason};

// An assignment: its target, its value, then itself.
fn judge_assign(source: &Source, scope: &Scope, depth: usize, at: usize) -> Formed
    requires { In (AsksTagged 1) source.now scope.now depth at }
    ensures { In JudgesStmt source.now scope.now depth at result }
{
    let t = judge_leaf(source, scope, at + 1)?;
    let behind = source.ends[at + 1] as usize;
    let u = judge_expr(source, scope, depth - 1, behind)?;
    let writable = writable_at(source.nums, scope, at + 1);
    rules(at, t == u, writable)
}

// A call that is a statement.
fn judge_call_stmt(source: &Source, scope: &Scope, depth: usize, at: usize) -> Formed
    requires { In (AsksTagged 4) source.now scope.now depth at }
    ensures { In JudgesStmt source.now scope.now depth at result }
{
    let Callee { kind, returns } = judge_call(source, scope, depth, at)?;
    called(scope, at, kind, returns)
}

// An apply: its table, then itself.
fn judge_apply(source: &Source, scope: &Scope, at: usize) -> Formed
    requires { at + 1 < length source.now.nums.now }
    ensures { Applies source.now.nums.now source.now.directory.now scope.now at result }
{
    if source.nums[at + 1] < source.directory[shape::TABLES] {
        applied(scope, at)
    } else {
        Err(Fault {
            reason: Reason::Unnamed,
            index: at + 1,
        })
    }
}

// A return with a value.
fn judge_return(source: &Source, scope: &Scope, depth: usize, at: usize) -> Formed
    requires { In (AsksTagged 6) source.now scope.now depth at }
    ensures { In JudgesStmt source.now scope.now depth at result }
{
    let t = judge_expr(source, scope, depth - 1, at + 1)?;
    returned(scope, at, t)
}

// A header set valid or invalid.
fn judge_mark(source: &Source, scope: &Scope, at: usize) -> Formed
    requires { In AsksName source.now scope.now at }
    ensures { In MarksIn source.now scope.now at result }
{
    header_type(source, scope, at)?;
    Ok(false)
}

// An extract: its header, that this has whole bytes, then itself.
fn judge_extract(source: &Source, scope: &Scope, at: usize) -> Formed
    requires { In AsksName source.now scope.now at }
    ensures { In ExtractsIn source.now scope.now at result }
{
    match global_named(source, at)? {
        Found::Variable(_) => Err(Fault {
            reason: Reason::Type,
            index: at,
        }),
        Found::Header(header) => {
            let whole = whole_bytes(source.nums, header);
            parsed(scope, at, whole)
        }
    }
}

// A verify: its condition, that this is a bool, then itself.
fn judge_verify(source: &Source, scope: &Scope, depth: usize, at: usize) -> Formed
    requires { In (AsksTagged 12) source.now scope.now depth at }
    ensures { In JudgesStmt source.now scope.now depth at result }
{
    let t = judge_expr(source, scope, depth - 1, at + 1)?;
    parsed(scope, at, t == 0)
}

// A statement that is no if and no block.
pub fn judge_single(source: &Source, scope: &Scope, depth: usize, at: usize) -> Formed
    requires { In AsksSingle source.now scope.now depth at }
    ensures { In JudgesStmt source.now scope.now depth at result }
{
    let tag = source.nums[at];
    match tag {
        0 => Ok(false),
        1 => judge_assign(source, scope, depth, at),
        4 => judge_call_stmt(source, scope, depth, at),
        5 => judge_apply(source, scope, at),
        6 => judge_return(source, scope, depth, at),
        7 => left(scope, at),
        8 => left(scope, at),
        11 => judge_extract(source, scope, at),
        12 => judge_verify(source, scope, depth, at),
        _ => judge_mark(source, scope, at),
    }
}
