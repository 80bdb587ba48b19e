// Statements: the operands from left to right, then the statement itself. Whether a value is returned on each path is
// told beside.
ghost use Rattle.bodies.specs.Claims.{AsksStmt, JudgesStmt};
ghost use Rattle.bodies.specs.Forms.{AsksTagged, AsksBranches, JudgesBranches, AsksStmts, JudgesStmts};
ghost use Rattle.program.specs.In.{In};

use super::Formed;
use super::exprs::judge_expr;
use super::forms::chosen;
use super::singles::judge_single;
use super::types::{both, either};
use program::{Scope, Source};

// The members of a block, one after the other.
#[cycle(statements)]
fn judge_stmts(source: &Source, scope: &Scope, depth: usize, at: usize, count: u64) -> Formed
    requires { In AsksStmts source.now scope.now depth at count }
    ensures { In JudgesStmts source.now scope.now depth at count result }
{
    let mut next = at;
    let mut returns = false;
    for _ in 0..count {
        let each = judge_stmt(source, scope, depth, next)?;
        returns = either(returns, each);
        next = source.ends[next] as usize;
    }
    Ok(returns)
}

// The two branches of an if.
#[cycle(statements)]
fn judge_branches(source: &Source, scope: &Scope, depth: usize, at: usize) -> Formed
    requires { In AsksBranches source.now scope.now depth at }
    ensures { In JudgesBranches source.now scope.now depth at result }
{
    let a = judge_stmt(source, scope, depth, at)?;
    let behind = source.ends[at] as usize;
    let b = judge_stmt(source, scope, depth, behind)?;
    Ok(both(a, b))
}

// An if: its condition, its branches, then that the condition is a bool.
#[cycle(statements)]
fn judge_if(source: &Source, scope: &Scope, depth: usize, at: usize) -> Formed
    requires { In (AsksTagged 2) source.now scope.now depth at }
    ensures { In JudgesStmt source.now scope.now depth at result }
{
    let t = judge_expr(source, scope, depth - 1, at + 1)?;
    let behind = source.ends[at + 1] as usize;
    let branches = judge_branches(source, scope, depth - 1, behind);
    chosen(at, t, branches)
}

// The statement at an index, with so many levels left: fine, and whether it returns a value on each path; or its first
// fault.
#[cycle(statements)]
pub fn judge_stmt(source: &Source, scope: &Scope, depth: usize, at: usize) -> Formed
    requires { In AsksStmt source.now scope.now depth at }
    ensures { In JudgesStmt source.now scope.now depth at result }
{
    let tag = source.nums[at];
    if tag == 2 {
        judge_if(source, scope, depth, at)
    } else if tag == 3 {
        let count = source.nums[at + 1];
        judge_stmts(source, scope, depth - 1, at + 2, count)
    } else {
        judge_single(source, scope, depth, at)
    }
}
