// States: the statement of each, then its transition. A transition: the states that it leads to, its expression, then
// itself.
ghost use Rattle.std.specs.Prelude.{◌<◌, length};
ghost use Rattle.rules.specs.Form.{judge_state, judge_states};
ghost use Rattle.program.specs.Stands.{SomeProgram};
ghost use Rattle.program.specs.Looks.{Has, states_of};
ghost use Rattle.form.specs.Parts.{JudgesPart, JudgesParts};
ghost use Rattle.form.specs.States.{JudgesLater, AsksPairs, JudgesPairs, AsksValues, JudgesValues, AsksSelect, JudgesCases, JudgesSelect, AsksTransition, JudgesTransition};
ghost use Rattle.program.specs.In.{In};

use super::{Formal, rule};
use bodies::exprs::judge_expr;
use bodies::stmts::judge_stmt;
use bodies::types::both;
use program::{Kind, Scope, Source};
use rules::{Fault, Reason};
use shape::limits::DEEPEST;

// The number at an index names a state behind state n.
fn judge_later(source: &Source, n: usize, at: usize) -> Formal
    requires { at < length source.now.nums.now }
    ensures { JudgesLater source.now.nums.now source.now.directory.now n at result }
{
    let state = source.nums[at];
    let later = both((n as u64) < state, state < source.directory[shape::STATES]);
    rule(Reason::Unnamed, at, later)
}

// So many pairs each name a state behind state n.
fn judge_pairs(source: &Source, n: usize, at: usize, count: u64) -> Formal
    requires { AsksPairs source.now.nums.now at count }
    ensures { JudgesPairs source.now.nums.now source.now.directory.now n at count result }
{
    for i in 0..count as usize {
        judge_later(source, n, at + 2 * i + 1)?;
    }
    Ok(())
}

// So many pairs each have a value that fits a width.
fn values_fit(nums: &[u64], width: u64, at: usize, count: u64) -> Formal
    requires { AsksValues nums.now width at count }
    ensures { JudgesValues nums.now width at count result }
{
    for i in 0..count as usize {
        let value = at + 2 * i;
        rule(Reason::Type, value, words::widths::fits(width, nums[value]))?;
    }
    Ok(())
}

// The select at an index behind its names: its expression is bits, and its values fit.
fn judge_cases(source: &Source, at: usize) -> Formal
    requires { In AsksSelect source.now at }
    ensures { In JudgesCases source.now at result }
{
    let scope = Scope::without_frame(source.directory[shape::CALLABLES], Kind::State);
    let t = judge_expr(source, &scope, DEEPEST, at + 1)?;
    if t == 0 {
        Err(Fault {
            reason: Reason::Type,
            index: at + 1,
        })
    } else {
        let pairs = source.ends[at + 1] as usize;
        values_fit(source.nums, t, pairs + 1, source.nums[pairs])
    }
}

// The select at an index, of state n.
fn judge_select(source: &Source, n: usize, at: usize) -> Formal
    requires { In AsksSelect source.now at }
    ensures { In JudgesSelect source.now n at result }
{
    let pairs = source.ends[at + 1] as usize;
    judge_pairs(source, n, pairs + 1, source.nums[pairs])?;
    judge_cases(source, at)
}

// The transition at an index, of state n.
fn judge_transition(source: &Source, n: usize, at: usize) -> Formal
    requires { In AsksTransition source.now at }
    ensures { In JudgesTransition source.now n at result }
{
    let tag = source.nums[at];
    match tag {
        3 => judge_later(source, n, at + 1),
        4 => judge_select(source, n, at),
        _ => Ok(()),
    }
}

// State number n.
fn judge_state(source: &Source, n: usize) -> Formal
    requires { In (Has states_of) source.now n }
    ensures { In (JudgesPart states_of judge_state) source.now n result }
{
    let at = source.state_of(n);
    let scope = Scope::without_frame(source.directory[shape::CALLABLES], Kind::State);
    judge_stmt(source, &scope, DEEPEST, at)?;
    let transition = source.ends[at] as usize;
    judge_transition(source, n, transition)
}

// The states of a program.
pub fn judge_states(source: &Source) -> Formal
    requires { In SomeProgram source.now }
    ensures { In (JudgesParts states_of judge_states) source.now 0 result }
{
    for n in 0..source.directory[shape::STATES] as usize {
        judge_state(source, n)?;
    }
    Ok(())
}
