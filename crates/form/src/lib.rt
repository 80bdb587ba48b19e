// Refusals 6, 7 and 8 of a whole program (the rules' page Form), over the numbers where it stands, in file order: its
// globals, its callables, its tables, its states and its apply body. Each number is looked at a bounded number of times.
#![tactic(auto)]

ghost use Rattle.rules.specs.Answers.{number_of};
ghost use Rattle.rules.specs.Form.{need};
ghost use Rattle.program.specs.Stands.{SomeProgram};
ghost use Rattle.form.specs.Claims.{JudgesForm};
ghost use Rattle.form.specs.Parts.{Says, JudgesApply, JudgesBehind, LaysRest};
ghost use Rattle.program.specs.In.{In};

mod actions;
mod callables;
mod globals;
mod keys;
mod states;
mod tables;

use bodies::stmts::judge_stmt;
use callables::judge_callables;
use globals::judge_globals;
use program::{Kind, Scope, Source, WIDTHS};
use rules::{Fault, Reason};
use shape::limits::DEEPEST;
use states::judge_states;
use tables::judge_tables;

// A program is well formed, or has a fault, 6, 7 or 8, at an index.
pub type Formal = Result<(), Fault>;

// Fine where a rule holds, and its refusal where it does not.
fn rule(reason: Reason, at: usize, holds: bool) -> Formal
    ensures { Says result (need (number_of reason) at holds) }
{
    if holds {
        Ok(())
    } else {
        Err(Fault { reason, index: at })
    }
}

// The apply body.
fn judge_apply(source: &Source) -> Formal
    requires { In SomeProgram source.now }
    ensures { In JudgesApply source.now result }
{
    let scope = Scope::without_frame(source.directory[shape::CALLABLES], Kind::Apply);
    let body = source.directory[shape::BODY] as usize;
    judge_stmt(source, &scope, DEEPEST, body)?;
    Ok(())
}

// A program behind its tables: its states, then its apply body.
fn judge_behind_tables(source: &Source) -> Formal
    requires { In SomeProgram source.now }
    ensures { In JudgesBehind source.now result }
{
    judge_states(source)?;
    judge_apply(source)
}

// A program behind its callables: its tables, then what stands behind them.
fn judge_rest(source: &Source, widths: &mut [u64; WIDTHS]) -> Formal
    requires { In SomeProgram source.now }
    ensures { In LaysRest source.now widths.old widths.new result }
{
    let mut laid = *widths;
    judge_tables(source, &mut laid)?;
    judge_behind_tables(source)?;
    *widths = laid;
    Ok(())
}

// The first fault of a program, if it has one. Where it has none, the widths of each table's keys go into its slots; a
// fault leaves them as found.
pub fn judge_form(source: &Source, widths: &mut [u64; WIDTHS]) -> Formal
    requires { In SomeProgram source.now }
    ensures { In JudgesForm source.now widths.old widths.new result }
{
    judge_globals(source)?;
    judge_callables(source)?;
    judge_rest(source, widths)
}
