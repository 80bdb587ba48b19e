// Callables: the body of each in its scope, then that a function returns a value on each path.
ghost use Rattle.rules.specs.Form.{judge_callable, judge_callables};
ghost use Rattle.program.specs.Stands.{SomeProgram};
ghost use Rattle.program.specs.Looks.{Has, callables_of};
ghost use Rattle.form.specs.Parts.{JudgesPart, JudgesParts};
ghost use Rattle.program.specs.In.{In};

use super::{Formal, rule};
use bodies::stmts::judge_stmt;
use bodies::types::either;
use program::{Kind, Scope, Source};
use rules::Reason;
use shape::limits::DEEPEST;

// Callable number n, which sees those below it.
fn judge_callable(source: &Source, n: usize) -> Formal
    requires { In (Has callables_of) source.now n }
    ensures { In (JudgesPart callables_of judge_callable) source.now n result }
{
    let head = source.head_of(n);
    let frame = source.frame_of(n);
    let scope = Scope {
        reach: n as u64,
        parameters: head.parameters,
        parameter_count: head.count,
        locals: frame.locals,
        local_count: frame.count,
        kind: head.kind,
        returns: head.returns,
    };
    let returns = judge_stmt(source, &scope, DEEPEST, frame.body)?;
    let at = source.directory[shape::CALLABLES + 1 + n] as usize;
    let is_action = Kind::numbered(head.kind) == Kind::Action;
    rule(Reason::Form, at, either(is_action, returns))
}

// The callables of a program.
pub fn judge_callables(source: &Source) -> Formal
    requires { In SomeProgram source.now }
    ensures { In (JudgesParts callables_of judge_callables) source.now 0 result }
{
    for n in 0..source.directory[shape::CALLABLES] as usize {
        judge_callable(source, n)?;
    }
    Ok(())
}
