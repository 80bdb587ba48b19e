// What a statement asks once its parts are judged: 7 before 8.
ghost use Rattle.rules.specs.Answers.{number_of};
ghost use Rattle.bodies.specs.Claims.{told_stmt};
ghost use Rattle.bodies.specs.Forms.{Forms, ruled, ruled_both, Chooses, FormsIn, called_in, returned_in, applied_in, left_in, parsed_in};

use super::Formed;
use super::types::{both, either};
use program::{Kind, Scope};
use rules::{Fault, Reason};

// Fine where a rule holds, and its refusal where it does not.
fn rule(reason: Reason, at: usize, holds: bool, returns: bool) -> Formed
    ensures { Forms result (ruled (number_of reason) at holds returns) }
{
    if holds {
        Ok(returns)
    } else {
        Err(Fault { reason, index: at })
    }
}

// Two rules of a statement that returns nothing: 7 where the first does not hold, then 8 where the second does not.
pub fn rules(at: usize, first: bool, second: bool) -> Formed
    ensures { Forms result (ruled_both at first second) }
{
    if first {
        rule(Reason::Form, at, second, false)
    } else {
        Err(Fault {
            reason: Reason::Type,
            index: at,
        })
    }
}

// A call that is a statement: a function calls functions only, and a state calls nothing.
pub fn called(scope: &Scope, at: usize, kind: u64, returns: u64) -> Formed
    ensures { FormsIn scope.now (called_in at kind returns) result }
{
    let callee = Kind::numbered(kind);
    let body = Kind::numbered(scope.kind);
    let some = either(callee != Kind::Action, body != Kind::Function);
    let may = both(body != Kind::State, some);
    rule(Reason::Form, at, may, false)
}

// A value of a type that is returned: in functions only.
pub fn returned(scope: &Scope, at: usize, t: u64) -> Formed
    ensures { FormsIn scope.now (returned_in at t) result }
{
    if Kind::numbered(scope.kind) == Kind::Function {
        rule(Reason::Type, at, scope.returns == t, true)
    } else {
        Err(Fault {
            reason: Reason::Form,
            index: at,
        })
    }
}

// An apply: in the apply body only.
pub fn applied(scope: &Scope, at: usize) -> Formed
    ensures { FormsIn scope.now (applied_in at) result }
{
    let applies = Kind::numbered(scope.kind) == Kind::Apply;
    rule(Reason::Form, at, applies, false)
}

// A return without a value, or an exit: in actions and the apply body only.
pub fn left(scope: &Scope, at: usize) -> Formed
    ensures { FormsIn scope.now (left_in at) result }
{
    let body = Kind::numbered(scope.kind);
    let may = both(body != Kind::Function, body != Kind::State);
    rule(Reason::Form, at, may, false)
}

// A verify or an extract, whose own rule holds or not: in states only.
pub fn parsed(scope: &Scope, at: usize, holds: bool) -> Formed
    ensures { FormsIn scope.now (parsed_in at holds) result }
{
    rules(at, holds, Kind::numbered(scope.kind) == Kind::State)
}

// An if with a condition of a type: a fault of its branches comes before its own, and is handed on, whatever its type.
pub fn chosen<E: From<Fault> + Drop>(
    at: usize,
    t: u64,
    branches: Result<bool, E>,
) -> Result<bool, E>
    ensures { Chooses E.from_gives at t branches result }
{
    let returns = branches?;
    Ok(rule(Reason::Type, at, t == 0, returns)?)
}
