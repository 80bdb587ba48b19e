// What a call asks of its arguments and of what it calls.
ghost use Rattle.std.specs.Prelude.{◌≤◌};
ghost use Rattle.rules.specs.Words.{widest};
ghost use Rattle.bodies.specs.Leaves.{TellsIn, value_ty};
ghost use Rattle.bodies.specs.Calls.{AsksWanted, IsWanted, Weighs, Settles};

use super::types::{both, either};
use super::{Agreed, Callee, Parameter, Typed, Wanted};
use program::{Kind, Scope};
use rules::{Fault, Reason};

// The type of a call that is an expression: it calls functions only, and stands in no state.
pub fn value_type(scope: &Scope, at: usize, kind: u64, returns: u64) -> Typed
    requires { returns ≤ widest }
    ensures { TellsIn scope.now (value_ty at kind returns) result }
{
    let callee = Kind::numbered(kind);
    let body = Kind::numbered(scope.kind);
    if either(callee == Kind::Action, body == Kind::State) {
        Err(Fault {
            reason: Reason::Form,
            index: at,
        })
    } else {
        Ok(returns)
    }
}

// The parameter that comes next, if one is left.
pub fn wanted_at(nums: &[u64], parameters: usize, left: u64) -> Wanted
    requires { AsksWanted nums.now parameters left }
    ensures { IsWanted nums.now parameters left result }
{
    if left == 0 {
        Wanted {
            parameter: None,
            next: parameters,
            left: 0,
        }
    } else {
        let parameter = Parameter {
            direction: nums[parameters],
            ty: nums[parameters + 1],
        };
        Wanted {
            parameter: Some(parameter),
            next: parameters + 2,
            left: left - 1,
        }
    }
}

// An argument of a type against its parameter, before those behind it.
pub fn weigh(wanted: Wanted, t: u64, writable: bool, behind: Agreed) -> Agreed
    ensures { Weighs wanted t writable behind result }
{
    match wanted.parameter {
        Some(parameter) => {
            let place = either(parameter.direction < 2, writable);
            Agreed {
                types: both(parameter.ty == t, behind.types),
                places: both(place, behind.places),
            }
        }
        None => Agreed {
            types: false,
            places: true,
        },
    }
}

// A call whose arguments are judged.
pub fn settle(at: usize, kind: u64, returns: u64, agreed: Agreed) -> Result<Callee, Fault>
    requires { returns ≤ widest }
    ensures { Settles at kind returns agreed.types agreed.places result }
{
    if agreed.types {
        if agreed.places {
            Ok(Callee { kind, returns })
        } else {
            Err(Fault {
                reason: Reason::Form,
                index: at,
            })
        }
    } else {
        Err(Fault {
            reason: Reason::Type,
            index: at,
        })
    }
}
