// Names: locals, parameters, globals, fields and headers, and which places may be written.
ghost use Rattle.std.specs.Prelude.{◌≤◌};
ghost use Rattle.rules.specs.Words.{widest};
ghost use Rattle.bodies.specs.Leaves.{AsksName, TypedIn, AsksSlot, SlotTyped, local_ty, parameter_ty, variable_ty, field_ty, header_ty, AsksProgram, FindsGlobal, AsksGlobal, NamesGlobal, FindsHeader, SeenTyped, AsksField, FieldTyped, AsksFieldName, AsksWidths, IsWhole, AsksWritable, IsWritable, AsksLeaf, JudgesLeaf, IsWritableParameter};
ghost use Rattle.program.specs.In.{In};

use super::types::{bits_type, bool_type};
use super::{Found, Typed};
use program::{Kind, Scope, Source};
use rules::{Fault, Reason};
use shape::limits::FIRST_HEADER_TYPE;
use words::widths::WIDEST;

// The type of the local whose number stands behind the tag.
fn local_type(nums: &[u64], scope: &Scope, at: usize) -> Typed
    requires { AsksSlot nums.now scope.now at }
    ensures { SlotTyped nums.now scope.now (local_ty nums.now at) result }
{
    let i = nums[at + 1];
    if i < scope.local_count {
        Ok(nums[scope.locals + i as usize])
    } else {
        Err(Fault {
            reason: Reason::Unnamed,
            index: at + 1,
        })
    }
}

// The type of the parameter whose number stands behind the tag.
fn parameter_type(nums: &[u64], scope: &Scope, at: usize) -> Typed
    requires { AsksSlot nums.now scope.now at }
    ensures { SlotTyped nums.now scope.now (parameter_ty nums.now at) result }
{
    let i = nums[at + 1];
    if i < scope.parameter_count {
        Ok(nums[scope.parameters + 2 * i as usize + 1])
    } else {
        Err(Fault {
            reason: Reason::Unnamed,
            index: at + 1,
        })
    }
}

// A header type, if there is one of that number.
fn header_at(source: &Source, h: usize) -> Option<Found>
    requires { In AsksProgram source.now }
    ensures { In FindsHeader source.now h result }
{
    if h < source.directory[shape::HEADERS] as usize {
        Some(Found::Header(source.header_of(h)))
    } else {
        None
    }
}

// What the global of a number is.
pub fn global_at(source: &Source, g: usize) -> Option<Found>
    requires { In AsksProgram source.now }
    ensures { In FindsGlobal source.now g result }
{
    if g < source.directory[shape::GLOBALS] as usize {
        let ty = source.global_of(g);
        if ty <= WIDEST {
            Some(Found::Variable(ty))
        } else {
            header_at(source, (ty - FIRST_HEADER_TYPE) as usize)
        }
    } else {
        None
    }
}

// The global whose number stands behind the tag.
pub(crate) fn global_named(source: &Source, at: usize) -> Result<Found, Fault>
    requires { In AsksGlobal source.now at }
    ensures { In NamesGlobal source.now at result }
{
    match global_at(source, source.nums[at + 1] as usize) {
        Some(found) => Ok(found),
        None => Err(Fault {
            reason: Reason::Unnamed,
            index: at + 1,
        }),
    }
}

// A type behind a global, where globals are seen.
fn seen_type(scope: &Scope, at: usize, t: u64) -> Typed
    requires { t ≤ widest }
    ensures { SeenTyped scope.now at t result }
{
    if Kind::numbered(scope.kind) == Kind::Function {
        Err(Fault {
            reason: Reason::Form,
            index: at,
        })
    } else {
        Ok(t)
    }
}

// The type of the global whose number stands behind the tag.
fn variable_type(source: &Source, scope: &Scope, at: usize) -> Typed
    requires { In AsksName source.now scope.now at }
    ensures { In TypedIn source.now scope.now (variable_ty source.now.nums.now at) result }
{
    match global_named(source, at)? {
        Found::Variable(t) => seen_type(scope, at, t),
        Found::Header(_) => Err(Fault {
            reason: Reason::Type,
            index: at,
        }),
    }
}

// The type of a field of the header type that stands at an index; the field's number is the second behind the tag.
fn width_type(nums: &[u64], scope: &Scope, at: usize, header: usize) -> Typed
    requires { AsksField nums.now at header }
    ensures { FieldTyped nums.now scope.now at header result }
{
    let f = nums[at + 2];
    if f < nums[header] {
        seen_type(scope, at, nums[header + 1 + f as usize])
    } else {
        Err(Fault {
            reason: Reason::Unnamed,
            index: at + 2,
        })
    }
}

// Whether the fields of the header type that stands at an index have whole bytes together.
pub fn whole_bytes(nums: &[u64], header: usize) -> bool
    requires { AsksWidths nums.now header }
    ensures { IsWhole nums.now header result }
{
    let first = header + 1;
    let mut bits = 0;
    for next in first..first + nums[header] as usize {
        bits += nums[next];
    }
    bits % 8 == 0
}

// The type of the field whose global and number stand behind the tag.
fn field_type(source: &Source, scope: &Scope, at: usize) -> Typed
    requires { In AsksFieldName source.now scope.now at }
    ensures { In TypedIn source.now scope.now (field_ty source.now.nums.now at) result }
{
    match global_named(source, at)? {
        Found::Variable(_) => Err(Fault {
            reason: Reason::Type,
            index: at,
        }),
        Found::Header(header) => width_type(source.nums, scope, at, header),
    }
}

// The header whose global stands behind the tag: a bool where it is one.
pub fn header_type(source: &Source, scope: &Scope, at: usize) -> Typed
    requires { In AsksName source.now scope.now at }
    ensures { In TypedIn source.now scope.now (header_ty source.now.nums.now at) result }
{
    match global_named(source, at)? {
        Found::Variable(_) => Err(Fault {
            reason: Reason::Type,
            index: at,
        }),
        Found::Header(_) => seen_type(scope, at, 0),
    }
}

// An expression with no operands: a literal, a place, or the valid mark of a header.
pub fn judge_leaf(source: &Source, scope: &Scope, at: usize) -> Typed
    requires { In AsksLeaf source.now scope.now at }
    ensures { In JudgesLeaf source.now scope.now at result }
{
    let tag = source.nums[at];
    match tag {
        0 => bool_type(at, source.nums[at + 1]),
        1 => bits_type(at, source.nums[at + 1], source.nums[at + 2]),
        2 => local_type(source.nums, scope, at),
        3 => parameter_type(source.nums, scope, at),
        4 => variable_type(source, scope, at),
        5 => field_type(source, scope, at),
        _ => header_type(source, scope, at),
    }
}

// Whether a parameter may be written: its direction is out or inout.
fn writable_parameter(nums: &[u64], scope: &Scope, at: usize) -> bool
    requires { AsksSlot nums.now scope.now at }
    ensures { IsWritableParameter nums.now scope.now at result }
{
    let i = nums[at + 1];
    if i < scope.parameter_count {
        2 <= nums[scope.parameters + 2 * i as usize]
    } else {
        false
    }
}

// Whether the expression at an index is a place that may be written.
pub fn writable_at(nums: &[u64], scope: &Scope, at: usize) -> bool
    requires { AsksWritable nums.now scope.now at }
    ensures { IsWritable nums.now scope.now at result }
{
    let tag = nums[at];
    match tag {
        2 => true,
        3 => writable_parameter(nums, scope, at),
        4 => true,
        5 => true,
        _ => false,
    }
}
