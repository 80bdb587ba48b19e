// Expressions: the tag, the numbers behind it, the operands.
ghost use Rattle.std.specs.Prelude.{◌≡◌, ◌<◌, ◌≤◌, length};
ghost use Rattle.std.proofs.Math.ListN.{get_elem?};
ghost use Rattle.rules.specs.Reading.{number, between, stands_for, repeat, operators, read_expr, most_arguments, highest_bound};
ghost use Rattle.shape.specs.Walks.{Lays};
ghost use Rattle.shape.specs.Scans.{told, scan_of};
ghost use Rattle.shape.specs.Ends.{most_numbers, lay_expr};
ghost use Rattle.shape.specs.Leads.{told_lead, read_literal, value_of, lead_by, arguments_lead, call_lead, expr_form, expr_lead, LeadsExpr, lay_exprs};

use super::limits::{HIGHEST_BOUND, LAST_OPERATOR, MOST_ARGUMENTS};
use super::looks::{Number, any_number, number_in, too_deep, two_numbers, value_in, width_at};
use super::{NUMBERS, Scanned};
use rules::{Fault, Reason};

// An expression or a statement up to its operands: where they begin, how many they are, how many statements follow.
#[derive(Clone, Copy)]
pub(crate) struct Lead {
    pub next: usize,
    pub operands: usize,
    pub statements: usize,
}

// What stands behind an expression's tag.
#[derive(Clone, Copy)]
enum ExprForm {
    Number,
    Field,
    Literal,
    Operand,
    Binary,
    Cast,
    Slice,
    Operands,
    Call,
    Unlisted,
}

// The lead that ends where a scan of its numbers does.
pub(crate) fn lead_by(numbers: Scanned, operands: usize, statements: usize) -> Result<Lead, Fault>
    ensures { told_lead result ≡ lead_by (told numbers) operands statements }
{
    let next = numbers?;
    Ok(Lead {
        next,
        operands,
        statements,
    })
}

// A call up to its arguments: the callable's number and the count.
pub(crate) fn call_lead(nums: &[u64], at: usize) -> Result<Lead, Fault>
    ensures { told_lead result ≡ call_lead nums.now (scan_of number nums.now at) }
{
    let next = any_number(nums, at)?;
    arguments_lead(nums, next)
}

// A list of arguments up to the first of them.
fn arguments_lead(nums: &[u64], at: usize) -> Result<Lead, Fault>
    ensures { told_lead result ≡ arguments_lead (value_of 0 most_arguments nums.now at) }
{
    let Number { value, next } = value_in(nums, 0, MOST_ARGUMENTS, at)?;
    Ok(Lead {
        next,
        operands: value as usize,
        statements: 0,
    })
}

// A literal's width and value.
fn literal_at(nums: &[u64], at: usize) -> Scanned
    ensures { told result ≡ scan_of read_literal nums.now at }
{
    let next = width_at(nums, at)?;
    any_number(nums, next)
}

// The two bounds of a slice.
fn bounds_at(nums: &[u64], at: usize) -> Scanned
    ensures { told result ≡ scan_of (repeat 2 (between 0 highest_bound)) nums.now at }
{
    let next = number_in(nums, 0, HIGHEST_BOUND, at)?;
    number_in(nums, 0, HIGHEST_BOUND, next)
}

// An operator of the version's list.
fn operator_at(nums: &[u64], version: u64, at: usize) -> Scanned
    ensures { told result ≡ scan_of (stands_for (get_elem? (operators version))) nums.now at }
{
    number_in(nums, 0, LAST_OPERATOR, at)
}

// What stands behind an expression's tag, in the version's list of tags.
fn expr_form(version: u64, tag: u64) -> ExprForm
    ensures { result ≡ expr_form version tag }
{
    match tag {
        0 => ExprForm::Number,
        1 => ExprForm::Literal,
        2 => ExprForm::Number,
        3 => ExprForm::Number,
        4 => ExprForm::Number,
        5 => ExprForm::Field,
        6 => ExprForm::Number,
        7 => ExprForm::Operand,
        8 => ExprForm::Operand,
        9 => ExprForm::Binary,
        10 => ExprForm::Cast,
        11 => ExprForm::Slice,
        12 => ExprForm::Operands,
        13 => ExprForm::Call,
        _ => ExprForm::Unlisted,
    }
}

// The lead of an expression of that form whose tag is at `at`.
fn expr_form_lead(nums: &[u64], version: u64, form: ExprForm, at: usize) -> Result<Lead, Fault>
    requires { at < length nums.now }
    ensures { told_lead result ≡ expr_lead version form nums.now at }
{
    let next = at + 1;
    match form {
        ExprForm::Number => lead_by(any_number(nums, next), 0, 0),
        ExprForm::Field => lead_by(two_numbers(nums, next), 0, 0),
        ExprForm::Literal => lead_by(literal_at(nums, next), 0, 0),
        ExprForm::Operand => lead_by(Ok(next), 1, 0),
        ExprForm::Binary => lead_by(operator_at(nums, version, next), 2, 0),
        ExprForm::Cast => lead_by(width_at(nums, next), 1, 0),
        ExprForm::Slice => lead_by(bounds_at(nums, next), 1, 0),
        ExprForm::Operands => lead_by(Ok(next), 2, 0),
        ExprForm::Call => call_lead(nums, next),
        ExprForm::Unlisted => Err(Fault {
            reason: Reason::Unlisted,
            index: at,
        }),
    }
}

// The lead of the expression at `at`.
fn expr_lead(nums: &[u64], version: u64, at: usize) -> Result<Lead, Fault>
    ensures { LeadsExpr version nums.now at (told_lead result) }
{
    if at < nums.len() {
        let tag = nums[at];
        expr_form_lead(nums, version, expr_form(version, tag), at)
    } else {
        Err(Fault {
            reason: Reason::Unlisted,
            index: at,
        })
    }
}

// The end of the expression at `at` with `depth` levels allowed, or its first fault. Where it and what stands in it end
// goes into `ends`.
#[cycle(expressions)]
pub(crate) fn scan_expr(
    nums: &[u64],
    version: u64,
    depth: usize,
    at: usize,
    ends: &mut [u64; NUMBERS],
) -> Scanned
    requires { length nums.now ≤ most_numbers }
    ensures { Lays (read_expr version depth) lay_expr nums.now at ends.old ends.new (told result) }
{
    if depth == 0 {
        too_deep(nums, at)
    } else {
        let Lead { next, operands, .. } = expr_lead(nums, version, at)?;
        let end = scan_exprs(nums, version, depth - 1, operands, next, ends)?;
        ends[at] = end as u64;
        Ok(end)
    }
}

// The end of so many expressions, one after the other.
#[cycle(expressions)]
pub(crate) fn scan_exprs(
    nums: &[u64],
    version: u64,
    depth: usize,
    count: usize,
    at: usize,
    ends: &mut [u64; NUMBERS],
) -> Scanned
    requires { length nums.now ≤ most_numbers }
    ensures { Lays (repeat count (read_expr version depth)) lay_exprs nums.now at ends.old ends.new (told result) }
{
    let mut next = at;
    for _ in 0..count {
        next = scan_expr(nums, version, depth, next, ends)?;
    }
    Ok(next)
}
