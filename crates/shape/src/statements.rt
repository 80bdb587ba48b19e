// Statements: the tag, what stands behind it, the expressions, the members.
ghost use Rattle.std.specs.Prelude.{◌≡◌, ◌<◌, ◌≤◌, length};
ghost use Rattle.rules.specs.Reading.{repeat, read_target, read_stmt, most_members};
ghost use Rattle.shape.specs.Walks.{Lays};
ghost use Rattle.shape.specs.Scans.{told, scan_of};
ghost use Rattle.shape.specs.Ends.{most_numbers, lay_stmt};
ghost use Rattle.shape.specs.Leads.{told_lead, value_of, block_lead, lay_members, place_form, place_scan, parser_form, stmt_form, LeadsTarget, LeadsVerify, LeadsForm, LeadsStmt};

use super::expressions::{Lead, call_lead, lead_by, scan_expr, scan_exprs};
use super::limits::{MOST_ERROR, MOST_MEMBERS, has_parser};
use super::looks::{Number, any_number, number_in, too_deep, two_numbers, value_in};
use super::{NUMBERS, Scanned};
use rules::{Fault, Reason};

// What stands behind the tag of an assignment's target.
#[derive(Clone, Copy)]
enum PlaceForm {
    OneNumber,
    TwoNumbers,
    NoPlace,
}

// What stands behind a statement's tag.
#[derive(Clone, Copy)]
enum StmtForm {
    Bare,
    Assign,
    If,
    Block,
    CallStmt,
    Named,
    Returned,
    Verified,
    NoStmt,
}

// What stands behind the tag of an assignment's target, in the version's list of tags.
fn place_form(version: u64, tag: u64) -> PlaceForm
    ensures { result ≡ place_form version tag }
{
    match tag {
        2 => PlaceForm::OneNumber,
        3 => PlaceForm::OneNumber,
        4 => PlaceForm::OneNumber,
        5 => PlaceForm::TwoNumbers,
        _ => PlaceForm::NoPlace,
    }
}

// The end of a target of that form whose tag is at `at`.
fn place_at(nums: &[u64], form: PlaceForm, at: usize) -> Scanned
    requires { at < length nums.now }
    ensures { told result ≡ place_scan form nums.now at }
{
    match form {
        PlaceForm::OneNumber => any_number(nums, at + 1),
        PlaceForm::TwoNumbers => two_numbers(nums, at + 1),
        PlaceForm::NoPlace => Err(Fault {
            reason: Reason::Unlisted,
            index: at,
        }),
    }
}

// The end of an assignment's target, with so many levels allowed.
fn target_at(nums: &[u64], version: u64, depth: usize, at: usize) -> Scanned
    ensures { told result ≡ scan_of (read_target version depth) nums.now at }
{
    if depth == 0 {
        too_deep(nums, at)
    } else if at < nums.len() {
        let tag = nums[at];
        place_at(nums, place_form(version, tag), at)
    } else {
        Err(Fault {
            reason: Reason::Unlisted,
            index: at,
        })
    }
}

// An assignment up to its value: its target, whose end goes into `ends`.
fn target_lead(
    nums: &[u64],
    version: u64,
    depth: usize,
    at: usize,
    ends: &mut [u64; NUMBERS],
) -> Result<Lead, Fault>
    requires { length nums.now ≤ most_numbers }
    ensures { LeadsTarget version depth nums.now at ends.old ends.new (told_lead result) }
{
    let next = target_at(nums, version, depth, at)?;
    ends[at] = next as u64;
    Ok(Lead {
        next,
        operands: 1,
        statements: 0,
    })
}

// A block up to the first of its members.
fn block_lead(nums: &[u64], at: usize) -> Result<Lead, Fault>
    ensures { told_lead result ≡ block_lead (value_of 0 most_members nums.now at) }
{
    let Number { value, next } = value_in(nums, 0, MOST_MEMBERS, at)?;
    Ok(Lead {
        next,
        operands: 0,
        statements: value as usize,
    })
}

// A verify up to its end: its condition, whose end goes into `ends`, and its error.
fn verify_lead(
    nums: &[u64],
    version: u64,
    depth: usize,
    at: usize,
    ends: &mut [u64; NUMBERS],
) -> Result<Lead, Fault>
    requires { length nums.now ≤ most_numbers }
    ensures { LeadsVerify version depth nums.now at ends.old ends.new (told_lead result) }
{
    let next = scan_expr(nums, version, depth, at, ends)?;
    lead_by(number_in(nums, 0, MOST_ERROR, next), 0, 0)
}

// A form that only versions with a parser block have.
fn parser_form(version: u64, form: StmtForm) -> StmtForm
    ensures { result ≡ parser_form version form }
{
    if has_parser(version) {
        form
    } else {
        StmtForm::NoStmt
    }
}

// What stands behind a statement's tag, in the version's list of tags.
fn stmt_form(version: u64, tag: u64) -> StmtForm
    ensures { result ≡ stmt_form version tag }
{
    match tag {
        0 => StmtForm::Bare,
        1 => StmtForm::Assign,
        2 => StmtForm::If,
        3 => StmtForm::Block,
        4 => StmtForm::CallStmt,
        5 => StmtForm::Named,
        6 => StmtForm::Returned,
        7 => StmtForm::Bare,
        8 => StmtForm::Bare,
        9 => StmtForm::Named,
        10 => StmtForm::Named,
        11 => parser_form(version, StmtForm::Named),
        12 => parser_form(version, StmtForm::Verified),
        _ => StmtForm::NoStmt,
    }
}

// The lead of a statement of that form whose tag is at `at`, with so many levels allowed below it.
fn stmt_form_lead(
    nums: &[u64],
    version: u64,
    depth: usize,
    form: StmtForm,
    at: usize,
    ends: &mut [u64; NUMBERS],
) -> Result<Lead, Fault>
    requires { (at < length nums.now) × (length nums.now ≤ most_numbers) }
    ensures { LeadsForm version depth form nums.now at ends.old ends.new (told_lead result) }
{
    let next = at + 1;
    match form {
        StmtForm::Bare => lead_by(Ok(next), 0, 0),
        StmtForm::Assign => target_lead(nums, version, depth, next, ends),
        StmtForm::If => lead_by(Ok(next), 1, 2),
        StmtForm::Block => block_lead(nums, next),
        StmtForm::CallStmt => call_lead(nums, next),
        StmtForm::Named => lead_by(any_number(nums, next), 0, 0),
        StmtForm::Returned => lead_by(Ok(next), 1, 0),
        StmtForm::Verified => verify_lead(nums, version, depth, next, ends),
        StmtForm::NoStmt => Err(Fault {
            reason: Reason::Unlisted,
            index: at,
        }),
    }
}

// The lead of the statement at `at`, with so many levels allowed below it.
fn stmt_lead(
    nums: &[u64],
    version: u64,
    depth: usize,
    at: usize,
    ends: &mut [u64; NUMBERS],
) -> Result<Lead, Fault>
    requires { length nums.now ≤ most_numbers }
    ensures { LeadsStmt version depth nums.now at ends.old ends.new (told_lead result) }
{
    if at < nums.len() {
        let tag = nums[at];
        stmt_form_lead(nums, version, depth, stmt_form(version, tag), at, ends)
    } else {
        Err(Fault {
            reason: Reason::Unlisted,
            index: at,
        })
    }
}

// The end of the statement at `at` with `depth` levels allowed, or its first fault. Where it and what stands in it end
// goes into `ends`.
#[cycle(statements)]
pub(crate) fn scan_stmt(
    nums: &[u64],
    version: u64,
    depth: usize,
    at: usize,
    ends: &mut [u64; NUMBERS],
) -> Scanned
    requires { length nums.now ≤ most_numbers }
    ensures { Lays (read_stmt version depth) lay_stmt nums.now at ends.old ends.new (told result) }
{
    if depth == 0 {
        too_deep(nums, at)
    } else {
        let Lead {
            next,
            operands,
            statements,
        } = stmt_lead(nums, version, depth - 1, at, ends)?;
        let after = scan_exprs(nums, version, depth - 1, operands, next, ends)?;
        let end = scan_stmts(nums, version, depth - 1, statements, after, ends)?;
        ends[at] = end as u64;
        Ok(end)
    }
}

// The end of so many statements, one after the other.
#[cycle(statements)]
fn scan_stmts(
    nums: &[u64],
    version: u64,
    depth: usize,
    count: usize,
    at: usize,
    ends: &mut [u64; NUMBERS],
) -> Scanned
    requires { length nums.now ≤ most_numbers }
    ensures { Lays (repeat count (read_stmt version depth)) lay_members nums.now at ends.old ends.new (told result) }
{
    let mut next = at;
    for _ in 0..count {
        next = scan_stmt(nums, version, depth, next, ends)?;
    }
    Ok(next)
}
