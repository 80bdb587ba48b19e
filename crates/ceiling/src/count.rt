// The cycle: expressions, lists of them, statements and calls count each other. The callable number falls at each call,
// the remaining depth at each construct inside another.
ghost use Rattle.std.specs.Prelude.{◌≡◌, ◌<◌, length, get_or};
ghost use Rattle.ceiling.specs.Claims.{AsksExpr, CountsExpr, AsksExprs, CountsExprs, AsksCall, CountsCall, AsksStmt, CountsStmt, CountsRun, AsksBranches, CountsBranches, AsksStmts, CountsStmts, AsksApplied, CountsApplied};
ghost use Rattle.program.specs.In.{In};

use crate::operands;
use crate::operands::Runs;
use program::Source;
use shape::limits::DEEPEST;

// Where the construct behind the one at `at` begins.
fn behind(ends: &[u64], at: usize) -> usize
    requires { at < length ends.now }
    ensures { result ≡ get_or ends.now at 0 }
{
    ends[at] as usize
}

// The expression at `at`: itself, its operands, and the body that it calls.
#[cycle(constructs)]
pub(crate) fn count_expr(
    source: &Source,
    tables: &[u64; 8],
    reach: usize,
    depth: usize,
    at: usize,
    kept: &mut [u64; 16],
) -> u64
    requires { In AsksExpr source.now kept.old reach depth at }
    ensures { In CountsExpr source.now kept.old kept.new reach depth at result }
{
    let held = operands::of_expr(source, depth, at);
    let inside = count_exprs(
        source, tables, reach, held.lower, held.first, held.count, kept,
    );
    let own = operands::add(1, inside);
    match held.callable {
        Some(f) => {
            let called = count_call(source, tables, reach, f, kept);
            operands::add(own, called)
        }
        None => own,
    }
}

// So many expressions, one behind the other.
#[cycle(constructs)]
fn count_exprs(
    source: &Source,
    tables: &[u64; 8],
    reach: usize,
    depth: usize,
    at: usize,
    count: usize,
    kept: &mut [u64; 16],
) -> u64
    requires { In AsksExprs source.now kept.old reach depth at count }
    ensures { In CountsExprs source.now kept.old kept.new reach depth at count result }
{
    let mut total = 0;
    let mut next = at;
    for _ in 0..count {
        let one = count_expr(source, tables, reach, depth, next, kept);
        total = operands::add(total, one);
        next = behind(source.ends, next);
    }
    total
}

// The body of callable f, worked out once.
#[cycle(constructs)]
pub(crate) fn count_call(
    source: &Source,
    tables: &[u64; 8],
    reach: usize,
    f: u64,
    kept: &mut [u64; 16],
) -> u64
    requires { In AsksCall source.now kept.old reach }
    ensures { In CountsCall source.now kept.old kept.new reach f result }
{
    let number = f as usize;
    if number < reach {
        let known = kept[number];
        if known == 0 {
            let frame = source.frame_of(number);
            let body = count_stmt(source, tables, number, DEEPEST, frame.body, kept);
            kept[number] = body;
            body
        } else {
            known
        }
    } else {
        0
    }
}

// The statement at `at`: itself, its operands, and what it runs besides.
#[cycle(constructs)]
pub(crate) fn count_stmt(
    source: &Source,
    tables: &[u64; 8],
    reach: usize,
    depth: usize,
    at: usize,
    kept: &mut [u64; 16],
) -> u64
    requires { In AsksStmt source.now tables.now kept.old reach depth at }
    ensures { In CountsStmt source.now tables.now kept.old kept.new reach depth at result }
{
    let held = operands::of_stmt(source, depth, at);
    let inside = count_exprs(
        source, tables, reach, held.lower, held.first, held.count, kept,
    );
    let own = operands::add(1, inside);
    let run = count_run(source, tables, reach, depth, at, kept);
    operands::add(own, run)
}

// What the statement at `at` runs besides its operands.
#[cycle(constructs)]
fn count_run(
    source: &Source,
    tables: &[u64; 8],
    reach: usize,
    depth: usize,
    at: usize,
    kept: &mut [u64; 16],
) -> u64
    requires { In AsksStmt source.now tables.now kept.old reach depth at }
    ensures { In CountsRun source.now tables.now kept.old kept.new reach depth at result }
{
    let runs = operands::runs_of(source, depth, at);
    match runs {
        Runs::Branches {
            lower,
            first,
            second,
        } => count_branches(source, tables, reach, lower, first, second, kept),
        Runs::Members {
            lower,
            first,
            count,
        } => count_stmts(source, tables, reach, lower, first, count, kept),
        Runs::Body(f) => count_call(source, tables, reach, f, kept),
        Runs::Applied(t) => applied(source.directory, tables, reach, t),
        Runs::Nothing => 0,
    }
}

// The larger of two branches.
#[cycle(constructs)]
fn count_branches(
    source: &Source,
    tables: &[u64; 8],
    reach: usize,
    depth: usize,
    first: usize,
    second: usize,
    kept: &mut [u64; 16],
) -> u64
    requires { In AsksBranches source.now tables.now kept.old reach depth first second }
    ensures { In CountsBranches source.now tables.now kept.old kept.new reach depth first second result }
{
    let one = count_stmt(source, tables, reach, depth, first, kept);
    let other = count_stmt(source, tables, reach, depth, second, kept);
    one.max(other)
}

// So many statements, one behind the other.
#[cycle(constructs)]
fn count_stmts(
    source: &Source,
    tables: &[u64; 8],
    reach: usize,
    depth: usize,
    at: usize,
    count: usize,
    kept: &mut [u64; 16],
) -> u64
    requires { In AsksStmts source.now tables.now kept.old reach depth at count }
    ensures { In CountsStmts source.now tables.now kept.old kept.new reach depth at count result }
{
    let mut total = 0;
    let mut next = at;
    for _ in 0..count {
        let one = count_stmt(source, tables, reach, depth, next, kept);
        total = operands::add(total, one);
        next = behind(source.ends, next);
    }
    total
}

// What an apply of table t runs: its ceiling is worked out already. No apply stands in a callable.
fn applied(directory: &[u64; shape::SLOTS], tables: &[u64; 8], reach: usize, t: u64) -> u64
    requires { AsksApplied directory.now }
    ensures { CountsApplied directory.now tables.now reach t result }
{
    let number = t as usize;
    if reach == directory[shape::CALLABLES] as usize {
        if t < directory[shape::TABLES] {
            tables[number]
        } else {
            0
        }
    } else {
        0
    }
}
