// A run: expressions, argument lists, statements and calls run each other, the callable number and the remaining depth
// falling. A body's parameters and locals stand in the first slots of its frame; a call is lent the slots behind them,
// and its arguments are put there before.
ghost use Rattle.std.specs.Prelude.{◌+◌};
ghost use Rattle.runner.specs.Claims.{AsksExpr, RunsExpr, AsksLeafAt, AsksOne, AsksTwo, AsksValue, AsksCall, RunsCall, AsksArg, RunsArg, AsksArgs, RunsArgs, AsksBody, RunsBody, AsksStmt, RunsStmt, AsksTagged, AsksPlain, AsksStmts, RunsStmts, AsksTable, RunsTable, AsksKeys, RunsKeys, AsksAction, RunsAction};
ghost use Rattle.program.specs.In.{In};

use lookup::Lookup;
use program::{Scope, Source};
use shape::limits::DEEPEST;
use steps::calls::{OUT, after_call, finish_call, keep, own_slots, returned};
use steps::operands::count_step;
use steps::{Ended, operands};
use store::fill::{clear, copy};
use store::{STORE, write_place};
use values::Value;

// The tags of statements that run other constructs.
const ASSIGN: u64 = 1;

const IF: u64 = 2;

const BLOCK: u64 = 3;

const CALL: u64 = 4;

const APPLY: u64 = 5;

const RETURN_VALUE: u64 = 6;

const VERIFY: u64 = 12;

// An expression, by its tag.
#[cycle(constructs)]
pub(crate) fn run_expr(
    source: &Source,
    scope: &Scope,
    depth: usize,
    at: usize,
    slots: &mut [u64; STORE],
    frame: &mut [u64],
) -> Value
    requires { In AsksExpr source.now scope.now slots.old frame.old depth at }
    ensures { In RunsExpr source.now scope.now slots.old slots.new frame.old frame.new depth at result }
{
    let tag = source.nums[at];
    match tag {
        operands::NOT => run_one(source, scope, depth, at, 1, slots, frame),
        operands::COMPLEMENT => run_one(source, scope, depth, at, 1, slots, frame),
        operands::BINARY => run_two(source, scope, depth, at, 2, slots, frame),
        operands::CAST => run_one(source, scope, depth, at, 2, slots, frame),
        operands::SLICE => run_one(source, scope, depth, at, 3, slots, frame),
        operands::CONCATENATION => run_two(source, scope, depth, at, 1, slots, frame),
        operands::CALL => run_value(source, scope, depth, at, slots, frame),
        _ => run_leaf(source, scope, depth, at, slots, frame),
    }
}

// One without operands.
fn run_leaf(
    source: &Source,
    scope: &Scope,
    depth: usize,
    at: usize,
    slots: &mut [u64; STORE],
    frame: &mut [u64],
) -> Value
    requires { In AsksLeafAt source.now scope.now slots.old frame.old depth at }
    ensures { In RunsExpr source.now scope.now slots.old slots.new frame.old frame.new depth at result }
{
    count_step(slots);
    operands::leaf(source, scope, at, slots, frame)
}

// One with one operand, which begins so many numbers behind its tag.
#[cycle(constructs)]
fn run_one(
    source: &Source,
    scope: &Scope,
    depth: usize,
    at: usize,
    behind: usize,
    slots: &mut [u64; STORE],
    frame: &mut [u64],
) -> Value
    requires { In AsksOne source.now scope.now slots.old frame.old depth at (at + behind) }
    ensures { In RunsExpr source.now scope.now slots.old slots.new frame.old frame.new depth at result }
{
    count_step(slots);
    let first = at + behind;
    let a = run_expr(source, scope, depth - 1, first, slots, frame);
    operands::one(source.nums, at, a)
}

// One with two operands, the first of which begins so many numbers behind its tag: both and either may stop after it.
#[cycle(constructs)]
fn run_two(
    source: &Source,
    scope: &Scope,
    depth: usize,
    at: usize,
    behind: usize,
    slots: &mut [u64; STORE],
    frame: &mut [u64],
) -> Value
    requires { In AsksTwo source.now scope.now slots.old frame.old depth at (at + behind) }
    ensures { In RunsExpr source.now scope.now slots.old slots.new frame.old frame.new depth at result }
{
    count_step(slots);
    let first = at + behind;
    let a = run_expr(source, scope, depth - 1, first, slots, frame);
    if operands::stops_early(source.nums, at, a) {
        a
    } else {
        let second = source.ends[first] as usize;
        let b = run_expr(source, scope, depth - 1, second, slots, frame);
        operands::two(source.nums, at, a, b)
    }
}

// A call for its value.
#[cycle(constructs)]
fn run_value(
    source: &Source,
    scope: &Scope,
    depth: usize,
    at: usize,
    slots: &mut [u64; STORE],
    frame: &mut [u64],
) -> Value
    requires { In AsksValue source.now scope.now slots.old frame.old depth at }
    ensures { In RunsExpr source.now scope.now slots.old slots.new frame.old frame.new depth at result }
{
    count_step(slots);
    let ended = run_call(source, scope, depth, at, slots, frame);
    returned(ended)
}

// A call: its arguments from left to right, the callable's body in the slots behind the caller's own, then what comes
// back.
#[cycle(constructs)]
fn run_call(
    source: &Source,
    scope: &Scope,
    depth: usize,
    at: usize,
    slots: &mut [u64; STORE],
    frame: &mut [u64],
) -> Ended
    requires { In AsksCall source.now scope.now slots.old frame.old depth at }
    ensures { In RunsCall source.now scope.now slots.old slots.new frame.old frame.new depth at result }
{
    let f = source.nums[at + 1] as usize;
    let head = source.head_of(f);
    let own = own_slots(scope);
    run_args(
        source,
        scope,
        depth - 1,
        at + 3,
        head.parameters,
        head.count as usize,
        own,
        slots,
        frame,
    );
    let ended = run_body(source, f, slots, &mut frame[own..]);
    finish_call(source, scope, at, head, ended, slots, frame);
    ended
}

// So many arguments, whose parameters stand from `param` on, into the slots from one on. Each is kept once those behind it
// are worked out, so a call among them may use the slots.
#[cycle(constructs)]
fn run_args(
    source: &Source,
    scope: &Scope,
    depth: usize,
    at: usize,
    param: usize,
    count: usize,
    slot: usize,
    slots: &mut [u64; STORE],
    frame: &mut [u64],
)
    requires { In AsksArgs source.now scope.now slots.old frame.old depth at param count slot }
    ensures { In RunsArgs source.now scope.now slots.old slots.new frame.old frame.new depth at param count slot }
{
    if count != 0 {
        let number = run_arg(source, scope, depth, at, param, slots, frame);
        let next = source.ends[at] as usize;
        run_args(
            source,
            scope,
            depth,
            next,
            param + 2,
            count - 1,
            slot + 1,
            slots,
            frame,
        );
        keep(slot, number, frame);
    }
}

// What goes in for a parameter: its argument's number, or 0 where the direction is out.
#[cycle(constructs)]
fn run_arg(
    source: &Source,
    scope: &Scope,
    depth: usize,
    at: usize,
    param: usize,
    slots: &mut [u64; STORE],
    frame: &mut [u64],
) -> u64
    requires { In AsksArg source.now scope.now slots.old frame.old depth at param }
    ensures { In RunsArg source.now scope.now slots.old slots.new frame.old frame.new depth at param result }
{
    if source.nums[param] == OUT {
        count_step(slots);
        0
    } else {
        let a = run_expr(source, scope, depth, at, slots, frame);
        a.number
    }
}

// The body of callable f, whose parameters' numbers are in the first slots.
#[cycle(constructs)]
fn run_body(source: &Source, f: usize, slots: &mut [u64; STORE], frame: &mut [u64]) -> Ended
    requires { In AsksBody source.now slots.old frame.old f }
    ensures { In RunsBody source.now slots.old slots.new frame.old frame.new f result }
{
    let head = source.head_of(f);
    let body = source.frame_of(f);
    let count = head.count as usize;
    let locals = body.count as usize;
    let scope = Scope {
        reach: f as u64,
        parameters: head.parameters,
        parameter_count: head.count,
        locals: body.locals,
        local_count: body.count,
        kind: head.kind,
        returns: head.returns,
    };
    clear(count, count + locals, frame);
    run_stmt(source, &scope, DEEPEST, body.body, slots, frame)
}

// A statement, by its tag.
#[cycle(constructs)]
pub(crate) fn run_stmt(
    source: &Source,
    scope: &Scope,
    depth: usize,
    at: usize,
    slots: &mut [u64; STORE],
    frame: &mut [u64],
) -> Ended
    requires { In AsksStmt source.now scope.now slots.old frame.old depth at }
    ensures { In RunsStmt source.now scope.now slots.old slots.new frame.old frame.new depth at result }
{
    let tag = source.nums[at];
    match tag {
        ASSIGN => run_assign(source, scope, depth, at, slots, frame),
        IF => run_if(source, scope, depth, at, slots, frame),
        BLOCK => run_block(source, scope, depth, at, slots, frame),
        CALL => run_call_stmt(source, scope, depth, at, slots, frame),
        APPLY => run_apply(source, scope, depth, at, slots, frame),
        RETURN_VALUE => run_return(source, scope, depth, at, slots, frame),
        VERIFY => run_verify(source, scope, depth, at, slots, frame),
        _ => run_single(source, scope, depth, at, slots, frame),
    }
}

// One that runs no other construct.
fn run_single(
    source: &Source,
    scope: &Scope,
    depth: usize,
    at: usize,
    slots: &mut [u64; STORE],
    frame: &mut [u64],
) -> Ended
    requires { In AsksPlain source.now scope.now slots.old frame.old depth at }
    ensures { In RunsStmt source.now scope.now slots.old slots.new frame.old frame.new depth at result }
{
    count_step(slots);
    steps::singles::single(source, at, slots)
}

// An assignment.
#[cycle(constructs)]
fn run_assign(
    source: &Source,
    scope: &Scope,
    depth: usize,
    at: usize,
    slots: &mut [u64; STORE],
    frame: &mut [u64],
) -> Ended
    requires { In (AsksTagged 1) source.now scope.now slots.old frame.old depth at }
    ensures { In RunsStmt source.now scope.now slots.old slots.new frame.old frame.new depth at result }
{
    count_step(slots);
    let value = source.ends[at + 1] as usize;
    let a = run_expr(source, scope, depth - 1, value, slots, frame);
    write_place(source, scope, at + 1, a.number, slots, frame);
    Ended::Onward
}

// An if: one of its branches.
#[cycle(constructs)]
fn run_if(
    source: &Source,
    scope: &Scope,
    depth: usize,
    at: usize,
    slots: &mut [u64; STORE],
    frame: &mut [u64],
) -> Ended
    requires { In (AsksTagged 2) source.now scope.now slots.old frame.old depth at }
    ensures { In RunsStmt source.now scope.now slots.old slots.new frame.old frame.new depth at result }
{
    count_step(slots);
    let inner = depth - 1;
    let c = run_expr(source, scope, inner, at + 1, slots, frame);
    let first = source.ends[at + 1] as usize;
    if c.number == 0 {
        let second = source.ends[first] as usize;
        run_stmt(source, scope, inner, second, slots, frame)
    } else {
        run_stmt(source, scope, inner, first, slots, frame)
    }
}

// A block.
#[cycle(constructs)]
fn run_block(
    source: &Source,
    scope: &Scope,
    depth: usize,
    at: usize,
    slots: &mut [u64; STORE],
    frame: &mut [u64],
) -> Ended
    requires { In (AsksTagged 3) source.now scope.now slots.old frame.old depth at }
    ensures { In RunsStmt source.now scope.now slots.old slots.new frame.old frame.new depth at result }
{
    count_step(slots);
    let count = source.nums[at + 1];
    run_stmts(source, scope, depth - 1, at + 2, count, slots, frame)
}

// So many members of a block, up to the first that does not go on.
#[cycle(constructs)]
fn run_stmts(
    source: &Source,
    scope: &Scope,
    depth: usize,
    at: usize,
    count: u64,
    slots: &mut [u64; STORE],
    frame: &mut [u64],
) -> Ended
    requires { In AsksStmts source.now scope.now slots.old frame.old depth at count }
    ensures { In RunsStmts source.now scope.now slots.old slots.new frame.old frame.new depth at count result }
{
    let mut next = at;
    for _ in 0..count {
        let ended = run_stmt(source, scope, depth, next, slots, frame);
        let Ended::Onward = ended else {
            return ended;
        };
        next = source.ends[next] as usize;
    }
    Ended::Onward
}

// A call as a statement: its value, if it has one, is dropped.
#[cycle(constructs)]
fn run_call_stmt(
    source: &Source,
    scope: &Scope,
    depth: usize,
    at: usize,
    slots: &mut [u64; STORE],
    frame: &mut [u64],
) -> Ended
    requires { In (AsksTagged 4) source.now scope.now slots.old frame.old depth at }
    ensures { In RunsStmt source.now scope.now slots.old slots.new frame.old frame.new depth at result }
{
    count_step(slots);
    let ended = run_call(source, scope, depth, at, slots, frame);
    after_call(ended)
}

// A return with a value.
#[cycle(constructs)]
fn run_return(
    source: &Source,
    scope: &Scope,
    depth: usize,
    at: usize,
    slots: &mut [u64; STORE],
    frame: &mut [u64],
) -> Ended
    requires { In (AsksTagged 6) source.now scope.now slots.old frame.old depth at }
    ensures { In RunsStmt source.now scope.now slots.old slots.new frame.old frame.new depth at result }
{
    count_step(slots);
    let a = run_expr(source, scope, depth - 1, at + 1, slots, frame);
    Ended::ReturnedValue {
        ty: a.ty,
        number: a.number,
    }
}

// A verify: where its condition is false it rejects with the error behind it.
#[cycle(constructs)]
fn run_verify(
    source: &Source,
    scope: &Scope,
    depth: usize,
    at: usize,
    slots: &mut [u64; STORE],
    frame: &mut [u64],
) -> Ended
    requires { In (AsksTagged 12) source.now scope.now slots.old frame.old depth at }
    ensures { In RunsStmt source.now scope.now slots.old slots.new frame.old frame.new depth at result }
{
    count_step(slots);
    let a = run_expr(source, scope, depth - 1, at + 1, slots, frame);
    if a.number == 0 {
        let error = source.ends[at + 1] as usize;
        Ended::Rejected(source.nums[error])
    } else {
        Ended::Onward
    }
}

// An apply.
#[cycle(constructs)]
fn run_apply(
    source: &Source,
    scope: &Scope,
    depth: usize,
    at: usize,
    slots: &mut [u64; STORE],
    frame: &mut [u64],
) -> Ended
    requires { In (AsksTagged 5) source.now scope.now slots.old frame.old depth at }
    ensures { In RunsStmt source.now scope.now slots.old slots.new frame.old frame.new depth at result }
{
    count_step(slots);
    let t = source.nums[at + 1];
    run_table(source, scope, t, slots, frame)
}

// Table t: its keys, then the action of the entry that is found, or the default.
#[cycle(constructs)]
fn run_table(
    source: &Source,
    scope: &Scope,
    t: u64,
    slots: &mut [u64; STORE],
    frame: &mut [u64],
) -> Ended
    requires { In AsksTable source.now scope.now slots.old frame.old t }
    ensures { In RunsTable source.now scope.now slots.old slots.new frame.old frame.new t result }
{
    let parts = source.table_of(t as usize);
    let table = parts.at;
    let actions = parts.actions;
    let default = parts.default;
    let mut keys = [0u64; program::MOST_KEYS];
    run_keys(
        source,
        scope,
        0,
        table + 1,
        source.nums[table],
        slots,
        frame,
        &mut keys,
    );
    let Lookup::Found(entry) = lookup::look_up(source, &keys, t, table) else {
        return run_action(source, actions, default, 2, slots, frame);
    };
    run_action(source, actions, entry, 1, slots, frame)
}

// So many keys, the first of which stands at `from`: their numbers, from number j on.
#[cycle(constructs)]
fn run_keys(
    source: &Source,
    scope: &Scope,
    j: usize,
    from: usize,
    count: u64,
    slots: &mut [u64; STORE],
    frame: &mut [u64],
    keys: &mut [u64; program::MOST_KEYS],
)
    requires { In AsksKeys source.now scope.now slots.old frame.old keys.old j from count }
    ensures { In RunsKeys source.now scope.now slots.old slots.new frame.old frame.new keys.old keys.new j from count }
{
    if count != 0 {
        let key = from + 1;
        let a = run_expr(source, scope, DEEPEST, key, slots, frame);
        let next = source.ends[key] as usize;
        run_keys(source, scope, j + 1, next, count - 1, slots, frame, keys);
        keys[j] = a.number;
    }
}

// An action that a table lists: its position there stands at an index, and its arguments so many numbers behind.
#[cycle(constructs)]
fn run_action(
    source: &Source,
    actions: usize,
    at: usize,
    behind: usize,
    slots: &mut [u64; STORE],
    frame: &mut [u64],
) -> Ended
    requires { In AsksAction source.now slots.old frame.old actions at (at + behind) }
    ensures { In RunsAction source.now slots.old slots.new frame.old frame.new actions at (at + behind) result }
{
    let position = source.nums[at] as usize;
    let f = source.nums[actions + 1 + position] as usize;
    let head = source.head_of(f);
    let count = head.count as usize;
    copy(source.nums, at + behind, count, frame);
    let ended = run_body(source, f, slots, frame);
    after_call(ended)
}
