// The parser: from state 0 on, each state leads to a later one, until one accepts or rejects. A state entered is a
// step, and so its work ends.
ghost use Rattle.runner.specs.Parsing.{TellsOn, AsksState, RunsState, AsksTransition, RunsTransition, AsksSelect, AsksEqual, TellsEqual, AsksParser, RunsParser};
ghost use Rattle.program.specs.In.{In};

use super::running::{run_expr, run_stmt};
use program::{Kind, Scope, Source};
use shape::limits::DEEPEST;
use steps::Ended;
use steps::operands::count_step;
use store::{POSITION, STORE};

// The tags of transitions. The last is select, 4.
const NO_TRANSITION: u64 = 0;

const ACCEPT: u64 = 1;

const REJECT: u64 = 2;

const LEAD_TO: u64 = 3;

// The errors of a select without a match, and of a state with no transition.
const NO_MATCH: u64 = 2;

const NO_WAY_ON: u64 = 3;

// Whether what follows runs, by how the statement or the parser before it ended.
pub(crate) fn goes_on(ended: Ended) -> bool
    ensures { TellsOn ended result }
{
    match ended {
        Ended::Onward => true,
        Ended::Returned => false,
        Ended::ReturnedValue { ty: _, number: _ } => false,
        Ended::Exited => false,
        Ended::Rejected(_) => false,
    }
}

// The parser, where there is one: behind a store of so many numbers stand the packet's count and its bytes.
pub(crate) fn run_parser(
    source: &Source,
    store: usize,
    size: usize,
    slots: &mut [u64; STORE],
    frame: &mut [u64],
) -> Ended
    requires { In AsksParser source.now slots.old frame.old store size }
    ensures { In RunsParser source.now slots.old slots.new frame.old frame.new store size result }
{
    if source.directory[shape::STATES] == 0 {
        Ended::Onward
    } else {
        slots[POSITION] = (store + size + 1) as u64;
        let scope = Scope::without_frame(source.directory[shape::CALLABLES], Kind::State);
        run_state(source, &scope, 0, slots, frame)
    }
}

// State n: its statement, and where that goes on its transition.
#[cycle(states)]
fn run_state(
    source: &Source,
    scope: &Scope,
    n: usize,
    slots: &mut [u64; STORE],
    frame: &mut [u64],
) -> Ended
    requires { In AsksState source.now scope.now slots.old frame.old n }
    ensures { In RunsState source.now scope.now slots.old slots.new frame.old frame.new n result }
{
    count_step(slots);
    let at = source.state_of(n);
    let ended = run_stmt(source, scope, DEEPEST, at, slots, frame);
    if goes_on(ended) {
        let transition = source.ends[at] as usize;
        run_transition(source, scope, transition, slots, frame)
    } else {
        ended
    }
}

// A transition, by its tag.
#[cycle(states)]
fn run_transition(
    source: &Source,
    scope: &Scope,
    at: usize,
    slots: &mut [u64; STORE],
    frame: &mut [u64],
) -> Ended
    requires { In AsksTransition source.now scope.now slots.old frame.old at }
    ensures { In RunsTransition source.now scope.now slots.old slots.new frame.old frame.new at result }
{
    let tag = source.nums[at];
    match tag {
        NO_TRANSITION => Ended::Rejected(NO_WAY_ON),
        ACCEPT => Ended::Onward,
        REJECT => Ended::Rejected(source.nums[at + 1]),
        LEAD_TO => {
            let later = source.nums[at + 1] as usize;
            run_state(source, scope, later, slots, frame)
        }
        _ => run_select(source, scope, at, slots, frame),
    }
}

// A select: its expression, then the state of the first equal value.
#[cycle(states)]
fn run_select(
    source: &Source,
    scope: &Scope,
    at: usize,
    slots: &mut [u64; STORE],
    frame: &mut [u64],
) -> Ended
    requires { In AsksSelect source.now scope.now slots.old frame.old at }
    ensures { In RunsTransition source.now scope.now slots.old slots.new frame.old frame.new at result }
{
    let a = run_expr(source, scope, DEEPEST, at + 1, slots, frame);
    let pairs = source.ends[at + 1] as usize;
    let count = source.nums[pairs] as usize;
    let Some(found) = first_equal(source.nums, pairs + 1, count, a.number) else {
        return Ended::Rejected(NO_MATCH);
    };
    let later = source.nums[pairs + 2 + 2 * found] as usize;
    run_state(source, scope, later, slots, frame)
}

// Which of so many pairs of a value and a state is the first of this value.
fn first_equal(nums: &[u64], at: usize, count: usize, number: u64) -> Option<usize>
    requires { AsksEqual nums.now at count }
    ensures { TellsEqual nums.now at count number result }
{
    for i in 0..count {
        if number == nums[at + 2 * i] {
            return Some(i);
        }
    }
    None
}
