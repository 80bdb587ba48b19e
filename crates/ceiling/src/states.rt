// The states of a parser, the last one first: each is a step, its statement, its select's expression, and the dearest of
// the states that its transition names. A slot that is not filled holds 0, as does a state that is not later. `tables`
// is what the cycle takes: an apply in a state runs nothing, so it holds 0 throughout.
ghost use Rattle.ceiling.specs.StateClaims.{CountsLed, AsksDearest, CountsDearest, AsksTransition, CountsTransition, AsksState, CountsState, AsksStates, CountsStates, AsksParser, CountsParser};
ghost use Rattle.program.specs.In.{In};

use crate::{count, operands};
use program::Source;
use shape::limits::DEEPEST;

// How many states a program has at most.
const MOST_STATES: usize = 16;

// The tags of the transitions that lead to states.
const LEAD_TO: u64 = 3;

const SELECT: u64 = 4;

// What a lead to the state of a number adds.
fn led_to(filled: &[u64; MOST_STATES], number: u64) -> u64
    ensures { CountsLed filled.now number result }
{
    let slot = number as usize;
    if slot < MOST_STATES { filled[slot] } else { 0 }
}

// The dearest of the states that so many pairs lead to.
fn dearest(nums: &[u64], filled: &[u64; MOST_STATES], at: usize, count: u64) -> u64
    requires { AsksDearest nums.now filled.now at count }
    ensures { CountsDearest nums.now filled.now at count result }
{
    let mut most = 0u64;
    for i in 0..count as usize {
        let one = led_to(filled, nums[at + 2 * i + 1]);
        most = most.max(one);
    }
    most
}

// The transition at `at`: its expression, and the dearest of the states that it names.
fn count_transition(
    source: &Source,
    tables: &[u64; 8],
    filled: &[u64; MOST_STATES],
    reach: usize,
    at: usize,
    kept: &mut [u64; 16],
) -> u64
    requires { In AsksTransition source.now filled.now kept.old reach at }
    ensures { In CountsTransition source.now filled.now kept.old kept.new reach at result }
{
    let tag = source.nums[at];
    match tag {
        LEAD_TO => led_to(filled, source.nums[at + 1]),
        SELECT => {
            let from = at + 1;
            let on = count::count_expr(source, tables, reach, DEEPEST, from, kept);
            let pairs = source.ends[from] as usize;
            let most = dearest(source.nums, filled, pairs + 1, source.nums[pairs]);
            operands::add(on, most)
        }
        _ => 0,
    }
}

// The state of number s, with those behind it worked out.
fn count_state(
    source: &Source,
    tables: &[u64; 8],
    filled: &[u64; MOST_STATES],
    reach: usize,
    s: usize,
    kept: &mut [u64; 16],
) -> u64
    requires { In AsksState source.now tables.now filled.now kept.old reach s }
    ensures { In CountsState source.now tables.now filled.now kept.old kept.new reach s result }
{
    let at = source.state_of(s);
    let body = count::count_stmt(source, tables, reach, DEEPEST, at, kept);
    let own = operands::add(1, body);
    let next = source.ends[at] as usize;
    let on = count_transition(source, tables, filled, reach, next, kept);
    operands::add(own, on)
}

// The states below number s, each into its slot, from the last one on. A recursion, since the library's laws don't say
// what a range yields that is walked backwards.
fn count_states(
    source: &Source,
    tables: &[u64; 8],
    reach: usize,
    s: usize,
    kept: &mut [u64; 16],
    filled: &mut [u64; MOST_STATES],
)
    requires { In AsksStates source.now tables.now kept.old filled.old reach s }
    ensures { In CountsStates source.now tables.now kept.old kept.new filled.old filled.new reach s }
{
    if s != 0 {
        let last = s - 1;
        let one = count_state(source, tables, filled, reach, last, kept);
        filled[last] = one;
        count_states(source, tables, reach, last, kept, filled);
    }
}

// The parser: its first state, with the dearest path behind it.
pub(crate) fn count_parser(
    source: &Source,
    tables: &[u64; 8],
    reach: usize,
    kept: &mut [u64; 16],
) -> u64
    requires { In AsksParser source.now tables.now kept.old reach }
    ensures { In CountsParser source.now tables.now kept.old kept.new reach result }
{
    let count = source.directory[shape::STATES] as usize;
    let mut filled = [0u64; MOST_STATES];
    count_states(source, tables, reach, count, kept, &mut filled);
    filled[0]
}
