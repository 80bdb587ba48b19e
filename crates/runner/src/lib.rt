// The runner: runs a judged program by the rules, from the numbers of its file and what the judge left. The store stands
// in slots of its own, one for each number in file order; behind them one counts steps and one holds the index of the
// packet's next unread byte. Frames stand in the working slots that are lent.
#![tactic(auto)]

ghost use Rattle.std.specs.Prelude.{length};
ghost use Rattle.runner.specs.Prepares.{AsksLay, Lays, AsksPrepare, Prepares};
ghost use Rattle.runner.specs.Whole.{AsksRun, RunsWhole, TellsSignal};
ghost use Rattle.program.specs.In.{In};

use program::{Kind, Scope, Source};
use rules::Signal;
use shape::limits::DEEPEST;
use steps::Ended;
use store::fill::copy;
use store::{COUNTER, STORE};

mod parser;
mod running;

// How a run ends: by an exit, by a reject, or done.
fn signal_of(ended: Ended) -> Signal
    ensures { TellsSignal ended result }
{
    match ended {
        Ended::Onward => Signal::Done,
        Ended::Returned => Signal::Done,
        Ended::ReturnedValue { ty, number } => Signal::Done,
        Ended::Exited => Signal::Exit,
        Ended::Rejected(error) => Signal::Reject(error),
    }
}

// Numbers are put into the slots of the directory from one on.
fn lay(numbers: &[u64], slot: usize, directory: &mut [u64])
    requires { AsksLay numbers.now directory.old (length numbers.now) slot }
    ensures { Lays numbers.now directory.old directory.new (length numbers.now) slot }
{
    copy(numbers, 0, numbers.len(), &mut directory[slot..]);
}

// What a run looks up is put behind the parts that the directory has: where the globals stand in the store, where the
// entries begin, the widths of the tables' keys.
pub fn prepare(
    offsets: &[u64; lists::OFFSETS],
    entries: &[u64; lists::ENTRIES],
    widths: &[u64; program::WIDTHS],
    directory: &mut [u64; shape::SLOTS],
)
    requires { AsksPrepare offsets.now entries.now widths.now directory.old }
    ensures { Prepares offsets.now entries.now widths.now directory.old directory.new }
{
    lay(offsets, shape::OFFSETS, directory);
    lay(entries, shape::ENTRIES, directory);
    lay(widths, shape::WIDTHS, directory);
}

// The run of an accepted file that is prepared, whose store has so many numbers from an index on; where there are
// states, the packet's count and its bytes stand behind. It leaves the final store's numbers in the slots, and the steps
// behind them.
pub fn run(
    source: &Source,
    store: usize,
    size: usize,
    slots: &mut [u64; STORE],
    frame: &mut [u64],
) -> Signal
    requires { In AsksRun source.now slots.old frame.old store size }
    ensures { In RunsWhole source.now slots.old slots.new frame.old store size result }
{
    copy(source.nums, store, size, slots);
    slots[COUNTER] = 0;
    let parsed = parser::run_parser(source, store, size, slots, frame);
    if parser::goes_on(parsed) {
        let scope = Scope::without_frame(source.directory[shape::CALLABLES], Kind::Apply);
        let body = source.directory[shape::BODY] as usize;
        let ended = running::run_stmt(source, &scope, DEEPEST, body, slots, frame);
        signal_of(ended)
    } else {
        signal_of(parsed)
    }
}
