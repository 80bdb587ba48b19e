// The shape of a program: refusals 5 and 4 over the list of numbers. The reader descends into operands itself and
// builds no tree. Each number is looked at a fixed number of times, so the time is linear in their count.
#![tactic(auto)]

mod callables;
mod declarations;
mod expressions;
mod items;
pub mod limits;
mod looks;
mod program;
mod statements;
mod states;
mod tables;

ghost use Rattle.std.specs.Prelude.{◌≤◌, length};
ghost use Rattle.shape.specs.Ends.{most_numbers, ScansProgram};
ghost use Rattle.shape.specs.Scans.{told};

use program::program_at;
use rules::Fault;

// The directory's slot for the count of header types; each one's beginning follows.
pub const HEADERS: usize = 0;
// The same of globals.
pub const GLOBALS: usize = 9;
// The same of callables.
pub const CALLABLES: usize = 42;
// The same of tables.
pub const TABLES: usize = 59;
// The slot for the beginning of the apply body.
pub const BODY: usize = 68;
// The slot for the end of the program.
pub const END: usize = 69;
// The slot for the count of parser states, which is 0 where the version has no parser; each one's beginning follows.
pub const STATES: usize = 70;
// The first of the slots for where each global stands in the store, and where the store ends. A scan leaves them, and
// those behind them, as found.
pub const OFFSETS: usize = 87;
// The slot for the count of entries; each one's beginning follows.
pub const ENTRIES: usize = 120;
// The first of the slots for the widths of the tables' keys.
pub const WIDTHS: usize = 185;
// How many slots the directory has.
pub const SLOTS: usize = 217;
// How many slots the ends have: one for each number that a file may have.
pub const NUMBERS: usize = 4096;

// What scanning at an index finds: the index after what was read; or the fault, which is at the count of numbers where
// they run out.
pub type Scanned = Result<usize, Fault>;

// The end of the program at the head of `nums`, or its first fault. Where its parts begin goes into the directory, and
// where each expression and statement ends into `ends`; a fault leaves the one as found and the other as zeros.
pub fn scan_program(
    nums: &[u64],
    directory: &mut [u64; SLOTS],
    ends: &mut [u64; NUMBERS],
) -> Scanned
    requires { length nums.now ≤ most_numbers }
    ensures { ScansProgram nums.now directory.old directory.new ends.old ends.new (told result) }
{
    let mut filled = *directory;
    let program = program_at(nums, &mut filled, ends);
    match program {
        Ok(end) => {
            *directory = filled;
            Ok(end)
        }
        Err(fault) => {
            *ends = [0u64; NUMBERS];
            Err(fault)
        }
    }
}
