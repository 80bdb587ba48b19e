// The judge: from the list of numbers to the ceiling and the store's length, or to the first fault. The passes go in
// document 01's order: shape (5, 4), form (6, 7, 8), the ceiling (9), entries, store, packet and what is left over (10,
// 11, 16, 12).
// Beside the answer it leaves what the runner wants to know.
#![tactic(auto)]

ghost use Rattle.judge.specs.Verdicts.{AsksJudge, JudgesNumbers};
ghost use Rattle.judge.specs.Passes.{AsksBounded, JudgesBounded, AsksProgram, JudgesProgram};
ghost use Rattle.program.specs.In.{In};

use lists::Lists;
use program::Source;
use rules::{Fault, Reason};

// What is accepted: the ceiling, where the store begins, and how many numbers it has.
#[derive(Clone, Copy)]
pub struct Verdict {
    pub ceiling: u64,
    pub store: usize,
    pub length: usize,
}

// The ceiling, then entries, store and packet, of a program whose form is fine.
fn judge_bounded(
    source: &Source,
    widths: &[u64; program::WIDTHS],
    entries: &mut [u64; lists::ENTRIES],
    offsets: &mut [u64; lists::OFFSETS],
) -> Result<Verdict, Fault>
    requires { In AsksBounded source.now widths.now }
    ensures { In JudgesBounded source.now widths.now entries.old entries.new offsets.old offsets.new result }
{
    let ceiling = ceiling::ceiling_of(source);
    if ceiling::MOST_STEPS < ceiling {
        Err(Fault {
            reason: Reason::Ceiling,
            index: 0,
        })
    } else {
        let Lists { store, length } = lists::judge_lists(source, widths, entries, offsets)?;
        Ok(Verdict {
            ceiling,
            store,
            length,
        })
    }
}

// Form, then what follows it.
fn judge_program(
    nums: &[u64],
    ends: &[u64],
    directory: &[u64; shape::SLOTS],
    widths: &mut [u64; program::WIDTHS],
    entries: &mut [u64; lists::ENTRIES],
    offsets: &mut [u64; lists::OFFSETS],
) -> Result<Verdict, Fault>
    requires { AsksProgram nums.now directory.now ends.now widths.old }
    ensures { JudgesProgram nums.now directory.now ends.now widths.old widths.new entries.old entries.new offsets.old offsets.new result }
{
    let source = Source {
        nums,
        ends,
        directory,
    };
    form::judge_form(&source, widths)?;
    judge_bounded(&source, widths, entries, offsets)
}

// The verdict on a list of numbers. It leaves the directory and the ends of the program (crate shape), the widths of its
// tables' keys (crate form), where its entries begin, and where its globals stand in the store (crate lists).
pub fn judge(
    nums: &[u64],
    directory: &mut [u64; shape::SLOTS],
    ends: &mut [u64; shape::NUMBERS],
    widths: &mut [u64; program::WIDTHS],
    entries: &mut [u64; lists::ENTRIES],
    offsets: &mut [u64; lists::OFFSETS],
) -> Result<Verdict, Fault>
    requires { AsksJudge nums.now directory.old ends.old widths.old }
    ensures { JudgesNumbers nums.now directory.old directory.new ends.old ends.new widths.old widths.new entries.old entries.new offsets.old offsets.new result }
{
    shape::scan_program(nums, directory, ends)?;
    judge_program(nums, ends, directory, widths, entries, offsets)
}
