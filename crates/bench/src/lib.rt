// What users call: numbers read and written, bench files judged and run, their result lines. No operation asks anything of
// what it is given.
#![tactic(auto)]

ghost use Rattle.std.specs.Prelude.{◌≡◌, length};
ghost use Rattle.rules.specs.Numbers.{stream_of, numbers};
ghost use Rattle.rules.specs.Answers.{of_judge, judge_says};
ghost use Rattle.rules.specs.Lines.{printed};
ghost use Rattle.numbers.specs.Parts.{Roomy};
ghost use Rattle.numbers.specs.Promises.{Reads, Writes};
ghost use Rattle.lines.specs.Promises.{Prints};
ghost use Rattle.bench.specs.Runs.{refusal_at, RunsFile, AsksAccepted, RunsAccepted, AsksLent};
ghost use Rattle.program.specs.In.{In};

use judge::Verdict;
use program::Source;
use rules::{Acceptance, Fault, Finished, Reason, Refusal};
use runner::prepare;
use store::fill::{clear, copy};
use store::{COUNTER, STORE};

// A file of at most so many bytes is read into as many slots, which are set to 0 in less time than those of the longest.
const SHORT: usize = 512;

// The working slots that a run asks for, and which it leaves at 0.
const WORKING: usize = 8192;

// The bytes as numbers, into the slots from the first on: how many; or refused 1, 2, 3 or 13, with the slots as found.
pub fn read(bytes: &[u8], slots: &mut [u64]) -> Result<usize, Refusal>
    ensures { Reads bytes.now slots.old result slots.new }
{
    numbers::read(bytes, slots)
}

// The numbers as bytes, into the bytes from the first on: how many; or refused 13, with the bytes as found.
pub fn write(numbers: &[u64], bytes: &mut [u8]) -> Result<usize, Refusal>
    ensures { Writes numbers.now bytes.old result bytes.new }
{
    numbers::write(numbers, bytes)
}

// The verdict on a bench file: its ceiling and its store's length; or refused 1 to 12, with the place of the number at fault.
pub fn judge(bytes: &[u8]) -> Result<Acceptance, Refusal>
    ensures { of_judge result ≡ judge_says bytes.now }
{
    if bytes.len() <= SHORT {
        let mut slots = [0u64; SHORT];
        judge_in(bytes, &mut slots)
    } else {
        let mut slots = [0u64; shape::NUMBERS];
        judge_in(bytes, &mut slots)
    }
}

// The same, with slots lent for all numbers that the bytes may hold.
fn judge_in(bytes: &[u8], slots: &mut [u64]) -> Result<Acceptance, Refusal>
    requires { Roomy bytes.now (length slots.old) }
    ensures { of_judge result ≡ judge_says bytes.now }
{
    let count = numbers::read(bytes, slots)?;
    judge_numbers(bytes, &slots[..count])
}

// The same, for the numbers that the bytes hold.
fn judge_numbers(bytes: &[u8], nums: &[u64]) -> Result<Acceptance, Refusal>
    requires { stream_of bytes.now ≡ numbers nums.now }
    ensures { of_judge result ≡ judge_says bytes.now }
{
    let mut directory = [0u64; shape::SLOTS];
    let mut ends = [0u64; shape::NUMBERS];
    let mut widths = [0u64; program::WIDTHS];
    let mut entries = [0u64; lists::ENTRIES];
    let mut offsets = [0u64; lists::OFFSETS];
    let verdict = judge::judge(
        nums,
        &mut directory,
        &mut ends,
        &mut widths,
        &mut entries,
        &mut offsets,
    );
    match verdict {
        Ok(verdict) => Ok(Acceptance {
            ceiling: verdict.ceiling,
            length: verdict.length,
        }),
        Err(fault) => Err(refusal_at(bytes, fault)),
    }
}

// The refusal of a file at the number at fault: that number's place.
fn refusal_at(bytes: &[u8], fault: Fault) -> Refusal
    ensures { result ≡ refusal_at bytes.now fault }
{
    let place = numbers::place_of(bytes, fault.index);
    let reason = fault.reason;
    Refusal { reason, place }
}

// The run of a bench file: how it ended, its steps, ceiling and store's length, with the final store in the result slots
// and the working slots at 0; or refused 1 to 12 as the judge refuses it, or 13 where too few slots are lent, with all
// slots as found.
pub fn run(bytes: &[u8], results: &mut [u64], working: &mut [u64]) -> Result<Finished, Refusal>
    ensures { RunsFile bytes.now results.old results.new working.old working.new result }
{
    if bytes.len() <= SHORT {
        let mut slots = [0u64; SHORT];
        run_in(bytes, &mut slots, results, working)
    } else {
        let mut slots = [0u64; shape::NUMBERS];
        run_in(bytes, &mut slots, results, working)
    }
}

// The same, with slots lent for all numbers that the bytes may hold.
fn run_in(
    bytes: &[u8],
    slots: &mut [u64],
    results: &mut [u64],
    working: &mut [u64],
) -> Result<Finished, Refusal>
    requires { Roomy bytes.now (length slots.old) }
    ensures { RunsFile bytes.now results.old results.new working.old working.new result }
{
    let count = numbers::read(bytes, slots)?;
    run_numbers(bytes, &slots[..count], results, working)
}

// The same, for the numbers that the bytes hold.
fn run_numbers(
    bytes: &[u8],
    nums: &[u64],
    results: &mut [u64],
    working: &mut [u64],
) -> Result<Finished, Refusal>
    requires { stream_of bytes.now ≡ numbers nums.now }
    ensures { RunsFile bytes.now results.old results.new working.old working.new result }
{
    let mut directory = [0u64; shape::SLOTS];
    let mut ends = [0u64; shape::NUMBERS];
    let mut widths = [0u64; program::WIDTHS];
    let mut entries = [0u64; lists::ENTRIES];
    let mut offsets = [0u64; lists::OFFSETS];
    let verdict = judge::judge(
        nums,
        &mut directory,
        &mut ends,
        &mut widths,
        &mut entries,
        &mut offsets,
    );
    match verdict {
        Ok(verdict) => {
            prepare(&offsets, &entries, &widths, &mut directory);
            let source = Source {
                nums,
                ends: &ends,
                directory: &directory,
            };
            run_accepted(&source, verdict, results, working)
        }
        Err(fault) => Err(refusal_at(bytes, fault)),
    }
}

// The run of an accepted file, where the slots lent are enough.
fn run_accepted(
    source: &Source,
    verdict: Verdict,
    results: &mut [u64],
    working: &mut [u64],
) -> Result<Finished, Refusal>
    requires { In AsksAccepted source.now verdict.ceiling verdict.store verdict.length }
    ensures { In RunsAccepted source.now results.old results.new working.old working.new verdict.ceiling verdict.store verdict.length result }
{
    if working.len() < WORKING || results.len() < verdict.length {
        return Err(Refusal {
            reason: Reason::Room,
            place: 0,
        });
    }
    run_lent(source, verdict, results, working)
}

// The run itself: frames in the working slots behind the store's length. The store is copied into the result slots.
fn run_lent(
    source: &Source,
    verdict: Verdict,
    results: &mut [u64],
    working: &mut [u64],
) -> Result<Finished, Refusal>
    requires { In AsksLent source.now results.old working.old verdict.ceiling verdict.store verdict.length }
    ensures { In RunsAccepted source.now results.old results.new working.old working.new verdict.ceiling verdict.store verdict.length result }
{
    let length = verdict.length;
    let mut slots = [0u64; STORE];
    let signal = runner::run(
        source,
        verdict.store,
        length,
        &mut slots,
        &mut working[length..WORKING],
    );
    copy(&slots, 0, length, results);
    clear(0, WORKING, working);
    Ok(Finished {
        signal,
        steps: slots[COUNTER],
        ceiling: verdict.ceiling,
        length,
    })
}

// The result lines of a bench file, into the bytes from the first on: how many; or refused 13, with the bytes as found.
pub fn lines(file: &[u8], bytes: &mut [u8]) -> Result<usize, Refusal>
    ensures { Prints (printed file.now) bytes.old result bytes.new }
{
    let mut results = [0u64; STORE];
    let mut working = [0u64; WORKING];
    match run(file, &mut results, &mut working) {
        Ok(run) => lines::ended(
            run.signal,
            run.steps,
            run.ceiling,
            &results[..run.length],
            bytes,
        ),
        Err(refusal) => lines::refused(refusal.reason.number(), refusal.place, bytes),
    }
}
