// The face for C: what users call, under names that C links, with the answer as five numbers in slots that the caller
// lends. include/nentuvar.h says the same in C.
#![tactic(auto)]

ghost use Rattle.std.specs.Prelude.{◌≡◌, Ok};
ghost use Rattle.rules.specs.Answers.{of_refusal, of_read, of_write, of_judge, of_run, judge_says};
ghost use Rattle.calls.specs.Promises.{in_five, TellsRead, TellsWrite, TellsRun};

use rules::{Acceptance, Finished, Refusal, Signal};

// The slots of an answer: the numbers that are told, then 0.
const ANSWER: usize = 5;

// The bytes as numbers, into the slots from the first on: 1 and how many; or 0 and the refusal, with the slots as found.
#[unsafe(no_mangle)]
pub extern "C" fn nentuvar_read(bytes: &[u8], slots: &mut [u64], answer: &mut [u64; ANSWER])
    ensures { TellsRead bytes.now slots.old answer.new slots.new }
{
    *answer = of_count(bench::read(bytes, slots));
}

// The numbers as bytes, into the bytes from the first on: 1 and how many; or 0 and the refusal, with the bytes as found.
#[unsafe(no_mangle)]
pub extern "C" fn nentuvar_write(numbers: &[u64], bytes: &mut [u8], answer: &mut [u64; ANSWER])
    ensures { TellsWrite numbers.now bytes.old answer.new bytes.new }
{
    *answer = of_count(bench::write(numbers, bytes));
}

// The verdict on a bench file: 1, its ceiling and its store's length; or 0 and the refusal.
#[unsafe(no_mangle)]
pub extern "C" fn nentuvar_judge(bytes: &[u8], answer: &mut [u64; ANSWER])
    ensures { answer.new ≡ in_five (judge_says bytes.now) }
{
    *answer = of_judge(bench::judge(bytes));
}

// The run of a bench file: 1 where it is done or 2 where it ends by exit, its steps, its ceiling and its store's length,
// with the final store in the result slots and the working slots at 0; or 0 and the refusal, with all slots as found.
#[unsafe(no_mangle)]
pub extern "C" fn nentuvar_run(
    bytes: &[u8],
    results: &mut [u64],
    working: &mut [u64],
    answer: &mut [u64; ANSWER],
)
    ensures { TellsRun bytes.now results.old working.old answer.new results.new working.new }
{
    *answer = of_run(bench::run(bytes, results, working));
}

// The cases of the answers in the paper's numbers: 1 and what is told, or 0 and the refusal. Reading tells how many
// numbers, writing how many bytes.
fn of_count(answer: Result<usize, Refusal>) -> [u64; ANSWER]
    ensures read { result ≡ in_five (of_read answer) }
    ensures written { result ≡ in_five (of_write answer) }
{
    match answer {
        Ok(count) => [1, count as u64, 0, 0, 0],
        Err(refusal) => of_refusal(refusal),
    }
}

fn of_judge(answer: Result<Acceptance, Refusal>) -> [u64; ANSWER]
    ensures { result ≡ in_five (of_judge answer) }
{
    match answer {
        Ok(file) => [1, file.ceiling, file.length as u64, 0, 0],
        Err(refusal) => of_refusal(refusal),
    }
}

fn of_run(answer: Result<Finished, Refusal>) -> [u64; ANSWER]
    ensures { result ≡ in_five (of_run answer) }
{
    match answer {
        Ok(run) => of_finished(run),
        Err(refusal) => of_refusal(refusal),
    }
}

fn of_finished(run: Finished) -> [u64; ANSWER]
    ensures { result ≡ in_five (of_run (Ok run)) }
{
    let length = run.length as u64;
    match run.signal {
        Signal::Done => [1, run.steps, run.ceiling, length, 0],
        Signal::Exit => [2, run.steps, run.ceiling, length, 0],
        Signal::Reject(error) => [4, error, run.steps, run.ceiling, length],
    }
}

fn of_refusal(refusal: Refusal) -> [u64; ANSWER]
    ensures { result ≡ in_five (of_refusal refusal) }
{
    [0, refusal.reason.number(), refusal.place as u64, 0, 0]
}
