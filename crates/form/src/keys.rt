// The keys of a table: the expression of each in the scope of the apply body, that each is bits, and their kinds.
ghost use Rattle.std.specs.Prelude.{◌≡◌, false};
ghost use Rattle.form.specs.Parts.{AsksKey, JudgesKey, first_bool_of, AsksKeys, JudgesKeys, AsksKinds, JudgesKinds};
ghost use Rattle.program.specs.In.{In};

use super::{Formal, rule};
use bodies::Typed;
use bodies::exprs::judge_expr;
use bodies::types::{both, either};
use program::{Kind, LPM, Scope, Source, WIDTHS};
use rules::{Fault, Reason};
use shape::limits::DEEPEST;

// Where the first key stands that is a bool, where the keys are not all bits; or the first fault.
pub type Keyed = Result<Option<usize>, Fault>;

// The type of a key's expression.
fn key_type(source: &Source, at: usize) -> Typed
    requires { In AsksKey source.now at }
    ensures { In JudgesKey source.now at result }
{
    let scope = Scope::without_frame(source.directory[shape::CALLABLES], Kind::Apply);
    judge_expr(source, &scope, DEEPEST, at)
}

// Where the first key stands that is a bool: the one before, else the one at an index, if its type is bool.
fn first_bool(before: Option<usize>, at: usize, t: u64) -> Option<usize>
    ensures { result ≡ first_bool_of before at t }
{
    match before {
        Some(index) => Some(index),
        None => { if t == 0 { Some(at) } else { None } }
    }
}

// So many keys. Their widths go into the slots from `slot` on.
pub fn judge_keys(
    source: &Source,
    at: usize,
    count: u64,
    slot: usize,
    widths: &mut [u64; WIDTHS],
) -> Keyed
    requires { In AsksKeys source.now at count slot }
    ensures { In JudgesKeys source.now at count slot widths.old widths.new result }
{
    let mut boolean = None;
    let mut next = at;
    for i in 0..count as usize {
        let key = next + 1;
        let t = key_type(source, key)?;
        widths[slot + i] = t;
        boolean = first_bool(boolean, key, t);
        next = source.ends[key] as usize;
    }
    Ok(boolean)
}

// At most one of so many keys is lpm.
pub fn one_lpm(source: &Source, at: usize, count: u64) -> Formal
    requires { AsksKinds source.now.nums.now source.now.ends.now at count }
    ensures { JudgesKinds source.now.nums.now source.now.ends.now at count false result }
{
    let mut next = at;
    let mut seen = false;
    for _ in 0..count {
        let lpm = source.nums[next] == LPM;
        rule(Reason::Form, next, !both(seen, lpm))?;
        seen = either(seen, lpm);
        next = source.ends[next + 1] as usize;
    }
    Ok(())
}
