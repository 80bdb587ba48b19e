// The look-up among the entries of a table.
ghost use Rattle.std.specs.Prelude.{◌≡◌};
ghost use Rattle.program.specs.In.{In};
ghost use Rattle.lookup.specs.LookingUp.{AsksKeys, TellsAny, TellsLongest, TellsBetter, AsksStep, TellsStep, settled_as, AsksLook, TellsLook};

use super::matching::match_from;
use crate::{Best, Match};
use program::{LPM, MOST_KEYS, Source, TERNARY};
use shape::WIDTHS;

// Whether one of so many keys, the first of which stands at `from`, is of a kind.
fn any_key(source: &Source, kind: u64, from: usize, count: u64) -> bool
    requires { AsksKeys source.now.nums.now source.now.ends.now from count }
    ensures { TellsAny source.now.nums.now source.now.ends.now kind from count result }
{
    let mut key = from;
    for _ in 0..count {
        if source.nums[key] == kind {
            return true;
        }
        key = source.ends[key + 1] as usize;
    }
    false
}

// Whether the longest prefix wins.
pub(crate) fn longest_wins(source: &Source, from: usize, count: u64) -> bool
    requires { AsksKeys source.now.nums.now source.now.ends.now from count }
    ensures { TellsLongest source.now.nums.now source.now.ends.now from count result }
{
    any_key(source, LPM, from, count) && !any_key(source, TERNARY, from, count)
}

// The better of what was found and an entry behind it: ties go to the earlier.
fn better(longest: bool, best: Option<Best>, action: usize, prefix: u64) -> Best
    ensures { TellsBetter longest best action prefix result }
{
    match best {
        Some(earlier) => {
            if longest && earlier.prefix < prefix {
                Best { action, prefix }
            } else {
                earlier
            }
        }
        None => Best { action, prefix },
    }
}

// What is found once an entry of the table is looked at.
fn step(
    source: &Source,
    keys: &[u64; MOST_KEYS],
    t: u64,
    table: usize,
    longest: bool,
    at: usize,
    best: Option<Best>,
) -> Option<Best>
    requires { In AsksStep source.now keys.now t table at }
    ensures { In TellsStep source.now keys.now t table longest at best result }
{
    let slot = WIDTHS + MOST_KEYS * t as usize;
    let keyed = match_from(source, keys, table + 1, source.nums[table], slot, at + 1);
    match keyed {
        Some(Match { prefix, next }) => Some(better(longest, best, next, prefix)),
        None => best,
    }
}

// Whether no later entry changes what is found: where the earliest wins, an entry does not give way.
fn settled(longest: bool, found: Option<Best>) -> bool
    ensures { result ≡ settled_as longest found }
{
    match found {
        Some(_) => !longest,
        None => false,
    }
}

// What is found once so many entries are looked at, whose places stand from slot `i` on. Those of other tables are passed
// over by their table's number.
pub(crate) fn look_from(
    source: &Source,
    keys: &[u64; MOST_KEYS],
    t: u64,
    table: usize,
    longest: bool,
    i: usize,
    left: u64,
    best: Option<Best>,
) -> Option<Best>
    requires { In AsksLook source.now keys.now t table i left }
    ensures { In TellsLook source.now keys.now t table longest i left best result }
{
    let mut found = best;
    for slot in i..i + left as usize {
        let at = source.directory[slot] as usize;
        if source.nums[at] == t {
            found = step(source, keys, t, table, longest, at, found);
            if settled(longest, found) {
                return found;
            }
        }
    }
    found
}
