// The keys of a table against the patterns of an entry.
ghost use Rattle.std.specs.Prelude.{is_some, unwrap_or};
ghost use Rattle.program.specs.In.{In};
ghost use Rattle.lookup.specs.Matching.{AsksOne, TellsOne, AsksMatch, TellsMatch};

use crate::Match;
use program::{EXACT, LPM, MOST_KEYS, Source};

// Whether a key matches, where the next pattern stands, and the prefix length where the key is lpm.
#[derive(Clone, Copy)]
struct One {
    matches: bool,
    next: usize,
    prefix: Option<u64>,
}

// One key against one pattern.
fn match_one(
    source: &Source,
    keys: &[u64; MOST_KEYS],
    from: usize,
    slot: usize,
    j: usize,
    at: usize,
) -> One
    requires { AsksOne source.now.nums.now source.now.directory.now keys.now from slot j at }
    ensures { TellsOne source.now.nums.now source.now.directory.now keys.now from slot j at result.matches result.next (is_some result.prefix) (unwrap_or result.prefix 0) }
{
    let kind = source.nums[from];
    let value = source.nums[at];
    let key = keys[j];
    if kind == EXACT {
        One {
            matches: words::order::equal(key, value),
            next: at + 1,
            prefix: None,
        }
    } else if kind == LPM {
        let prefix = source.nums[at + 1];
        One {
            matches: words::keys::prefix_matches(source.directory[slot], prefix, value, key),
            next: at + 2,
            prefix: Some(prefix),
        }
    } else {
        One {
            matches: words::keys::mask_matches(source.nums[at + 1], value, key),
            next: at + 2,
            prefix: None,
        }
    }
}

// So many keys, the first of which stands at `from` and has its width in a slot, against patterns one after the other
// from `at` on.
pub(crate) fn match_from(
    source: &Source,
    keys: &[u64; MOST_KEYS],
    from: usize,
    count: u64,
    slot: usize,
    at: usize,
) -> Option<Match>
    requires { In AsksMatch source.now keys.now from count slot 0 at }
    ensures { In TellsMatch source.now keys.now from count slot 0 at result }
{
    let mut key = from;
    let mut next = at;
    let mut prefix = None;
    for j in 0..count as usize {
        let one = match_one(source, keys, key, slot + j, j, next);
        if !one.matches {
            return None;
        }
        prefix = prefix.or(one.prefix);
        key = source.ends[key + 1] as usize;
        next = one.next;
    }
    Some(Match {
        prefix: prefix.unwrap_or(0),
        next,
    })
}
