// The look-up of an apply: among the entries of a table that match all its keys the one with the longest prefix, where
// the table has an lpm key and no ternary one, else the earliest.
#![tactic(auto)]

ghost use Rattle.std.specs.Prelude.{◌+◌, get_or};
ghost use Rattle.shape.specs.Directory.{entries_slot};
ghost use Rattle.program.specs.In.{In};
ghost use Rattle.lookup.specs.LookingUp.{AsksLook, TellsLookUp};

use looking::{longest_wins, look_from};
use program::{MOST_KEYS, Source};
use shape::ENTRIES;

mod looking;
mod matching;

// An entry whose patterns all keys match: the prefix length of its lpm key, or 0 where it has none, and the index behind
// the patterns.
#[derive(Clone, Copy)]
pub(crate) struct Match {
    prefix: u64,
    next: usize,
}

// The best entry so far: where the position of its action stands, with the arguments behind it, and its prefix length.
#[derive(Clone, Copy)]
pub(crate) struct Best {
    action: usize,
    prefix: u64,
}

// The entry that is found: where the position of its action stands, with the arguments behind it. No Option: document 01
// names these two cases.
#[derive(Clone, Copy)]
pub enum Lookup {
    Found(usize),
    Nothing,
}

// The entry that table `t`, which stands at `table`, finds by its keys' numbers.
pub fn look_up(source: &Source, keys: &[u64; MOST_KEYS], t: u64, table: usize) -> Lookup
    requires { In AsksLook source.now keys.now t table (entries_slot + 1) (get_or source.now.directory.now entries_slot 0) }
    ensures { In TellsLookUp source.now keys.now t table result }
{
    let longest = longest_wins(source, table + 1, source.nums[table]);
    let best = look_from(
        source,
        keys,
        t,
        table,
        longest,
        ENTRIES + 1,
        source.directory[ENTRIES],
        None,
    );
    match best {
        Some(entry) => Lookup::Found(entry.action),
        None => Lookup::Nothing,
    }
}
