// Tables: the keys' expressions, and the largest of the listed actions' bodies. `tables` is what the cycle takes: no
// apply stands in what a table runs, so nothing is asked of it.
ghost use Rattle.ceiling.specs.Claims.{AsksKeys, CountsKeys, AsksLargest, CountsLargest, AsksTable, CountsTable, AsksTables, CountsTables};
ghost use Rattle.program.specs.In.{In};

use crate::{count, operands};
use program::Source;
use shape::limits::DEEPEST;

// So many keys, one behind the other.
fn count_keys(
    source: &Source,
    tables: &[u64; 8],
    reach: usize,
    at: usize,
    count: u64,
    kept: &mut [u64; 16],
) -> u64
    requires { In AsksKeys source.now kept.old reach at count }
    ensures { In CountsKeys source.now kept.old kept.new reach at count result }
{
    let mut total = 0;
    let mut here = at;
    for _ in 0..count {
        let key = here + 1;
        let one = count::count_expr(source, tables, reach, DEEPEST, key, kept);
        total = operands::add(total, one);
        here = source.ends[key] as usize;
    }
    total
}

// The largest of so many callables' bodies.
fn largest(
    source: &Source,
    tables: &[u64; 8],
    reach: usize,
    at: usize,
    count: u64,
    kept: &mut [u64; 16],
) -> u64
    requires { In AsksLargest source.now kept.old reach at count }
    ensures { In CountsLargest source.now kept.old kept.new reach at count result }
{
    let mut most = 0u64;
    for i in 0..count as usize {
        let one = count::count_call(source, tables, reach, source.nums[at + i], kept);
        most = most.max(one);
    }
    most
}

// Table t: its keys, and the largest of its actions.
fn count_table(
    source: &Source,
    tables: &[u64; 8],
    reach: usize,
    t: usize,
    kept: &mut [u64; 16],
) -> u64
    requires { In AsksTable source.now kept.old reach t }
    ensures { In CountsTable source.now kept.old kept.new reach t result }
{
    let parts = source.table_of(t);
    let at = parts.at;
    let actions = parts.actions;
    let keys = count_keys(source, tables, reach, at + 1, source.nums[at], kept);
    let run = largest(
        source,
        tables,
        reach,
        actions + 1,
        source.nums[actions],
        kept,
    );
    operands::add(keys, run)
}

// The tables, each into its slot.
pub(crate) fn count_tables(
    source: &Source,
    tables: &[u64; 8],
    reach: usize,
    kept: &mut [u64; 16],
    filled: &mut [u64; 8],
)
    requires { In AsksTables source.now kept.old filled.old reach 0 }
    ensures { In CountsTables source.now kept.old kept.new filled.old filled.new reach 0 }
{
    for t in 0..source.directory[shape::TABLES] as usize {
        filled[t] = count_table(source, tables, reach, t, kept);
    }
}
