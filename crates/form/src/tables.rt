// Tables: the names of each, its keys, its 7s in file order, its 8s in file order.
ghost use Rattle.program.specs.Stands.{SomeProgram};
ghost use Rattle.program.specs.Looks.{Has, tables_of};
ghost use Rattle.form.specs.Parts.{AsksNames, JudgesNames, AsksNamed, JudgesNamed, default_is, kinds_are, behind_keys, AsksLays, LaysNamed, LaysTable, LaysTables};
ghost use Rattle.program.specs.In.{In};

use super::actions::{actions_exist, judge_listed, literals_fit};
use super::keys::{judge_keys, one_lpm};
use super::{Formal, rule};
use program::{MOST_KEYS, Parts, Source, WIDTHS};
use rules::{Fault, Reason};

// The listed actions, then the default's position among them.
fn judge_names(source: &Source, parts: Parts) -> Formal
    requires { AsksNames source.now.nums.now source.now.directory.now parts.at parts.actions parts.default }
    ensures { JudgesNames source.now.nums.now source.now.directory.now parts.at parts.actions parts.default result }
{
    let actions = parts.actions;
    let default = parts.default;
    actions_exist(source, actions + 1, source.nums[actions])?;
    rule(
        Reason::Unnamed,
        default,
        source.nums[default] < source.nums[actions],
    )
}

// The default has as many arguments as parameters, and they fit.
fn judge_default(source: &Source, parts: Parts) -> Formal
    requires { In AsksNamed source.now parts.at parts.actions parts.default }
    ensures { In (JudgesNamed default_is) source.now parts.at parts.actions parts.default result }
{
    let default = parts.default;
    let action = parts.actions + 1 + source.nums[default] as usize;
    let head = source.head_of(source.nums[action] as usize);
    if source.nums[default + 1] == head.count {
        literals_fit(source.nums, head.parameters, default + 2, head.count)
    } else {
        Err(Fault {
            reason: Reason::Type,
            index: default + 1,
        })
    }
}

// At most one key is lpm, then the listed actions are such that a table may list them.
fn judge_kinds(source: &Source, parts: Parts) -> Formal
    requires { In AsksNamed source.now parts.at parts.actions parts.default }
    ensures { In (JudgesNamed kinds_are) source.now parts.at parts.actions parts.default result }
{
    let at = parts.at;
    one_lpm(source, at + 1, source.nums[at])?;
    let actions = parts.actions;
    judge_listed(source, actions + 1, source.nums[actions])
}

// A table behind its keys.
fn judge_behind_keys(source: &Source, parts: Parts) -> Formal
    requires { In AsksNamed source.now parts.at parts.actions parts.default }
    ensures { In (JudgesNamed behind_keys) source.now parts.at parts.actions parts.default result }
{
    judge_default(source, parts)?;
    judge_kinds(source, parts)
}

// Table t behind its names. The widths of its keys go into its slots.
fn judge_behind_names(source: &Source, parts: Parts, t: usize, widths: &mut [u64; WIDTHS]) -> Formal
    requires { In AsksLays source.now parts.at parts.actions parts.default t }
    ensures { In LaysNamed source.now parts.at parts.actions parts.default t widths.old widths.new result }
{
    let at = parts.at;
    match judge_keys(source, at + 1, source.nums[at], MOST_KEYS * t, widths)? {
        None => judge_behind_keys(source, parts),
        Some(index) => Err(Fault {
            reason: Reason::Type,
            index,
        }),
    }
}

// Table t.
fn judge_table(source: &Source, t: usize, widths: &mut [u64; WIDTHS]) -> Formal
    requires { In (Has tables_of) source.now t }
    ensures { In LaysTable source.now t widths.old widths.new result }
{
    let parts = source.table_of(t);
    judge_names(source, parts)?;
    judge_behind_names(source, parts, t, widths)
}

// The tables of a program.
pub fn judge_tables(source: &Source, widths: &mut [u64; WIDTHS]) -> Formal
    requires { In SomeProgram source.now }
    ensures { In LaysTables source.now 0 widths.old widths.new result }
{
    for t in 0..source.directory[shape::TABLES] as usize {
        judge_table(source, t, widths)?;
    }
    Ok(())
}
