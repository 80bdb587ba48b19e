// The ceiling of a program, for refusal 9: the most steps that its parser and its apply body can take, from the program
// alone.
// Expressions, lists of them, statements and calls count each other, the callable number and the remaining depth
// falling; a callable's ceiling is worked out once and kept. Sums are cut at one more than a judged program may take.
#![tactic(auto)]

ghost use Rattle.program.specs.Stands.{SomeProgram};
ghost use Rattle.ceiling.specs.Claims.{TellsCeiling};
ghost use Rattle.program.specs.In.{In};

use program::Source;

mod count;
mod operands;
mod states;
mod tables;

// The most steps of a judged program.
pub const MOST_STEPS: u64 = 1000000;

// The ceiling of the program that stands there: exact where it is at most MOST_STEPS, otherwise one more than that.
pub fn ceiling_of(source: &Source) -> u64
    requires { In SomeProgram source.now }
    ensures { In TellsCeiling source.now result }
{
    let reach = source.directory[shape::CALLABLES] as usize;
    let body = source.directory[shape::BODY] as usize;
    let none = [0u64; 8];
    let mut kept = [0u64; 16];
    let mut tables = [0u64; 8];
    tables::count_tables(source, &none, reach, &mut kept, &mut tables);
    let parser = states::count_parser(source, &none, reach, &mut kept);
    let depth = shape::limits::DEEPEST;
    let run = count::count_stmt(source, &tables, reach, depth, body, &mut kept);
    operands::add(parser, run)
}
