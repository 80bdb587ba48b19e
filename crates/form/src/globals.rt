// Globals: each header type that they name is there.
ghost use Rattle.program.specs.Stands.{SomeProgram};
ghost use Rattle.program.specs.Looks.{Has, globals_of};
ghost use Rattle.form.specs.Parts.{JudgesPart, JudgesParts, global_is, globals_are};
ghost use Rattle.program.specs.In.{In};

use super::{Formal, rule};
use program::Source;
use rules::Reason;
use shape::limits::FIRST_HEADER_TYPE;

// A global.
fn judge_global(source: &Source, g: usize) -> Formal
    requires { In (Has globals_of) source.now g }
    ensures { In (JudgesPart globals_of global_is) source.now g result }
{
    let ty = source.global_of(g);
    let at = source.directory[shape::GLOBALS + 1 + g] as usize;
    rule(
        Reason::Unnamed,
        at,
        ty < FIRST_HEADER_TYPE + source.directory[shape::HEADERS],
    )
}

// The globals of a program.
pub fn judge_globals(source: &Source) -> Formal
    requires { In SomeProgram source.now }
    ensures { In (JudgesParts globals_of globals_are) source.now 0 result }
{
    for g in 0..source.directory[shape::GLOBALS] as usize {
        judge_global(source, g)?;
    }
    Ok(())
}
