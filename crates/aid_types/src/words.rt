//! The words of formulas, of ways to an award and of programs, as lines and bodies write them.
ghost use Rattle.std.specs.Prelude.{◌≡◌, ◌≤◌, length};
ghost use Rattle.aid_types.specs.Words.{formula_text, program_text, way_text};

use crate::{Formula, Program, Way};

/// The letter of a formula (HEA 475 to 477).
pub fn formula_name(formula: Formula) -> &'static str
    ensures text { result.now ≡ formula_text formula }
    ensures short { length result.now ≤ 1 }
{
    match formula {
        Formula::A => "A",
        Formula::B => "B",
        Formula::C => "C",
    }
}

/// The word for a way to an award.
pub fn way_name(way: Way) -> &'static str
    ensures text { result.now ≡ way_text way }
    ensures short { length result.now ≤ 10 }
{
    match way {
        Way::Maximum => "maximum",
        Way::Calculated => "calculated",
        Way::Minimum => "minimum",
        Way::Nothing => "nothing",
    }
}

/// The word for a program.
pub fn program_name(program: Program) -> &'static str
    ensures { result.now ≡ program_text program }
{
    match program {
        Program::Unsub => "unsub",
        Program::Sub => "sub",
        Program::Plus => "plus",
        Program::Pell => "pell",
        Program::Fseog => "fseog",
        Program::Teach => "teach",
    }
}
