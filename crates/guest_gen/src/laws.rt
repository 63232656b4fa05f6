//! What holds of the definitions, stated on a function that does nothing.

ghost use Rattle.guest_gen.specs.Program.{OneProgram};

/// There is one file that is the program of a number.
pub fn one_program()
    ensures { OneProgram }
{}
