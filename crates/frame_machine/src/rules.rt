// What follows from the rules for loops that are cut.

ghost use Rattle.loop_check.specs.Unbroken.{NoneBroken};
ghost use Rattle.frame_machine.specs.AllLawful.{AllLawful};

use loop_syntax::Program;

/// Where no rule is broken, each `par` may be cut in two, and what its body calls may run on either
/// side.
pub fn all_lawful(program: &Program)
    ensures { NoneBroken program.now → AllLawful program.now }
{}
