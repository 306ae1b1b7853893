// What follows from the definitions of the code of programs. The functions do nothing: their
// contracts are the laws, for those who reason about codes.

ghost use Rattle.std.specs.Prelude.{◌≡◌, ◌*◌, ◌≤◌, length};
ghost use Rattle.loop_check.specs.Unbroken.{NoneBroken};
ghost use Rattle.loop_parse.specs.Text.{Reads};
ghost use Rattle.loop_syntax.specs.Tree.{program_of};
ghost use Rattle.scene_laws.specs.Count.{blocks_of_program};
ghost use Rattle.code_laws.specs.Main.{IsProgram};
ghost use Rattle.code_laws.specs.Owing.{OwesMeaning};

use loop_syntax::Program;
use tpal_syntax::Code;

/// Where a code is the code of a program of which no rule is broken, its first task owes the
/// meaning of the program, over all given tables, at every heartbeat and every fuel: where nothing
/// is diverted, and whatever is promoted. So it is never stuck.
pub fn program_owes(program: &Program, code: &Code)
    ensures { NoneBroken program.now → IsProgram code.now program.now
        → OwesMeaning program.now code.now }
{
    let _blocks = code.blocks();
}

/// Where a program lies in memory is no matter: programs with one tree are counted with as many
/// blocks.
pub fn only_the_tree_counts(program: &Program, other: &Program)
    ensures { program_of program.now ≡ program_of other.now
        → blocks_of_program program.now ≡ blocks_of_program other.now }
{}

/// The program of a text is counted with at most 64 blocks for each byte of the text, so its count
/// stays far below the numbers of 64 bits.
pub fn texts_have_few_blocks(source: &[u8], program: &Program)
    ensures { Reads source.now (program_of program.now)
        → blocks_of_program program.now ≤ 64 * length source.now }
{}
