// What a program declares at its top.

ghost use Rattle.std.specs.Prelude.{◌≡◌};
ghost use Rattle.loop_rules.specs.Names.{texts, func_names};
ghost use Rattle.loop_rules.specs.Sites.{tables_of};

use crate::scope::Scope;
use loop_syntax::Program;

/// A program with the names of its tables and functions.
#[derive(Drop)]
pub struct Declared<'a, 'b> {
    /// The program.
    pub program: &'a Program,
    /// The names of its tables.
    pub tables: &'b Scope<'a>,
    /// The names of its functions.
    pub funcs: &'b Scope<'a>,
    ghost named: { tables.now ≡ texts (tables_of program.now) },
    ghost known: { funcs.now ≡ func_names program.now.funcs.items },
}
