// Where a walk stands.

ghost use Rattle.std.specs.Prelude.{◌≡◌};
ghost use Rattle.loop_rules.specs.Names.{texts, func_names};
ghost use Rattle.loop_rules.specs.Declarations.{tables_of_decls};

use crate::part::Part;
use crate::scope::Scope;
use loop_syntax::{Func, TableDecl};
use tp_value::Place;

/// The part, and what is visible there.
#[derive(Drop)]
pub struct Spot<'a, 'b> {
    /// The part.
    pub part: Part,
    /// The visible tables.
    pub decls: &'a [TableDecl],
    /// Their names.
    pub tables: &'b Scope<'a>,
    /// The functions.
    pub all: &'a [Func],
    /// Their names.
    pub funcs: &'b Scope<'a>,
    /// The visible variables.
    pub scope: Scope<'a>,
    /// Those of them that are a loop's.
    pub loops: Scope<'a>,
    /// The words of the `par` loops round.
    pub rounds: Vec<Place>,
    ghost named: { tables.now ≡ texts (tables_of_decls decls.now) },
    ghost known: { funcs.now ≡ func_names all.now },
}
