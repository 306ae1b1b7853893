// Programs whose names, limits, output and variables of loops are in order.

ghost use Rattle.std.specs.Prelude.{◌≡◌, IfOk, IfErr};
ghost use Rattle.loop_rules.specs.Unbroken.{IsResolved};
ghost use Rattle.loop_rules.specs.Resolving.{IsCause};

use crate::whole::first_fault;
use loop_syntax::Program;
use std::alloc::Global;
use std::marker::Model;
use tp_value::{NoMemory, Place};

/// A program that breaks no rule on names and calls (C1), on what functions may do (C7), on output
/// in `par` loops (C9), on variables of loops (C10) and on limits (C11). It is seen as the program.
#[derive(Drop)]
pub struct Resolved {
    program: Program,
}

impl Model for Resolved {
    ghost use Rattle.loop_syntax.specs.declared.Program.{Program};
    ghost use Rattle.loop_rules.specs.Unbroken.{IsResolved};
    ghost use Rattle.loop_syntax.specs.contracts.expression.Expr as expression;
    ghost use Rattle.loop_syntax.specs.contracts.statement.Stmt as statement;
    ghost use Rattle.std.specs.Coded.{codes};

    ghost Value = { Program };

    ghost coded = { Prim.hlevel (codes, expression.the_row.coded, statement.the_row.coded) };

    ghost view = { λ resolved. resolved.program };

    ghost invariant = { λ resolved. IsResolved resolved.program };
}

impl Resolved {
    /// The program.
    pub fn program(&self) -> &Program
        ensures program { result.now ≡ self.now }
        ensures resolved { IsResolved self.now }
    {
        &self.program
    }
}

/// Why a program is refused.
#[derive(Clone, Copy, PartialEq, Eq, Debug)]
pub enum RuleFault {
    /// The first broken rule: its number, and where.
    Broken {
        /// The rule's number: 1 for C1, and so on.
        rule: u8,
        /// Where it is broken.
        place: Place,
    },
    /// Memory is wanting.
    NoMemory,
}

impl From<NoMemory> for RuleFault {
    ghost use Rattle.std.specs.Prelude.{◌≡◌};
    ghost use Rattle.loop_rules.specs.declared.resolved.RuleFault.TheVariants.{NoMemory};

    ghost from_gives = { λ _ fault. fault ≡ NoMemory };

    fn from(_error: NoMemory) -> Self {
        RuleFault::NoMemory
    }
}

/// Looks at the rules C1, C7, C9, C10 and C11. Where one of them is broken the answer is the one at
/// the least place, and among those there the one with the least number. Names are found by
/// hashing, so that the time is about linear in the program.
pub fn resolve(alloc: Global, program: Program) -> Result<Resolved, RuleFault>
    ensures program { IfOk result (λ resolved. resolved ≡ program) }
    ensures resolved { IfOk result (λ resolved. IsResolved program) }
    ensures cause { IfErr result (IsCause program) }
{
    match first_fault(alloc, &program)? {
        None => Ok(Resolved { program }),
        Some(fault) => Err(RuleFault::Broken {
            rule: fault.rule.number(),
            place: fault.place,
        }),
    }
}
