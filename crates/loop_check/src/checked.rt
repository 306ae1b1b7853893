// Programs whose parallel writes are disjoint.

ghost use Rattle.std.specs.Prelude.{◌≡◌, IfOk, IfErr};
ghost use Rattle.loop_meaning.specs.Cells.{Disjoint};
ghost use Rattle.loop_rules.specs.Unbroken.{IsResolved};
ghost use Rattle.loop_check.specs.Checking.{IsCause, IsVerdict};
ghost use Rattle.loop_check.specs.Parts.{Parted};
ghost use Rattle.loop_check.specs.Spared.{Spared};
ghost use Rattle.loop_check.specs.Unbroken.{NoneBroken};

use crate::readers::all_readers;
use crate::whole::first_fault;
use loop_rules::{Fault, Resolved, RuleFault};
use loop_syntax::Program;
use std::alloc::Global;
use std::marker::Model;
use tp_value::NoMemory;

/// A program that breaks no rule at all: beside those of `Resolved`, none on variables that a `par`
/// body may not set (C2), on reduced ones (C3), on writes (C4), reads (C5) and carry lists (C6),
/// on calls in `par` loops (C8), and on how a `par` is left (C12). It is seen as the program.
#[derive(Drop)]
pub struct Checked {
    resolved: Resolved,
}

impl Model for Checked {
    ghost use Rattle.loop_syntax.specs.declared.Program.{Program};
    ghost use Rattle.loop_check.specs.Unbroken.{NoneBroken};
    ghost use Rattle.loop_syntax.specs.contracts.expression.Expr as expression;
    ghost use Rattle.loop_syntax.specs.contracts.statement.Stmt as statement;
    ghost use Rattle.std.specs.Coded.{codes};

    ghost Value = { Program };

    ghost coded = { Prim.hlevel (codes, expression.the_row.coded, statement.the_row.coded) };

    ghost view = { λ checked. checked.resolved };

    ghost invariant = { λ checked. NoneBroken checked.resolved };
}

impl Checked {
    /// The program.
    pub fn program(&self) -> &Program
        ensures program { result.now ≡ self.now }
        ensures unbroken { NoneBroken self.now }
    {
        self.resolved.program()
    }

    /// The program whose names and limits are in order.
    pub fn resolved(&self) -> &Resolved
        ensures program { result.now ≡ self.now }
    {
        &self.resolved
    }
}

/// The first broken rule of disjoint writes, where one is broken.
fn fault_of(alloc: Global, program: &Program) -> Result<Option<Fault>, NoMemory>
    requires { IsResolved program.now }
    ensures { IfOk result (IsVerdict program.now) }
{
    let readers = all_readers(alloc, program)?;
    first_fault(alloc, program, &readers)
}

/// Looks at the rules C2, C3, C4, C5, C6, C8 and C12. Where one of them is broken the answer is the
/// one at the least place, and among those there the one with the least number. Where none is, no
/// iteration of a `par` writes a cell that another one reads or writes, and each keeps to its part
/// of each carried table and touches no other one that a `par` round it carries. Which functions
/// read which tables is found once.
pub fn check(alloc: Global, program: Resolved) -> Result<Checked, RuleFault>
    ensures program { IfOk result (λ checked. checked ≡ program) }
    ensures unbroken { IfOk result (λ checked. NoneBroken program) }
    ensures disjoint { IfOk result (λ checked. Disjoint program) }
    ensures parted { IfOk result (λ checked. Parted program) }
    ensures spared { IfOk result (λ checked. Spared program) }
    ensures cause { IfErr result (IsCause program) }
{
    match fault_of(alloc, program.program())? {
        None => Ok(Checked { resolved: program }),
        Some(fault) => Err(RuleFault::Broken {
            rule: fault.rule.number(),
            place: fault.place,
        }),
    }
}
