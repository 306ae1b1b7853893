// The site of a `par`, from which its handler and its join are made.

ghost use Rattle.std.specs.Prelude.{◌≡◌, ◌+◌, ◌<◌, ◌≤◌, ◌∷◌, [], length, IfOk, OnOk};
ghost use Rattle.tp_value.specs.declared.limits.TheConstants.{MAX_CARRIES, MAX_TABLES};
ghost use Rattle.tp_value.specs.declared.limits.TheConstants.{MAX_DECLARED_VARIABLES};
ghost use Rattle.tp_value.specs.declared.limits.TheConstants.{MAX_PAR_NESTING};
ghost use Rattle.scene_laws.specs.Sites as sites;
ghost use Rattle.block_lower.specs.Writing as writing;
ghost use Rattle.block_lower.specs.Writing.{Pushes};
ghost use Rattle.tp_value.specs.declared.limits.TheConstants.{REGISTERS};
ghost use Rattle.block_lower.specs.Conforming.{Conforms};

use crate::layout::{bound_cell, rec_cell};
use crate::lowering::Lowering;
use crate::round::Round;
use expr_lower::{Scope, offset_of, table_number};
use handler_gen::CUT;
use loop_syntax::{Carry, ParLoop, Reduce, RowAt};
use std::alloc::Global;
use tp_value::{Items, NoMemory, Op};
use tpal_syntax::{CarryAt, Instr, LoopSite, Value};

/// The register with the place of a cut.
const AT: u8 = 0;

/// The register with the row of the first carry.
const FIRST_ROW: u8 = 1;

/// The register with the row of the carry before which so many stand.
fn row_register(before: usize) -> u8
    requires { before ≤ MAX_CARRIES }
    ensures { result ≡ sites.row_register before }
{
    FIRST_ROW + before as u8
}

/// A carry in the code, before which so many stand.
fn carry_at(scope: &Scope, carry: &Carry, before: usize) -> CarryAt
    requires few_tables { length scope.now.tables.items ≤ MAX_TABLES }
    requires few { before ≤ MAX_CARRIES }
    ensures { result ≡ sites.carry_at scope.now before carry.now }
{
    match carry {
        Carry::Rows(t, _) => CarryAt::Rows {
            table: table_number(scope, &t.text),
            at: AT,
        },
        Carry::Cells(t, _, _) => CarryAt::Cells {
            table: table_number(scope, &t.text),
            row: row_register(before),
            at: AT,
        },
    }
}

/// Carries in the code.
fn carries_at(alloc: Global, scope: &Scope, list: &[Carry]) -> Result<Vec<CarryAt>, NoMemory>
    requires few_tables { length scope.now.tables.items ≤ MAX_TABLES }
    requires few { length list.now ≤ MAX_CARRIES }
    ensures { IfOk result (λ all. all.items ≡ sites.carries_from scope.now 0 list.now) }
{
    let mut all = Vec::new(alloc);
    for (before, carry) in list.iter().enumerate() {
        all.push(carry_at(scope, carry, before))?;
    }
    Ok(all)
}

/// The cells of variables that are reduced, with their operators.
fn accs_at(alloc: Global, scope: &Scope, list: &[Reduce]) -> Result<Vec<(u16, Op)>, NoMemory>
    ensures { IfOk result (λ all. all.items ≡ sites.accs_of scope.now list.now) }
{
    let mut all = Vec::new(alloc);
    for reduce in list {
        all.push((offset_of(scope, &reduce.target.text), reduce.op))?;
    }
    Ok(all)
}

impl Lowering {
    /// The site of a `par` at a label, whose next iteration that isn't begun is in a cell.
    pub fn site_of(
        &self,
        round: Round,
        l: &ParLoop,
        label: u32,
        cursor: u16,
    ) -> Result<LoopSite, NoMemory>
        requires few_tables { length self.now.scope.tables.items ≤ MAX_TABLES }
        requires few_carries { length l.now.carries.items ≤ MAX_CARRIES }
        requires depth { round.depth < MAX_PAR_NESTING }
        requires cells { length self.now.scope.cells.items ≤ MAX_DECLARED_VARIABLES }
        ensures { IfOk result
            (λ site. site
            ≡ sites.loop_site self.now.scope l.now self.now.on.size round.entry.depth
            (length self.now.scope.cells.items) cursor label) }
    {
        let level = self.level();
        let accs = accs_at(self.alloc, &self.scope, &l.reduces)?;
        let carries = carries_at(self.alloc, &self.scope, &l.carries)?;
        Ok(LoopSite {
            label,
            cells: self.on.size,
            cursor,
            bound: bound_cell(level),
            rec: rec_cell(round.depth),
            mark: bound_cell(level),
            accs: Items::new(accs),
            carries: Items::new(carries),
        })
    }

    /// The row of a carry, in a register: a number, or a variable of the activation that is cut.
    fn push_row(&mut self, row: &RowAt, to: u8) -> Result<(), NoMemory>
        ensures pushed { OnOk result
            (Pushes (sites.row_load self.old.scope to row.now ∷ []) self.old.out self.new.out) }
        ensures labels { OnOk result
            (writing.next_label self.new.out ≡ writing.next_label self.old.out) }
        ensures on { OnOk result (self.new.on ≡ self.old.on) }
        ensures scope { OnOk result (self.new.scope ≡ self.old.scope) }
        ensures fit { OnOk result (to < REGISTERS → Conforms self.old → Conforms self.new) }
    {
        match row {
            RowAt::Int(number) => self.push(Instr::Move {
                to,
                value: Value::Int(*number),
            }),
            RowAt::Var(x) => {
                let off = self.offset(x);
                self.push(Instr::Load { to, base: CUT, off })
            }
        }
    }

    /// The row of a carry, before which so many stand, in its register, where it has one.
    fn push_row_of(&mut self, carry: &Carry, before: usize) -> Result<(), NoMemory>
        requires { before ≤ MAX_CARRIES }
        ensures pushed { OnOk result
            (Pushes (sites.rows_from self.old.scope before (carry.now ∷ [])) self.old.out
            self.new.out) }
        ensures labels { OnOk result
            (writing.next_label self.new.out ≡ writing.next_label self.old.out) }
        ensures on { OnOk result (self.new.on ≡ self.old.on) }
        ensures scope { OnOk result (self.new.scope ≡ self.old.scope) }
        ensures fit { OnOk result (Conforms self.old → Conforms self.new) }
    {
        match carry {
            Carry::Rows(_, _) => Ok(()),
            Carry::Cells(_, row, _) => self.push_row(row, row_register(before)),
        }
    }

    /// The rows of carries, each in its register.
    pub fn push_rows(&mut self, carries: &[Carry]) -> Result<(), NoMemory>
        requires { length carries.now ≤ MAX_CARRIES }
        ensures pushed { OnOk result
            (Pushes (sites.rows_from self.old.scope 0 carries.now) self.old.out self.new.out) }
        ensures labels { OnOk result
            (writing.next_label self.new.out ≡ writing.next_label self.old.out) }
        ensures on { OnOk result (self.new.on ≡ self.old.on) }
        ensures scope { OnOk result (self.new.scope ≡ self.old.scope) }
        ensures fit { OnOk result (Conforms self.old → Conforms self.new) }
    {
        for (before, carry) in carries.iter().enumerate() {
            self.push_row_of(carry, before)?;
        }
        Ok(())
    }
}
