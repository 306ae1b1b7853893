// A code that is being written, with what its statements stand on.

ghost use Rattle.std.specs.Prelude.{◌≡◌, ◌+◌, ◌<◌, ◌≤◌, ◌^◌, ◌++◌, ◌∷◌, [], length, take, OnOk};
ghost use Rattle.std.specs.Prelude.{IfOk, IsTrue, slice_get};
ghost use Rattle.tp_value.specs.declared.limits.TheConstants.{MAX_BLOCKS};
ghost use Rattle.tp_value.specs.declared.limits.TheConstants.{MAX_EXPRESSION_HEIGHT};
ghost use Rattle.tp_value.specs.declared.limits.TheConstants.{MAX_TABLES, MAX_ACTIVATION_CELLS};
ghost use Rattle.tp_value.specs.declared.limits.TheConstants.{MAX_DECLARED_VARIABLES};
ghost use Rattle.tp_value.specs.declared.limits.TheConstants.{MAX_PARAMETERS, REGISTERS};
ghost use Rattle.loop_rules.specs.Limits.{height};
ghost use Rattle.expr_lower.specs.Bodies.{trap_count};
ghost use Rattle.expr_lower.specs.Nodes.{IsNode, operation_height, operation_traps};
ghost use Rattle.expr_lower.specs.Registers.{base_register};
ghost use Rattle.loop_syntax.specs.declared.Expr.{Expr};
ghost use Rattle.tpal_syntax.specs.Conditions.{IsHandler};
ghost use Rattle.tpal_syntax.specs.Parts.{is_instr, is_place, is_term};
ghost use Rattle.tpal_syntax.specs.Listing.{Listing};
ghost use Rattle.expr_lower.specs.Fitting.{CanBeNamed};
ghost use Rattle.scene_laws.specs.Code as codes;
ghost use Rattle.block_lower.specs.Conforming.{AreBlocksRound, AreNamed, Conforms, IsAround};
ghost use Rattle.block_lower.specs.Conforming.{IsKnown, IsOperand, blocks_of};
ghost use Rattle.block_lower.specs.Lowering.{WritesOperand, WritesValue};
ghost use Rattle.block_lower.specs.Writing as writing;
ghost use Rattle.block_lower.specs.Writing.{IsEmpty, IsFresh, Pushes, Traps, Closes, Appends};
ghost use Rattle.block_lower.specs.Writing.{Readies};
ghost use Rattle.expr_lower.specs.Scopes.{offset_of, register_of, table_number};
ghost use Rattle.block_lower.specs.Bodies.{HasRoomFor};
ghost use Rattle.scene_laws.specs.Layout.{value_cell};
ghost use Rattle.scene_laws.specs.Names.{SeesAfter};

use crate::body::{Body, kept_cell, parameter_cell};
use crate::output::{Output, close, next_label, push, push_operation, push_trap_block, push_value};
use crate::scope::{declare, leave};
use expr_lower::{BASE, Operation, Scope, home_of, literal, offset_of, register_of, table_number};
use loop_syntax::{Expr, Name};
use std::alloc::Global;
use tp_value::{NoMemory, Place, TrapKind};
use tpal_syntax::{Alu, Block, Instr, Note, Term, Value};

/// A code that is being written, with what its statements stand on.
#[derive(Drop)]
pub struct Lowering {
    /// Where memory comes from.
    pub alloc: Global,
    /// The code so far.
    pub out: Output,
    /// The variables that are visible, and the tables.
    pub scope: Scope,
    /// The functions, and the activation of the running one.
    pub on: Body,
}

/// A jump to a label.
pub fn jump(label: u32) -> Term
    ensures { result ≡ codes.to label }
{
    Term::Jump(Value::Label(label))
}

impl Lowering {
    /// How many variables are visible.
    pub fn level(&self) -> usize
        ensures { result ≡ length self.now.scope.cells.items }
    {
        self.scope.cells.len()
    }

    /// The label of the block that is opened when the open one is closed.
    pub fn next_label(&self) -> u32
        requires { writing.next_label self.now.out < 2 ^ 32 }
        ensures { result ≡ writing.next_label self.now.out }
    {
        next_label(&self.out)
    }

    /// Appends an instruction to the open block.
    pub fn push(&mut self, instr: Instr) -> Result<(), NoMemory>
        ensures pushed { OnOk result (Pushes (instr ∷ []) self.old.out self.new.out) }
        ensures labels { OnOk result
            (writing.next_label self.new.out ≡ writing.next_label self.old.out) }
        ensures on { OnOk result (self.new.on ≡ self.old.on) }
        ensures scope { OnOk result (self.new.scope ≡ self.old.scope) }
        ensures fit { OnOk result
            (IsTrue (is_instr self.old.on.tables (blocks_of self.old.on) instr)
            → Conforms self.old → Conforms self.new) }
    {
        push(&mut self.out, instr)
    }

    /// Appends a calculation.
    pub fn calc(&mut self, to: u8, left: u8, alu: Alu, right: Value) -> Result<(), NoMemory>
        ensures pushed { OnOk result
            (Pushes (Instr.Calc to left alu right ∷ []) self.old.out self.new.out) }
        ensures labels { OnOk result
            (writing.next_label self.new.out ≡ writing.next_label self.old.out) }
        ensures on { OnOk result (self.new.on ≡ self.old.on) }
        ensures scope { OnOk result (self.new.scope ≡ self.old.scope) }
        ensures fit { OnOk result
            (to < REGISTERS → left < REGISTERS → IsOperand self.old.on right → Conforms self.old
            → Conforms self.new) }
    {
        self.push(Instr::Calc {
            to,
            left,
            alu,
            right,
        })
    }

    /// Appends a jump to a label where the number in a register isn't 0.
    pub fn jump_if(&mut self, test: u8, label: u32) -> Result<(), NoMemory>
        ensures pushed { OnOk result
            (Pushes (Instr.IfJump test label ∷ []) self.old.out self.new.out) }
        ensures labels { OnOk result
            (writing.next_label self.new.out ≡ writing.next_label self.old.out) }
        ensures on { OnOk result (self.new.on ≡ self.old.on) }
        ensures scope { OnOk result (self.new.scope ≡ self.old.scope) }
        ensures fit { OnOk result
            (test < REGISTERS → label < blocks_of self.old.on → Conforms self.old
            → Conforms self.new) }
    {
        self.push(Instr::IfJump { test, label })
    }

    /// Writes a cell of the activation.
    pub fn store(&mut self, off: u16, value: Value) -> Result<(), NoMemory>
        ensures pushed { OnOk result
            (Pushes (codes.store off value ∷ []) self.old.out self.new.out) }
        ensures labels { OnOk result
            (writing.next_label self.new.out ≡ writing.next_label self.old.out) }
        ensures on { OnOk result (self.new.on ≡ self.old.on) }
        ensures scope { OnOk result (self.new.scope ≡ self.old.scope) }
        ensures fit { OnOk result
            (off < MAX_ACTIVATION_CELLS → IsOperand self.old.on value → Conforms self.old
            → Conforms self.new) }
    {
        self.push(Instr::Store {
            base: BASE,
            off,
            value,
        })
    }

    /// Reads a cell of the activation.
    pub fn load(&mut self, to: u8, off: u16) -> Result<(), NoMemory>
        ensures pushed { OnOk result (Pushes (codes.load to off ∷ []) self.old.out self.new.out) }
        ensures labels { OnOk result
            (writing.next_label self.new.out ≡ writing.next_label self.old.out) }
        ensures on { OnOk result (self.new.on ≡ self.old.on) }
        ensures scope { OnOk result (self.new.scope ≡ self.old.scope) }
        ensures fit { OnOk result
            (to < REGISTERS → off < MAX_ACTIVATION_CELLS → Conforms self.old → Conforms self.new) }
    {
        self.push(Instr::Load {
            to,
            base: BASE,
            off,
        })
    }

    /// Sets the mark of a cell of the activation, which a block cuts.
    pub fn push_mark(&mut self, off: u16, split: u32) -> Result<(), NoMemory>
        ensures pushed { OnOk result
            (Pushes (Instr.PrmPush base_register off self.old.on.size split ∷ []) self.old.out
            self.new.out) }
        ensures labels { OnOk result
            (writing.next_label self.new.out ≡ writing.next_label self.old.out) }
        ensures on { OnOk result (self.new.on ≡ self.old.on) }
        ensures scope { OnOk result (self.new.scope ≡ self.old.scope) }
        ensures fit { OnOk result
            (off < MAX_ACTIVATION_CELLS → split < blocks_of self.old.on → Conforms self.old
            → Conforms self.new) }
    {
        let cells = self.on.size;
        self.push(Instr::PrmPush {
            base: BASE,
            off,
            cells,
            split,
        })
    }

    /// Takes the mark of a cell of the activation away, if any.
    pub fn pop_mark(&mut self, off: u16) -> Result<(), NoMemory>
        ensures pushed { OnOk result
            (Pushes (Instr.PrmPop base_register off ∷ []) self.old.out self.new.out) }
        ensures labels { OnOk result
            (writing.next_label self.new.out ≡ writing.next_label self.old.out) }
        ensures on { OnOk result (self.new.on ≡ self.old.on) }
        ensures scope { OnOk result (self.new.scope ≡ self.old.scope) }
        ensures fit { OnOk result
            (off < MAX_ACTIVATION_CELLS → Conforms self.old → Conforms self.new) }
    {
        self.push(Instr::PrmPop { base: BASE, off })
    }

    /// Appends the instructions that leave an expression's value in a register.
    pub fn value(&mut self, expr: &Expr, to: u8) -> Result<(), NoMemory>
        requires few_tables { length self.old.scope.tables.items ≤ MAX_TABLES }
        requires registers { to + height expr.now ≤ MAX_EXPRESSION_HEIGHT }
        requires labels { writing.next_label self.old.out + trap_count expr.now ≤ MAX_BLOCKS }
        ensures labels { OnOk result
            (writing.next_label self.new.out
            ≡ writing.next_label self.old.out + trap_count expr.now) }
        ensures code { OnOk result
            (WritesValue self.old.scope expr.now to self.old.out self.new.out) }
        ensures on { OnOk result (self.new.on ≡ self.old.on) }
        ensures scope { OnOk result (self.new.scope ≡ self.old.scope) }
        ensures fit { OnOk result
            (IsKnown self.old.scope expr.now
            → writing.next_label self.new.out ≤ blocks_of self.old.on → Conforms self.old
            → Conforms self.new) }
    {
        push_value(self.alloc, &mut self.out, &self.scope, expr, to)
    }

    /// Appends the instructions that leave the value of an operation in a register.
    pub fn operation(&mut self, operation: Operation, to: u8) -> Result<(), NoMemory>
        requires few_tables { length self.old.scope.tables.items ≤ MAX_TABLES }
        requires registers { to + operation_height operation ≤ MAX_EXPRESSION_HEIGHT }
        requires labels { writing.next_label self.old.out + operation_traps operation
            ≤ MAX_BLOCKS }
        ensures labels { OnOk result
            (writing.next_label self.new.out
            ≡ writing.next_label self.old.out + operation_traps operation.entry) }
        ensures code { OnOk result
            ((e : Expr) → IsNode operation.entry e
            → WritesValue self.old.scope e to self.old.out self.new.out) }
        ensures on { OnOk result (self.new.on ≡ self.old.on) }
        ensures scope { OnOk result (self.new.scope ≡ self.old.scope) }
        ensures fit { OnOk result
            ((e : Expr)
            → IsNode operation.entry e
            → IsKnown self.old.scope e
            → writing.next_label self.new.out ≤ blocks_of self.old.on
            → Conforms self.old
            → Conforms self.new) }
    {
        push_operation(self.alloc, &mut self.out, &self.scope, operation, to)
    }

    /// The operand that is an expression's value: a number where it is a literal, the register of a
    /// variable that stands in one, else a register, in which instructions leave it.
    pub fn operand(&mut self, expr: &Expr, to: u8) -> Result<Value, NoMemory>
        requires few_tables { length self.old.scope.tables.items ≤ MAX_TABLES }
        requires registers { to + height expr.now ≤ MAX_EXPRESSION_HEIGHT }
        requires labels { writing.next_label self.old.out + trap_count expr.now ≤ MAX_BLOCKS }
        ensures labels { OnOk result
            (writing.next_label self.new.out ≡ writing.next_label self.old.out + trap_count
            expr.now) }
        ensures code { IfOk result (λ value. WritesOperand self.old.scope expr.now to
            value self.old.out self.new.out) }
        ensures on { OnOk result (self.new.on ≡ self.old.on) }
        ensures scope { OnOk result (self.new.scope ≡ self.old.scope) }
        ensures fit { OnOk result
            (IsKnown self.old.scope expr.now
            → writing.next_label self.new.out ≤ blocks_of self.old.on → Conforms self.old
            → Conforms self.new) }
        ensures operand { IfOk result
            (λ value. CanBeNamed self.old.on.tables self.old.scope → IsOperand self.old.on value) }
    {
        match literal(expr) {
            Some(number) => Ok(Value::Int(number)),
            None => match home_of(&self.scope, expr) {
                Some(register) => Ok(Value::Reg(register)),
                None => {
                    self.value(expr, to)?;
                    Ok(Value::Reg(to))
                }
            },
        }
    }

    /// Appends a block that traps to those behind the open block.
    pub fn trap_block(&mut self, kind: TrapKind, place: Place) -> Result<(), NoMemory>
        requires labels { writing.next_label self.old.out ≤ MAX_BLOCKS }
        ensures traps { OnOk result (Traps kind place self.old.out self.new.out) }
        ensures labels { OnOk result
            (writing.next_label self.new.out ≡ writing.next_label self.old.out + 1) }
        ensures on { OnOk result (self.new.on ≡ self.old.on) }
        ensures scope { OnOk result (self.new.scope ≡ self.old.scope) }
        ensures fit { OnOk result
            (IsTrue (is_place place) → Conforms self.old → Conforms self.new) }
    {
        push_trap_block(self.alloc, &mut self.out, kind, place)
    }

    /// Closes the open block, and opens the next one.
    pub fn close(&mut self, term: Term) -> Result<(), NoMemory>
        requires labels { writing.next_label self.old.out ≤ MAX_BLOCKS }
        ensures closed { OnOk result (Closes term self.old.out self.new.out) }
        ensures labels { OnOk result
            (writing.next_label self.new.out ≡ writing.next_label self.old.out + 1) }
        ensures on { OnOk result (self.new.on ≡ self.old.on) }
        ensures scope { OnOk result (self.new.scope ≡ self.old.scope) }
        ensures fit { OnOk result
            (IsTrue (is_term (blocks_of self.old.on) term) → Conforms self.old
            → Conforms self.new) }
    {
        close(self.alloc, &mut self.out, term)
    }

    /// Makes the open block, in which nothing is written, a promotion-ready one, from which a beat
    /// goes to a label.
    pub fn make_ready(&mut self, to: u32)
        requires empty { IsEmpty self.old.out }
        ensures ready { Readies to self.old.out self.new.out }
        ensures labels { writing.next_label self.new.out ≡ writing.next_label self.old.out }
        ensures on { self.new.on ≡ self.old.on }
        ensures scope { self.new.scope ≡ self.old.scope }
        ensures fit { ((code : Listing)
            → IsAround self.old.on self.old.out.blocks.items code
            → IsHandler (slice_get code.blocks to))
            → Conforms self.old
            → Conforms self.new }
    {
        self.out.note = Note::Ready(to);
    }

    /// Appends closed blocks in the place of the open one, in which nothing is written.
    pub fn append(&mut self, mut blocks: Vec<Block>) -> Result<(), NoMemory>
        requires fresh { IsFresh self.old.out }
        ensures appended { OnOk result (Appends blocks.items self.old.out self.new.out) }
        ensures on { OnOk result (self.new.on ≡ self.old.on) }
        ensures scope { OnOk result (self.new.scope ≡ self.old.scope) }
        ensures fit { OnOk result
            (AreNamed (writing.label self.old.out) blocks.items
            → AreBlocksRound self.old.on (self.old.out.blocks.items ++ blocks.items) blocks.items
            → Conforms self.old
            → Conforms self.new) }
    {
        self.out.blocks.append(&mut blocks)?;
        Ok(())
    }

    /// Makes a variable visible.
    pub fn declare(&mut self, x: &Name) -> Result<(), NoMemory>
        requires cells { length self.old.scope.cells.items < MAX_DECLARED_VARIABLES }
        ensures sees { OnOk result
            (SeesAfter (λ names. names ++ x.now.text.items ∷ []) self.old.scope self.new.scope) }
        ensures cells { OnOk result
            (length self.new.scope.cells.items ≡ length self.old.scope.cells.items + 1) }
        ensures tables { OnOk result (self.new.scope.tables ≡ self.old.scope.tables) }
        ensures regs { OnOk result (self.new.scope.regs ≡ self.old.scope.regs) }
        ensures on { OnOk result (self.new.on ≡ self.old.on) }
        ensures out { OnOk result (self.new.out ≡ self.old.out) }
        ensures fit { OnOk result (Conforms self.old → Conforms self.new) }
    {
        declare(self.alloc, &mut self.scope, &x.text)
    }

    /// Leaves the first variables visible.
    pub fn leave(&mut self, level: usize)
        ensures sees { SeesAfter (take level) self.old.scope self.new.scope }
        ensures cells { length self.new.scope.cells.items ≤ level }
        ensures tables { self.new.scope.tables ≡ self.old.scope.tables }
        ensures regs { self.new.scope.regs ≡ self.old.scope.regs }
        ensures on { self.new.on ≡ self.old.on }
        ensures out { self.new.out ≡ self.old.out }
        ensures fit { Conforms self.old → Conforms self.new }
    {
        leave(&mut self.scope, level);
    }

    /// The cell of a variable.
    pub fn offset(&self, x: &Name) -> u16
        ensures { result ≡ offset_of self.now.scope x.now.text.items }
    {
        offset_of(&self.scope, &x.text)
    }

    /// The register of a variable, where it stands in one.
    pub fn register(&self, x: &Name) -> Option<u8>
        ensures { result ≡ register_of self.now.scope x.now.text.items }
    {
        register_of(&self.scope, &x.text)
    }

    /// The number of a table.
    pub fn table(&self, t: &Name) -> u8
        requires { length self.now.scope.tables.items ≤ MAX_TABLES }
        ensures { result ≡ table_number self.now.scope t.now.text.items }
    {
        table_number(&self.scope, &t.text)
    }

    /// The number of the table that is declared next.
    pub fn next_table(&self) -> u8
        requires { length self.now.scope.tables.items < MAX_TABLES }
        ensures { result ≡ length self.now.scope.tables.items }
    {
        self.scope.tables.len() as u8
    }

    /// The cell of a value that is kept behind the variables.
    pub fn kept_cell(&self, number: u16) -> u16
        requires { HasRoomFor self.now.on (number + 1) }
        ensures { result ≡ value_cell self.now.on.most + number }
    {
        kept_cell(&self.on, number)
    }

    /// The cell of a parameter in the activation that begins behind this one.
    pub fn parameter_cell(&self, number: u16) -> u16
        requires size { self.now.on.size ≤ MAX_ACTIVATION_CELLS }
        requires few { number ≤ MAX_PARAMETERS }
        ensures { result ≡ self.now.on.size + value_cell number }
    {
        parameter_cell(&self.on, number)
    }
}
