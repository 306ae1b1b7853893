// The code of `while` and `loop`: the test stands before the loop, and again at the end of the
// body.

ghost use Rattle.std.specs.Prelude.{◌≡◌, ◌+◌, ◌<◌, ◌≤◌, [], length, OnOk, IfOk};
ghost use Rattle.tp_value.specs.declared.limits.TheConstants.{MAX_BLOCKS, MAX_DECLARED_VARIABLES};
ghost use Rattle.tp_value.specs.declared.limits.TheConstants.{MAX_EXPRESSION_HEIGHT, MAX_TABLES};
ghost use Rattle.loop_rules.specs.Limits.{height};
ghost use Rattle.expr_lower.specs.Bodies.{trap_count};
ghost use Rattle.tp_value.specs.declared.limits.TheConstants.{REGISTERS};
ghost use Rattle.block_lower.specs.Bodies.{HasRoomFor};
ghost use Rattle.block_lower.specs.Conforming.{Conforms, IsKnown, IsOperand, blocks_of};
ghost use Rattle.scene_laws.specs.Code as codes;
ghost use Rattle.scene_laws.specs.Heights.{AllAreLow};
ghost use Rattle.block_lower.specs.Lowering.{Lowers, WithBody, LowersBody, WritesBelow};
ghost use Rattle.block_lower.specs.Lowering.{WritesBounds, WritesStart, WritesBoundedStart};
ghost use Rattle.block_lower.specs.Lowering.{BeginsLoop, EndsLoop, FitsIn, FitsInside};
ghost use Rattle.scene_laws.specs.Names.{SeesAfter};
ghost use Rattle.scene_laws.specs.Sizes as sizes;
ghost use Rattle.block_lower.specs.Writing as writing;
ghost use Rattle.block_lower.specs.Writing.{IsEmpty, IsFresh, Pushes};

use crate::layout::{bound_cell, value_cell};
use crate::lowering::{Lowering, jump};
use crate::round::Round;
use crate::sizes::added_by_body;
use expr_lower::{literal, trap_count};
use loop_syntax::{Expr, Name, Stmt};
use tp_value::NoMemory;
use tpal_syntax::{Alu, Instr, Value};

/// Where the bound of a loop is.
#[derive(Clone, Copy)]
pub enum Bound {
    /// It is a number.
    Number(i64),
    /// The cell behind that of the loop's variable has it.
    Cell,
}

/// How a loop over a variable goes on behind its body.
#[derive(Clone, Copy)]
pub struct Turns {
    /// How many variables are visible before its own.
    pub level: usize,
    /// Where its bound is.
    pub bound: Bound,
    /// The label of the body.
    pub again: u32,
    /// The label behind the loop.
    pub exit: u32,
}

impl Lowering {
    /// A `while`.
    #[cycle(lower)]
    pub fn lower_while(&mut self, round: Round, e: &Expr, body: &[Stmt]) -> Result<(), NoMemory>
        requires few_tables { length self.old.scope.tables.items ≤ MAX_TABLES }
        requires low { (height e.now ≤ MAX_EXPRESSION_HEIGHT) × AllAreLow body.now }
        requires labels { writing.next_label self.old.out
            + (trap_count e.now + 1
            + (sizes.added_by_list self.old.on.quiet_calls body.now + 1) + trap_count e.now)
            ≤ MAX_BLOCKS }
        requires room { HasRoomFor self.old.on (sizes.kept_by_list body.now) }
        requires cells { length self.old.scope.cells.items + sizes.declared_by_list body.now
            ≤ MAX_DECLARED_VARIABLES }
        requires fits { FitsIn self.old.on self.old.scope round body.now }
        ensures labels { OnOk result
            (writing.next_label self.new.out
            ≡ writing.next_label self.old.out
            + (trap_count e.now + 1
            + (sizes.added_by_list self.old.on.quiet_calls body.now + 1) + trap_count e.now)) }
        ensures cells { OnOk result
            (length self.new.scope.cells.items ≤ length self.old.scope.cells.items) }
        ensures tables { OnOk result (self.new.scope.tables ≡ self.old.scope.tables) }
        ensures regs { OnOk result (self.new.scope.regs ≡ self.old.scope.regs) }
        ensures sees { OnOk result (SeesAfter (λ names. names) self.old.scope self.new.scope) }
        ensures fresh { OnOk result (IsFresh self.new.out) }
        ensures code { OnOk result
            (WithBody body.now
            (λ v. Lowers self.old.on round.entry self.old.scope (Stmt.While e.now
            v) self.old.out self.new.out)) }
        ensures on { OnOk result (self.new.on ≡ self.old.on) }
    {
        let level = self.level();
        let again = self.next_label() + trap_count(e);
        let exit = again + added_by_body(self.on.quiet_calls, body) + trap_count(e);
        self.test(e, again, exit)?;
        self.push(Instr::Tick)?;
        self.lower_list(round, body)?;
        self.leave(level);
        self.test(e, again, exit)?;
        Ok(())
    }

    /// The body of a loop over x, in an open block of its own.
    #[cycle(lower)]
    pub fn lower_body(&mut self, round: Round, x: &Name, body: &[Stmt]) -> Result<(), NoMemory>
        requires few_tables { length self.old.scope.tables.items ≤ MAX_TABLES }
        requires low { AllAreLow body.now }
        requires labels { writing.next_label self.old.out
            + sizes.added_by_list self.old.on.quiet_calls body.now
            ≤ MAX_BLOCKS }
        requires room { HasRoomFor self.old.on (sizes.kept_by_list body.now) }
        requires cells { length self.old.scope.cells.items + (sizes.declared_by_list body.now + 1)
            ≤ MAX_DECLARED_VARIABLES }
        requires empty { IsEmpty self.old.out }
        requires fits { FitsInside self.old.on self.old.scope round x.now.text.items body.now }
        ensures labels { OnOk result
            (writing.next_label self.new.out ≡ writing.next_label self.old.out +
            sizes.added_by_list self.old.on.quiet_calls body.now) }
        ensures cells { OnOk result
            (length self.new.scope.cells.items ≤ length self.old.scope.cells.items) }
        ensures tables { OnOk result (self.new.scope.tables ≡ self.old.scope.tables) }
        ensures regs { OnOk result (self.new.scope.regs ≡ self.old.scope.regs) }
        ensures sees { OnOk result (SeesAfter (λ names. names) self.old.scope self.new.scope) }
        ensures code { OnOk result
            (LowersBody self.old.on round.entry self.old.scope x.now.text.items
            body.now self.old.out self.new.out) }
        ensures on { OnOk result (self.new.on ≡ self.old.on) }
    {
        let level = self.level();
        self.declare(x)?;
        self.push(Instr::Tick)?;
        self.lower_list(round, body)?;
        self.leave(level);
        Ok(())
    }

    /// The two bounds of a loop, in the cells of its variable and behind it, and in registers 1 and
    /// 0.
    pub fn bounds(&mut self, a: &Expr, b: &Expr) -> Result<(), NoMemory>
        requires few_tables { length self.old.scope.tables.items ≤ MAX_TABLES }
        requires registers { (height a.now ≤ MAX_EXPRESSION_HEIGHT)
            × (height b.now ≤ MAX_EXPRESSION_HEIGHT) }
        requires labels { writing.next_label self.old.out + (trap_count a.now + trap_count b.now)
            ≤ MAX_BLOCKS }
        requires cells { length self.old.scope.cells.items < MAX_DECLARED_VARIABLES }
        ensures labels { OnOk result
            (writing.next_label self.new.out
            ≡ writing.next_label self.old.out + (trap_count a.now + trap_count b.now)) }
        ensures code { OnOk result
            (WritesBounds self.old.scope a.now b.now self.old.out self.new.out) }
        ensures on { OnOk result (self.new.on ≡ self.old.on) }
        ensures scope { OnOk result (self.new.scope ≡ self.old.scope) }
        ensures fit { OnOk result
            (IsKnown self.old.scope a.now → IsKnown self.old.scope b.now
            → writing.next_label self.new.out ≤ blocks_of self.old.on → Conforms self.old
            → Conforms self.new) }
    {
        let level = self.level();
        self.value(a, 0)?;
        self.store(value_cell(level), Value::Reg(0))?;
        self.value(b, 0)?;
        self.store(bound_cell(level), Value::Reg(0))?;
        self.load(1, value_cell(level))?;
        Ok(())
    }

    /// The test of a loop, whose next number is in a register: at the label `again` where it is
    /// below the bound, else at the exit.
    fn below(&mut self, counter: u8, bound: Value, again: u32, exit: u32) -> Result<(), NoMemory>
        requires { writing.next_label self.old.out ≤ MAX_BLOCKS }
        ensures labels { OnOk result
            (writing.next_label self.new.out ≡ writing.next_label self.old.out + 1) }
        ensures fresh { OnOk result (IsFresh self.new.out) }
        ensures code { OnOk result
            (WritesBelow counter bound again exit self.old.out self.new.out) }
        ensures on { OnOk result (self.new.on ≡ self.old.on) }
        ensures scope { OnOk result (self.new.scope ≡ self.old.scope) }
        ensures fit { OnOk result
            (counter < REGISTERS → IsOperand self.old.on bound → again < blocks_of self.old.on
            → exit < blocks_of self.old.on → Conforms self.old → Conforms self.new) }
    {
        self.calc(0, counter, Alu::Lt, bound)?;
        self.jump_if(0, again)?;
        self.close(jump(exit))?;
        Ok(())
    }

    /// The next number of a loop, in a register and in the cell of the variable of this level.
    fn next_number(&mut self, counter: u8, level: usize) -> Result<(), NoMemory>
        requires { level ≤ MAX_DECLARED_VARIABLES }
        ensures pushed { OnOk result
            (Pushes (codes.step_up counter level []) self.old.out self.new.out) }
        ensures labels { OnOk result
            (writing.next_label self.new.out ≡ writing.next_label self.old.out) }
        ensures on { OnOk result (self.new.on ≡ self.old.on) }
        ensures scope { OnOk result (self.new.scope ≡ self.old.scope) }
        ensures fit { OnOk result (counter < REGISTERS → Conforms self.old → Conforms self.new) }
    {
        self.load(counter, value_cell(level))?;
        self.calc(counter, counter, Alu::Add, Value::Int(1))?;
        self.store(value_cell(level), Value::Reg(counter))?;
        Ok(())
    }

    /// The begin of a `loop` up to a number, before its body.
    fn start(&mut self, a: &Expr, bound: i64, again: u32, exit: u32) -> Result<(), NoMemory>
        requires few_tables { length self.old.scope.tables.items ≤ MAX_TABLES }
        requires registers { height a.now ≤ MAX_EXPRESSION_HEIGHT }
        requires labels { writing.next_label self.old.out + trap_count a.now ≤ MAX_BLOCKS }
        requires cells { length self.old.scope.cells.items < MAX_DECLARED_VARIABLES }
        ensures labels { OnOk result
            (writing.next_label self.new.out
            ≡ writing.next_label self.old.out + trap_count a.now + 1) }
        ensures fresh { OnOk result (IsFresh self.new.out) }
        ensures code { OnOk result
            (WritesStart self.old.scope a.now bound again exit self.old.out self.new.out) }
        ensures on { OnOk result (self.new.on ≡ self.old.on) }
        ensures scope { OnOk result (self.new.scope ≡ self.old.scope) }
        ensures fit { OnOk result
            (IsKnown self.old.scope a.now → again < blocks_of self.old.on
            → exit < blocks_of self.old.on
            → writing.next_label self.new.out ≤ blocks_of self.old.on → Conforms self.old
            → Conforms self.new) }
    {
        let cell = value_cell(self.level());
        self.value(a, 0)?;
        self.store(cell, Value::Reg(0))?;
        self.below(0, Value::Int(bound), again, exit)?;
        Ok(())
    }

    /// The begin of a `loop` up to the value of an expression, before its body.
    fn bounded_start(&mut self, a: &Expr, b: &Expr, again: u32, exit: u32) -> Result<(), NoMemory>
        requires few_tables { length self.old.scope.tables.items ≤ MAX_TABLES }
        requires registers { (height a.now ≤ MAX_EXPRESSION_HEIGHT)
            × (height b.now ≤ MAX_EXPRESSION_HEIGHT) }
        requires labels { writing.next_label self.old.out + (trap_count a.now + trap_count b.now)
            ≤ MAX_BLOCKS }
        requires cells { length self.old.scope.cells.items < MAX_DECLARED_VARIABLES }
        ensures labels { OnOk result
            (writing.next_label self.new.out
            ≡ writing.next_label self.old.out + (trap_count a.now + trap_count b.now + 1)) }
        ensures fresh { OnOk result (IsFresh self.new.out) }
        ensures code { OnOk result
            (WritesBoundedStart self.old.scope a.now b.now again exit self.old.out
            self.new.out) }
        ensures on { OnOk result (self.new.on ≡ self.old.on) }
        ensures scope { OnOk result (self.new.scope ≡ self.old.scope) }
        ensures fit { OnOk result
            (IsKnown self.old.scope a.now → IsKnown self.old.scope b.now
            → again < blocks_of self.old.on → exit < blocks_of self.old.on
            → writing.next_label self.new.out ≤ blocks_of self.old.on → Conforms self.old
            → Conforms self.new) }
    {
        self.bounds(a, b)?;
        self.below(1, Value::Reg(0), again, exit)?;
        Ok(())
    }

    /// The begin of a `loop`, before its body.
    pub fn begin_loop(&mut self, a: &Expr, b: &Expr, body: &[Stmt]) -> Result<Turns, NoMemory>
        requires few_tables { length self.old.scope.tables.items ≤ MAX_TABLES }
        requires registers { (height a.now ≤ MAX_EXPRESSION_HEIGHT)
            × (height b.now ≤ MAX_EXPRESSION_HEIGHT) }
        requires labels { writing.next_label self.old.out
            + (trap_count a.now + trap_count b.now + 1
            + (sizes.added_by_list self.old.on.quiet_calls body.now + 1))
            ≤ MAX_BLOCKS }
        requires cells { length self.old.scope.cells.items < MAX_DECLARED_VARIABLES }
        ensures labels { OnOk result
            (writing.next_label self.new.out
            ≡ writing.next_label self.old.out + (trap_count a.now + trap_count b.now + 1)) }
        ensures fresh { OnOk result (IsFresh self.new.out) }
        ensures level { IfOk result
            (λ turns. turns.level ≡ length self.old.scope.cells.items) }
        ensures again { IfOk result
            (λ turns. turns.again
            ≡ writing.next_label self.old.out + (trap_count a.now + trap_count b.now)) }
        ensures exit { IfOk result
            (λ turns. turns.exit
            ≡ turns.again + (sizes.added_by_list self.old.on.quiet_calls body.now + 1)) }
        ensures code { IfOk result
            (λ turns. BeginsLoop self.old.scope a.now b.now turns.bound turns.again turns.exit
            self.old.out self.new.out) }
        ensures on { OnOk result (self.new.on ≡ self.old.on) }
        ensures scope { OnOk result (self.new.scope ≡ self.old.scope) }
        ensures fit { OnOk result
            (IsKnown self.old.scope a.now → IsKnown self.old.scope b.now
            → writing.next_label self.new.out
            + (sizes.added_by_list self.old.on.quiet_calls body.now + 1)
            ≤ blocks_of self.old.on
            → Conforms self.old → Conforms self.new) }
    {
        let level = self.level();
        let again = self.next_label() + trap_count(a) + trap_count(b);
        let exit = again + added_by_body(self.on.quiet_calls, body);
        match literal(b) {
            Some(number) => {
                self.start(a, number, again, exit)?;
                Ok(Turns {
                    level,
                    bound: Bound::Number(number),
                    again,
                    exit,
                })
            }
            None => {
                self.bounded_start(a, b, again, exit)?;
                Ok(Turns {
                    level,
                    bound: Bound::Cell,
                    again,
                    exit,
                })
            }
        }
    }

    /// The end of a loop, behind its body.
    pub fn end_loop(&mut self, turns: Turns) -> Result<(), NoMemory>
        requires cells { turns.level ≤ MAX_DECLARED_VARIABLES }
        requires labels { writing.next_label self.old.out ≤ MAX_BLOCKS }
        ensures labels { OnOk result
            (writing.next_label self.new.out ≡ writing.next_label self.old.out + 1) }
        ensures fresh { OnOk result (IsFresh self.new.out) }
        ensures code { OnOk result (EndsLoop turns self.old.out self.new.out) }
        ensures on { OnOk result (self.new.on ≡ self.old.on) }
        ensures scope { OnOk result (self.new.scope ≡ self.old.scope) }
        ensures fit { OnOk result
            (turns.again < blocks_of self.old.on → turns.exit < blocks_of self.old.on
            → Conforms self.old → Conforms self.new) }
    {
        match turns.bound {
            Bound::Number(number) => {
                self.next_number(0, turns.level)?;
                self.below(0, Value::Int(number), turns.again, turns.exit)?;
                Ok(())
            }
            Bound::Cell => {
                self.next_number(1, turns.level)?;
                self.load(0, bound_cell(turns.level))?;
                self.below(1, Value::Reg(0), turns.again, turns.exit)?;
                Ok(())
            }
        }
    }
}
