// The code of statements.

ghost use Rattle.std.specs.Prelude.{◌≡◌, ◌+◌, ◌<◌, ◌≤◌, ◌++◌, ◌∷◌, [], length, Some, OnOk};
ghost use Rattle.tp_value.specs.declared.limits.TheConstants.{MAX_BLOCKS, MAX_DECLARED_VARIABLES};
ghost use Rattle.tp_value.specs.declared.limits.TheConstants.{MAX_EXPRESSION_HEIGHT, MAX_TABLES};
ghost use Rattle.tp_value.specs.declared.Place.{Place};
ghost use Rattle.loop_rules.specs.Limits.{height};
ghost use Rattle.expr_lower.specs.Bodies.{trap_count};
ghost use Rattle.loop_rules.specs.Names.{operator_of};
ghost use Rattle.block_lower.specs.declared.body.Body.{Body};
ghost use Rattle.block_lower.specs.declared.round.Round.{Round};
ghost use Rattle.tp_value.specs.declared.limits.TheConstants.{MAX_ACTIVATION_CELLS};
ghost use Rattle.block_lower.specs.Bodies.{HasRoomFor};
ghost use Rattle.block_lower.specs.Conforming.{Conforms, IsKnown, IsOperand, blocks_of};
ghost use Rattle.scene_laws.specs.Heights.{AreLow, AllAreLow};
ghost use Rattle.block_lower.specs.Lowering.{Lowers, WithBody, LowersAll, LowersBranch};
ghost use Rattle.block_lower.specs.Lowering.{LowersOther, FitsIn, WritesChoice, WritesTest};
ghost use Rattle.block_lower.specs.Lowering.{folded_in_cell};
ghost use Rattle.scene_laws.specs.Names.{SeesAfter, names_after, names_after_list};
ghost use Rattle.scene_laws.specs.Opposite.{branch_blocks, opposite};
ghost use Rattle.scene_laws.specs.Sizes as sizes;
ghost use Rattle.block_lower.specs.Writing as writing;
ghost use Rattle.block_lower.specs.Writing.{IsFresh, Pushes};

use crate::layout::value_cell;
use crate::lowering::{Lowering, jump};
use crate::opposite::{branch_blocks, opposite};
use crate::round::Round;
use crate::sizes::{added_by_list, added_by_second};
use expr_lower::trap_count;
use join_gen::alu_of;
use loop_syntax::{Expr, Name, Reduce, Stmt};
use tp_value::{NoMemory, Op};
use tpal_syntax::{Alu, Instr, Value};

/// The operator that a reduce list gives to a variable.
fn operator_of(reduces: &[Reduce], name: &[u8]) -> Option<Op>
    ensures { result ≡ operator_of reduces.now name.now }
{
    for reduce in reduces {
        if reduce.target.text.as_slice() == name {
            return Some(reduce.op);
        }
    }
    None
}

impl Lowering {
    fn lower_let(&mut self, x: &Name, e: &Expr) -> Result<(), NoMemory>
        requires few_tables { length self.old.scope.tables.items ≤ MAX_TABLES }
        requires registers { height e.now ≤ MAX_EXPRESSION_HEIGHT }
        requires labels { writing.next_label self.old.out + trap_count e.now ≤ MAX_BLOCKS }
        requires cells { length self.old.scope.cells.items < MAX_DECLARED_VARIABLES }
        ensures labels { OnOk result
            (writing.next_label self.new.out ≡ writing.next_label self.old.out + trap_count e.now) }
        ensures cells { OnOk result
            (length self.new.scope.cells.items ≡ length self.old.scope.cells.items + 1) }
        ensures tables { OnOk result (self.new.scope.tables ≡ self.old.scope.tables) }
        ensures regs { OnOk result (self.new.scope.regs ≡ self.old.scope.regs) }
        ensures sees { OnOk result
            (SeesAfter (λ names. names ++ x.now.text.items ∷ []) self.old.scope self.new.scope) }
        ensures code { OnOk result
            ((on : Body) (round : Round)
            → Lowers on round self.old.scope (Stmt.Let x.now e.now) self.old.out
            self.new.out) }
        ensures on { OnOk result (self.new.on ≡ self.old.on) }
        ensures fit { OnOk result
            (IsKnown self.old.scope e.now
            → writing.next_label self.new.out ≤ blocks_of self.old.on → Conforms self.old
            → Conforms self.new) }
    {
        let cell = value_cell(self.level());
        let value = self.operand(e, 0)?;
        self.store(cell, value)?;
        self.declare(x)?;
        Ok(())
    }

    fn lower_set(&mut self, x: &Name, e: &Expr) -> Result<(), NoMemory>
        requires few_tables { length self.old.scope.tables.items ≤ MAX_TABLES }
        requires registers { height e.now ≤ MAX_EXPRESSION_HEIGHT }
        requires labels { writing.next_label self.old.out + trap_count e.now ≤ MAX_BLOCKS }
        ensures labels { OnOk result
            (writing.next_label self.new.out ≡ writing.next_label self.old.out + trap_count e.now) }
        ensures code { OnOk result
            ((on : Body) (round : Round)
            → Lowers on round self.old.scope (Stmt.Set x.now e.now) self.old.out
            self.new.out) }
        ensures on { OnOk result (self.new.on ≡ self.old.on) }
        ensures scope { OnOk result (self.new.scope ≡ self.old.scope) }
        ensures fit { OnOk result
            (IsKnown self.old.scope e.now
            → writing.next_label self.new.out ≤ blocks_of self.old.on → Conforms self.old
            → Conforms self.new) }
    {
        let cell = self.offset(x);
        let value = self.operand(e, 0)?;
        match self.register(x) {
            Some(to) => self.push(Instr::Move { to, value }),
            None => self.store(cell, value),
        }
    }

    /// A cell gets what an operator makes of it and a value.
    fn fold_in_cell(&mut self, cell: u16, alu: Alu, value: Value) -> Result<(), NoMemory>
        ensures pushed { OnOk result
            (Pushes (folded_in_cell cell alu value) self.old.out self.new.out) }
        ensures labels { OnOk result
            (writing.next_label self.new.out ≡ writing.next_label self.old.out) }
        ensures on { OnOk result (self.new.on ≡ self.old.on) }
        ensures scope { OnOk result (self.new.scope ≡ self.old.scope) }
        ensures fit { OnOk result
            (cell < MAX_ACTIVATION_CELLS → IsOperand self.old.on value → Conforms self.old
            → Conforms self.new) }
    {
        self.load(1, cell)?;
        self.calc(1, 1, alu, value)?;
        self.store(cell, Value::Reg(1))?;
        Ok(())
    }

    /// A variable that is reduced gets what the operator makes of it and a value, in its register
    /// or in its cell.
    fn push_fold(&mut self, x: &Name, e: &Expr, op: Op) -> Result<(), NoMemory>
        requires few_tables { length self.old.scope.tables.items ≤ MAX_TABLES }
        requires registers { height e.now ≤ MAX_EXPRESSION_HEIGHT }
        requires labels { writing.next_label self.old.out + trap_count e.now ≤ MAX_BLOCKS }
        ensures labels { OnOk result
            (writing.next_label self.new.out ≡ writing.next_label self.old.out + trap_count e.now) }
        ensures code { OnOk result
            ((on : Body) (round : Round)
            → operator_of round.reduces.now x.now.text.items ≡ Some op
            → Lowers on round self.old.scope (Stmt.Fold x.now e.now) self.old.out
            self.new.out) }
        ensures on { OnOk result (self.new.on ≡ self.old.on) }
        ensures scope { OnOk result (self.new.scope ≡ self.old.scope) }
        ensures fit { OnOk result
            (IsKnown self.old.scope e.now
            → writing.next_label self.new.out ≤ blocks_of self.old.on → Conforms self.old
            → Conforms self.new) }
    {
        let cell = self.offset(x);
        let value = self.operand(e, 0)?;
        match self.register(x) {
            Some(held) => self.calc(held, held, alu_of(op), value),
            None => self.fold_in_cell(cell, alu_of(op), value),
        }
    }

    /// A variable that the nearest `par` doesn't reduce stays as it is.
    fn lower_fold(&mut self, round: Round, x: &Name, e: &Expr) -> Result<(), NoMemory>
        requires few_tables { length self.old.scope.tables.items ≤ MAX_TABLES }
        requires registers { height e.now ≤ MAX_EXPRESSION_HEIGHT }
        requires labels { writing.next_label self.old.out + trap_count e.now ≤ MAX_BLOCKS }
        ensures labels { OnOk result
            (writing.next_label self.new.out ≡ writing.next_label self.old.out + trap_count e.now) }
        ensures code { OnOk result
            ((on : Body) → Lowers on round.entry self.old.scope (Stmt.Fold
            x.now e.now) self.old.out self.new.out) }
        ensures on { OnOk result (self.new.on ≡ self.old.on) }
        ensures scope { OnOk result (self.new.scope ≡ self.old.scope) }
        ensures fit { OnOk result
            (IsKnown self.old.scope e.now
            → writing.next_label self.new.out ≤ blocks_of self.old.on → Conforms self.old
            → Conforms self.new) }
    {
        match operator_of(round.reduces, &x.text) {
            Some(op) => self.push_fold(x, e, op),
            None => self.value(e, 0),
        }
    }

    fn lower_print(&mut self, e: &Expr) -> Result<(), NoMemory>
        requires few_tables { length self.old.scope.tables.items ≤ MAX_TABLES }
        requires registers { height e.now ≤ MAX_EXPRESSION_HEIGHT }
        requires labels { writing.next_label self.old.out + trap_count e.now ≤ MAX_BLOCKS }
        ensures labels { OnOk result
            (writing.next_label self.new.out ≡ writing.next_label self.old.out + trap_count e.now) }
        ensures code { OnOk result
            ((on : Body) (round : Round) (place : Place)
            → Lowers on round self.old.scope (Stmt.Print place e.now) self.old.out
            self.new.out) }
        ensures on { OnOk result (self.new.on ≡ self.old.on) }
        ensures scope { OnOk result (self.new.scope ≡ self.old.scope) }
        ensures fit { OnOk result
            (IsKnown self.old.scope e.now
            → writing.next_label self.new.out ≤ blocks_of self.old.on → Conforms self.old
            → Conforms self.new) }
    {
        self.value(e, 0)?;
        self.push(Instr::Print(0))?;
        Ok(())
    }

    /// A test at the end of a block: it goes on at the first label where the value isn't 0, else at
    /// the second.
    pub fn test(&mut self, e: &Expr, first: u32, second: u32) -> Result<(), NoMemory>
        requires few_tables { length self.old.scope.tables.items ≤ MAX_TABLES }
        requires registers { height e.now ≤ MAX_EXPRESSION_HEIGHT }
        requires labels { writing.next_label self.old.out + trap_count e.now ≤ MAX_BLOCKS }
        ensures labels { OnOk result
            (writing.next_label self.new.out ≡ writing.next_label self.old.out + trap_count e.now
            + 1) }
        ensures fresh { OnOk result (IsFresh self.new.out) }
        ensures code { OnOk result
            (WritesTest self.old.scope e.now first second self.old.out self.new.out) }
        ensures on { OnOk result (self.new.on ≡ self.old.on) }
        ensures scope { OnOk result (self.new.scope ≡ self.old.scope) }
        ensures fit { OnOk result
            (IsKnown self.old.scope e.now → first < blocks_of self.old.on
            → second < blocks_of self.old.on
            → writing.next_label self.new.out ≤ blocks_of self.old.on → Conforms self.old
            → Conforms self.new) }
    {
        self.value(e, 0)?;
        self.jump_if(0, first)?;
        self.close(jump(second))?;
        Ok(())
    }

    /// The test of an `if`, whose first branch goes on in the open block: in that of the test where
    /// the test has an opposite, else in the one behind it. The second branch has a label.
    fn choice(&mut self, e: &Expr, second: u32) -> Result<(), NoMemory>
        requires few_tables { length self.old.scope.tables.items ≤ MAX_TABLES }
        requires registers { height e.now ≤ MAX_EXPRESSION_HEIGHT }
        requires labels { writing.next_label self.old.out + trap_count e.now ≤ MAX_BLOCKS }
        ensures labels { OnOk result
            (writing.next_label self.new.out
            ≡ writing.next_label self.old.out + trap_count e.now
            + branch_blocks (opposite e.now)) }
        ensures code { OnOk result
            (WritesChoice self.old.scope e.now second self.old.out self.new.out) }
        ensures on { OnOk result (self.new.on ≡ self.old.on) }
        ensures scope { OnOk result (self.new.scope ≡ self.old.scope) }
        ensures fit { OnOk result
            (IsKnown self.old.scope e.now → second < blocks_of self.old.on
            → writing.next_label self.new.out ≤ blocks_of self.old.on → Conforms self.old
            → Conforms self.new) }
    {
        match opposite(e) {
            Some(other) => {
                self.operation(other, 0)?;
                self.jump_if(0, second)?;
            }
            None => {
                let first = self.next_label() + trap_count(e);
                self.test(e, first, second)?;
            }
        }
        Ok(())
    }

    /// Statements that go on at a label, where their block is closed.
    #[cycle(lower)]
    fn lower_branch(&mut self, round: Round, body: &[Stmt], exit: u32) -> Result<(), NoMemory>
        requires few_tables { length self.old.scope.tables.items ≤ MAX_TABLES }
        requires low { AllAreLow body.now }
        requires labels { writing.next_label self.old.out
            + (sizes.added_by_list self.old.on.quiet_calls body.now + 1)
            ≤ MAX_BLOCKS }
        requires room { HasRoomFor self.old.on (sizes.kept_by_list body.now) }
        requires cells { length self.old.scope.cells.items + sizes.declared_by_list body.now
            ≤ MAX_DECLARED_VARIABLES }
        requires fits { FitsIn self.old.on self.old.scope round body.now }
        ensures labels { OnOk result
            (writing.next_label self.new.out
            ≡ writing.next_label self.old.out
            + (sizes.added_by_list self.old.on.quiet_calls body.now + 1)) }
        ensures cells { OnOk result
            (length self.new.scope.cells.items ≤ length self.old.scope.cells.items) }
        ensures tables { OnOk result (self.new.scope.tables ≡ self.old.scope.tables) }
        ensures regs { OnOk result (self.new.scope.regs ≡ self.old.scope.regs) }
        ensures sees { OnOk result (SeesAfter (λ names. names) self.old.scope self.new.scope) }
        ensures fresh { OnOk result (IsFresh self.new.out) }
        ensures code { OnOk result
            (LowersBranch self.old.on round.entry self.old.scope body.now exit
            self.old.out self.new.out) }
        ensures on { OnOk result (self.new.on ≡ self.old.on) }
    {
        let level = self.level();
        self.lower_list(round, body)?;
        self.leave(level);
        self.close(jump(exit))?;
        Ok(())
    }

    /// A second branch, which has no block where it has no statements.
    #[cycle(lower)]
    fn lower_other(&mut self, round: Round, body: &[Stmt], exit: u32) -> Result<(), NoMemory>
        requires few_tables { length self.old.scope.tables.items ≤ MAX_TABLES }
        requires low { AllAreLow body.now }
        requires labels { writing.next_label self.old.out
            + sizes.added_by_second self.old.on.quiet_calls body.now
            ≤ MAX_BLOCKS }
        requires room { HasRoomFor self.old.on (sizes.kept_by_list body.now) }
        requires cells { length self.old.scope.cells.items + sizes.declared_by_list body.now
            ≤ MAX_DECLARED_VARIABLES }
        requires fresh { IsFresh self.old.out }
        requires fits { FitsIn self.old.on self.old.scope round body.now }
        ensures labels { OnOk result
            (writing.next_label self.new.out
            ≡ writing.next_label self.old.out
            + sizes.added_by_second self.old.on.quiet_calls body.now) }
        ensures cells { OnOk result
            (length self.new.scope.cells.items ≤ length self.old.scope.cells.items) }
        ensures tables { OnOk result (self.new.scope.tables ≡ self.old.scope.tables) }
        ensures regs { OnOk result (self.new.scope.regs ≡ self.old.scope.regs) }
        ensures sees { OnOk result (SeesAfter (λ names. names) self.old.scope self.new.scope) }
        ensures fresh { OnOk result (IsFresh self.new.out) }
        ensures code { OnOk result
            (LowersOther self.old.on round.entry self.old.scope body.now exit self.old.out
            self.new.out) }
        ensures on { OnOk result (self.new.on ≡ self.old.on) }
    {
        if body.is_empty() {
            return Ok(());
        }
        self.lower_branch(round, body, exit)?;
        Ok(())
    }

    /// An `if`: the test, and behind it the branches.
    #[cycle(lower)]
    fn lower_if(
        &mut self,
        round: Round,
        e: &Expr,
        body: &[Stmt],
        other: &[Stmt],
    ) -> Result<(), NoMemory>
        requires few_tables { length self.old.scope.tables.items ≤ MAX_TABLES }
        requires low { (height e.now ≤ MAX_EXPRESSION_HEIGHT) × AllAreLow body.now
            × AllAreLow other.now }
        requires labels { writing.next_label self.old.out
            + (trap_count e.now + branch_blocks (opposite e.now)
            + (sizes.added_by_list self.old.on.quiet_calls body.now + 1)
            + sizes.added_by_second self.old.on.quiet_calls other.now)
            ≤ MAX_BLOCKS }
        requires room { HasRoomFor self.old.on (sizes.kept_by_list body.now)
            × HasRoomFor self.old.on (sizes.kept_by_list other.now) }
        requires cells { length self.old.scope.cells.items
            + (sizes.declared_by_list body.now + sizes.declared_by_list other.now)
            ≤ MAX_DECLARED_VARIABLES }
        requires fits { FitsIn self.old.on self.old.scope round body.now
            × FitsIn self.old.on self.old.scope round other.now }
        ensures labels { OnOk result
            (writing.next_label self.new.out
            ≡ writing.next_label self.old.out
            + (trap_count e.now + branch_blocks (opposite e.now)
            + (sizes.added_by_list self.old.on.quiet_calls body.now + 1)
            + sizes.added_by_second self.old.on.quiet_calls other.now)) }
        ensures cells { OnOk result
            (length self.new.scope.cells.items ≤ length self.old.scope.cells.items) }
        ensures tables { OnOk result (self.new.scope.tables ≡ self.old.scope.tables) }
        ensures regs { OnOk result (self.new.scope.regs ≡ self.old.scope.regs) }
        ensures sees { OnOk result (SeesAfter (λ names. names) self.old.scope self.new.scope) }
        ensures code { OnOk result
            (WithBody body.now
            (λ v. WithBody other.now
            (λ w. Lowers self.old.on round.entry self.old.scope (Stmt.If e.now v w)
            self.old.out self.new.out))) }
        ensures on { OnOk result (self.new.on ≡ self.old.on) }
    {
        let first = self.next_label() + trap_count(e) + branch_blocks(e);
        let second = first + added_by_list(self.on.quiet_calls, body);
        let exit = second + added_by_second(self.on.quiet_calls, other);
        self.choice(e, second)?;
        self.lower_branch(round, body, exit)?;
        self.lower_other(round, other, exit)?;
        Ok(())
    }

    /// A statement.
    #[cycle(lower)]
    fn lower_stmt(&mut self, round: Round, s: &Stmt) -> Result<(), NoMemory>
        requires few_tables { length self.old.scope.tables.items ≤ MAX_TABLES }
        requires low { AreLow s.now }
        requires labels { writing.next_label self.old.out
            + sizes.added self.old.on.quiet_calls s.now
            ≤ MAX_BLOCKS }
        requires room { HasRoomFor self.old.on (sizes.kept s.now) }
        requires cells { length self.old.scope.cells.items + sizes.declared s.now
            ≤ MAX_DECLARED_VARIABLES }
        requires fits { FitsIn self.old.on self.old.scope round (s.now ∷ []) }
        ensures labels { OnOk result
            (writing.next_label self.new.out
            ≡ writing.next_label self.old.out + sizes.added self.old.on.quiet_calls s.now) }
        ensures cells { OnOk result
            (length self.new.scope.cells.items ≤ length self.old.scope.cells.items +
            sizes.declared s.now) }
        ensures tables { OnOk result (self.new.scope.tables ≡ self.old.scope.tables) }
        ensures regs { OnOk result (self.new.scope.regs ≡ self.old.scope.regs) }
        ensures sees { OnOk result
            (SeesAfter (λ names. names_after names s.now) self.old.scope self.new.scope) }
        ensures code { OnOk result
            (Lowers self.old.on round.entry self.old.scope s.now self.old.out
            self.new.out) }
        ensures on { OnOk result (self.new.on ≡ self.old.on) }
    {
        match s {
            Stmt::Let(x, e) => self.lower_let(x, e),
            Stmt::Set(x, e) => self.lower_set(x, e),
            Stmt::If(e, body, other) => self.lower_if(round, e, body, other),
            Stmt::While(e, body) => self.lower_while(round, e, body),
            Stmt::Loop(x, a, b, body) => {
                let turns = self.begin_loop(a, b, body)?;
                self.lower_body(round, x, body)?;
                self.end_loop(turns)?;
                Ok(())
            }
            Stmt::Print(_, e) => self.lower_print(e),
            Stmt::Put(t, a, b, e) => self.lower_put(t, a, b, e),
            Stmt::Par(l) => self.lower_par(round, l),
            Stmt::Fold(x, e) => self.lower_fold(round, x, e),
            Stmt::Call(x, f) => self.lower_call(x, f),
            Stmt::Both(x, f, y, g) => self.lower_both(x, f, y, g),
            Stmt::Emit(_, t) => self.lower_emit(t),
            // No program that is lowered has one of these.
            Stmt::Leave(_, _) => unreachable!(),
            Stmt::Fill { .. } => unreachable!(),
        }
    }

    /// The statements of a list in order.
    #[cycle(lower)]
    pub fn lower_list(&mut self, round: Round, body: &[Stmt]) -> Result<(), NoMemory>
        requires few_tables { length self.old.scope.tables.items ≤ MAX_TABLES }
        requires low { AllAreLow body.now }
        requires labels { writing.next_label self.old.out
            + sizes.added_by_list self.old.on.quiet_calls body.now
            ≤ MAX_BLOCKS }
        requires room { HasRoomFor self.old.on (sizes.kept_by_list body.now) }
        requires cells { length self.old.scope.cells.items + sizes.declared_by_list body.now
            ≤ MAX_DECLARED_VARIABLES }
        requires fits { FitsIn self.old.on self.old.scope round body.now }
        ensures labels { OnOk result
            (writing.next_label self.new.out ≡ writing.next_label self.old.out +
            sizes.added_by_list self.old.on.quiet_calls body.now) }
        ensures cells { OnOk result
            (length self.new.scope.cells.items
            ≤ length self.old.scope.cells.items + sizes.declared_by_list body.now) }
        ensures tables { OnOk result (self.new.scope.tables ≡ self.old.scope.tables) }
        ensures regs { OnOk result (self.new.scope.regs ≡ self.old.scope.regs) }
        ensures sees { OnOk result
            (SeesAfter (λ names. names_after_list names body.now) self.old.scope self.new.scope) }
        ensures code { OnOk result
            (LowersAll self.old.on round.entry self.old.scope body.now
            self.old.out self.new.out) }
        ensures on { OnOk result (self.new.on ≡ self.old.on) }
    {
        for s in body {
            self.lower_stmt(round, s)?;
        }
        Ok(())
    }
}
