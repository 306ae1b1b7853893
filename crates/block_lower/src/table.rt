// The code of statements on tables.

ghost use Rattle.std.specs.Prelude.{◌≡◌, ◌+◌, ◌≤◌, length, OnOk};
ghost use Rattle.tp_value.specs.declared.limits.TheConstants.{MAX_BLOCKS};
ghost use Rattle.tp_value.specs.declared.limits.TheConstants.{MAX_EXPRESSION_HEIGHT, MAX_TABLES};
ghost use Rattle.loop_rules.specs.Limits.{height};
ghost use Rattle.loop_syntax.specs.declared.Stmt;
ghost use Rattle.block_lower.specs.declared.body.Body.{Body};
ghost use Rattle.expr_lower.specs.Bodies.{trap_count};
ghost use Rattle.expr_lower.specs.Scopes.{table_number};
ghost use Rattle.tp_value.specs.declared.Place.{Place};
ghost use Rattle.block_lower.specs.declared.round.Round.{Round};
ghost use Rattle.block_lower.specs.Bodies.{HasRoomFor};
ghost use Rattle.scene_laws.specs.Heights.{IsLow};
ghost use Rattle.block_lower.specs.Lowering.{Lowers, WritesPut};
ghost use Rattle.scene_laws.specs.Sizes as sizes;
ghost use Rattle.block_lower.specs.Writing as writing;
ghost use Rattle.std.specs.Prelude.{◌<◌, IsTrue};
ghost use Rattle.tp_value.specs.declared.limits.TheConstants.{REGISTERS};
ghost use Rattle.tpal_syntax.specs.Parts.{is_place};
ghost use Rattle.expr_lower.specs.Scopes.{HasTable};
ghost use Rattle.block_lower.specs.Conforming.{Conforms, IsKnown, blocks_of};

use crate::lowering::Lowering;
use crate::sizes::is_low_at;
use expr_lower::push_range_tests;
use loop_syntax::{Expr, Name};
use tp_value::{NoMemory, TrapKind};
use tpal_syntax::{Instr, Value};

impl Lowering {
    /// The write of a cell of a table, with the tests of its row and its column, in register 3.
    fn push_put(&mut self, t: &Name, row: u8, col: u8, value: u8) -> Result<(), NoMemory>
        requires few_tables { length self.old.scope.tables.items ≤ MAX_TABLES }
        requires labels { writing.next_label self.old.out ≤ MAX_BLOCKS }
        ensures labels { OnOk result
            (writing.next_label self.new.out ≡ writing.next_label self.old.out + 1) }
        ensures code { OnOk result
            (WritesPut (table_number self.old.scope t.now.text.items) row col value t.now.place
            self.old.out self.new.out) }
        ensures on { OnOk result (self.new.on ≡ self.old.on) }
        ensures scope { OnOk result (self.new.scope ≡ self.old.scope) }
        ensures fit { OnOk result
            (HasTable self.old.scope t.now.text.items → IsTrue (is_place t.now.place)
            → row < REGISTERS → col < REGISTERS → value < REGISTERS
            → writing.next_label self.new.out ≤ blocks_of self.old.on → Conforms self.old
            → Conforms self.new) }
    {
        let table = self.table(t);
        let trap = self.next_label();
        self.trap_block(TrapKind::Index, t.place)?;
        push_range_tests(&mut self.out.body, table, row, col, 3, trap)?;
        self.push(Instr::Put {
            table,
            row,
            col,
            value,
        })?;
        Ok(())
    }

    /// The row, the column and the number stand in registers.
    fn put_low(&mut self, t: &Name, a: &Expr, b: &Expr, e: &Expr) -> Result<(), NoMemory>
        requires few_tables { length self.old.scope.tables.items ≤ MAX_TABLES }
        requires registers { (height a.now ≤ MAX_EXPRESSION_HEIGHT)
            × (1 + height b.now ≤ MAX_EXPRESSION_HEIGHT)
            × (2 + height e.now ≤ MAX_EXPRESSION_HEIGHT) }
        requires labels { writing.next_label self.old.out
            + (trap_count a.now + trap_count b.now + trap_count e.now + 1)
            ≤ MAX_BLOCKS }
        ensures labels { OnOk result
            (writing.next_label self.new.out
            ≡ writing.next_label self.old.out
            + (trap_count a.now + trap_count b.now + trap_count e.now + 1)) }
        ensures code { OnOk result
            ((on : Body) (round : Round)
            → Lowers on round self.old.scope (Stmt.Put t.now a.now b.now e.now)
            self.old.out self.new.out) }
        ensures on { OnOk result (self.new.on ≡ self.old.on) }
        ensures scope { OnOk result (self.new.scope ≡ self.old.scope) }
        ensures fit { OnOk result
            (HasTable self.old.scope t.now.text.items → IsTrue (is_place t.now.place)
            → IsKnown self.old.scope a.now → IsKnown self.old.scope b.now
            → IsKnown self.old.scope e.now
            → writing.next_label self.new.out ≤ blocks_of self.old.on → Conforms self.old
            → Conforms self.new) }
    {
        self.value(a, 0)?;
        self.value(b, 1)?;
        self.value(e, 2)?;
        self.push_put(t, 0, 1, 2)?;
        Ok(())
    }

    /// The row and the column are kept in the activation, since the others need the registers.
    fn put_kept(&mut self, t: &Name, a: &Expr, b: &Expr, e: &Expr) -> Result<(), NoMemory>
        requires few_tables { length self.old.scope.tables.items ≤ MAX_TABLES }
        requires registers { (height a.now ≤ MAX_EXPRESSION_HEIGHT)
            × (height b.now ≤ MAX_EXPRESSION_HEIGHT) × (height e.now ≤ MAX_EXPRESSION_HEIGHT) }
        requires labels { writing.next_label self.old.out
            + (trap_count a.now + trap_count b.now + trap_count e.now + 1)
            ≤ MAX_BLOCKS }
        requires room { HasRoomFor self.old.on 2 }
        ensures labels { OnOk result
            (writing.next_label self.new.out
            ≡ writing.next_label self.old.out
            + (trap_count a.now + trap_count b.now + trap_count e.now + 1)) }
        ensures code { OnOk result
            ((round : Round)
            → Lowers self.old.on round self.old.scope (Stmt.Put t.now a.now b.now e.now)
            self.old.out self.new.out) }
        ensures on { OnOk result (self.new.on ≡ self.old.on) }
        ensures scope { OnOk result (self.new.scope ≡ self.old.scope) }
        ensures fit { OnOk result
            (HasTable self.old.scope t.now.text.items → IsTrue (is_place t.now.place)
            → IsKnown self.old.scope a.now → IsKnown self.old.scope b.now
            → IsKnown self.old.scope e.now
            → writing.next_label self.new.out ≤ blocks_of self.old.on → Conforms self.old
            → Conforms self.new) }
    {
        let row = self.kept_cell(0);
        let col = self.kept_cell(1);
        self.value(a, 0)?;
        self.store(row, Value::Reg(0))?;
        self.value(b, 0)?;
        self.store(col, Value::Reg(0))?;
        self.value(e, 0)?;
        self.load(1, row)?;
        self.load(2, col)?;
        self.push_put(t, 1, 2, 0)?;
        Ok(())
    }

    /// The write of a cell of a table.
    pub fn lower_put(&mut self, t: &Name, a: &Expr, b: &Expr, e: &Expr) -> Result<(), NoMemory>
        requires few_tables { length self.old.scope.tables.items ≤ MAX_TABLES }
        requires low { IsLow a.now × IsLow b.now × IsLow e.now }
        requires labels { writing.next_label self.old.out
            + (trap_count a.now + trap_count b.now + trap_count e.now + 1)
            ≤ MAX_BLOCKS }
        requires room { HasRoomFor self.old.on (sizes.kept (Stmt.Put t.now a.now b.now e.now)) }
        ensures labels { OnOk result
            (writing.next_label self.new.out
            ≡ writing.next_label self.old.out
            + (trap_count a.now + trap_count b.now + trap_count e.now + 1)) }
        ensures code { OnOk result
            ((round : Round)
            → Lowers self.old.on round self.old.scope (Stmt.Put t.now a.now b.now e.now)
            self.old.out self.new.out) }
        ensures on { OnOk result (self.new.on ≡ self.old.on) }
        ensures scope { OnOk result (self.new.scope ≡ self.old.scope) }
        ensures fit { OnOk result
            (HasTable self.old.scope t.now.text.items → IsTrue (is_place t.now.place)
            → IsKnown self.old.scope a.now → IsKnown self.old.scope b.now
            → IsKnown self.old.scope e.now
            → writing.next_label self.new.out ≤ blocks_of self.old.on → Conforms self.old
            → Conforms self.new) }
    {
        if is_low_at(1, b) && is_low_at(2, e) {
            self.put_low(t, a, b, e)
        } else {
            self.put_kept(t, a, b, e)
        }
    }

    /// The lines of a table.
    pub fn lower_emit(&mut self, t: &Name) -> Result<(), NoMemory>
        requires { length self.old.scope.tables.items ≤ MAX_TABLES }
        ensures labels { OnOk result
            (writing.next_label self.new.out ≡ writing.next_label self.old.out) }
        ensures code { OnOk result
            ((on : Body) (round : Round) (place : Place)
            → Lowers on round self.old.scope (Stmt.Emit place t.now) self.old.out
            self.new.out) }
        ensures on { OnOk result (self.new.on ≡ self.old.on) }
        ensures scope { OnOk result (self.new.scope ≡ self.old.scope) }
        ensures fit { OnOk result
            (HasTable self.old.scope t.now.text.items → Conforms self.old → Conforms self.new) }
    {
        let table = self.table(t);
        self.push(Instr::Emit(table))?;
        Ok(())
    }
}
