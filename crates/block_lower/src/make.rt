// The code that makes tables.

ghost use Rattle.std.specs.Prelude.{◌≡◌, ◌+◌, ◌<◌, ◌≤◌, ◌++◌, ◌∷◌, [], length, OnOk, map};
ghost use Rattle.loop_rules.specs.Limits.{height};
ghost use Rattle.expr_lower.specs.Bodies.{trap_count};
ghost use Rattle.block_lower.specs.Bodies.{HasRoomFor};
ghost use Rattle.scene_laws.specs.Heights.{DeclIsLow};
ghost use Rattle.block_lower.specs.Programs.{SeesTables, WritesMakes};
ghost use Rattle.form_laws.specs.Functions.{table_name};
ghost use Rattle.scene_laws.specs.Sizes as sizes;
ghost use Rattle.block_lower.specs.Writing as writing;
ghost use Rattle.block_lower.specs.Writing.{Pushes};
ghost use Rattle.block_lower.specs.declared.body.Body.{Body};
ghost use Rattle.std.specs.List.{AllByRecursion};
ghost use Rattle.tp_value.specs.declared.limits.TheConstants.{MAX_BLOCKS};
ghost use Rattle.tp_value.specs.declared.limits.TheConstants.{MAX_EXPRESSION_HEIGHT, MAX_TABLES};
ghost use Rattle.std.specs.Prelude.{IsTrue};
ghost use Rattle.tp_value.specs.declared.limits.TheConstants.{REGISTERS};
ghost use Rattle.tpal_syntax.specs.Parts.{is_place};
ghost use Rattle.block_lower.specs.Conforming.{Conforms, IsKnown, blocks_of};

use crate::lowering::Lowering;
use crate::sizes::is_low_at;
use loop_syntax::{Expr, Name, TableDecl};
use tp_value::NoMemory;
use tpal_syntax::{Instr, Value};

impl Lowering {
    /// The next table, whose rows and columns stand in two registers.
    fn push_make(&mut self, x: &Name, rows: u8, cols: u8) -> Result<(), NoMemory>
        requires { length self.old.scope.tables.items < MAX_TABLES }
        ensures pushed { OnOk result
            (Pushes
            (Instr.Make (length self.old.scope.tables.items) rows cols x.now.place ∷ [])
            self.old.out self.new.out) }
        ensures labels { OnOk result
            (writing.next_label self.new.out ≡ writing.next_label self.old.out) }
        ensures on { OnOk result (self.new.on ≡ self.old.on) }
        ensures scope { OnOk result (self.new.scope ≡ self.old.scope) }
        ensures fit { OnOk result
            (length self.old.scope.tables.items < self.old.on.tables
            → IsTrue (is_place x.now.place) → rows < REGISTERS → cols < REGISTERS
            → Conforms self.old → Conforms self.new) }
    {
        let table = self.next_table();
        self.push(Instr::Make {
            table,
            rows,
            cols,
            place: x.place,
        })?;
        Ok(())
    }

    /// The next table, whose rows and columns stand in registers 0 and 1.
    fn make_low(&mut self, x: &Name, a: &Expr, b: &Expr) -> Result<(), NoMemory>
        requires few_tables { length self.old.scope.tables.items < MAX_TABLES }
        requires registers { (height a.now ≤ MAX_EXPRESSION_HEIGHT)
            × (1 + height b.now ≤ MAX_EXPRESSION_HEIGHT) }
        requires labels { writing.next_label self.old.out + (trap_count a.now + trap_count b.now)
            ≤ MAX_BLOCKS }
        ensures labels { OnOk result
            (writing.next_label self.new.out
            ≡ writing.next_label self.old.out + (trap_count a.now + trap_count b.now)) }
        ensures code { OnOk result
            ((on : Body)
            → WritesMakes on self.old.scope (TableDecl.Made x.now a.now b.now ∷ []) self.old.out
            self.new.out) }
        ensures on { OnOk result (self.new.on ≡ self.old.on) }
        ensures scope { OnOk result (self.new.scope ≡ self.old.scope) }
        ensures fit { OnOk result
            (length self.old.scope.tables.items < self.old.on.tables
            → IsTrue (is_place x.now.place) → IsKnown self.old.scope a.now
            → IsKnown self.old.scope b.now
            → writing.next_label self.new.out ≤ blocks_of self.old.on → Conforms self.old
            → Conforms self.new) }
    {
        self.value(a, 0)?;
        self.value(b, 1)?;
        self.push_make(x, 0, 1)?;
        Ok(())
    }

    /// The next table. Its rows are kept in the activation, since the columns need the registers.
    fn make_kept(&mut self, x: &Name, a: &Expr, b: &Expr) -> Result<(), NoMemory>
        requires few_tables { length self.old.scope.tables.items < MAX_TABLES }
        requires registers { (height a.now ≤ MAX_EXPRESSION_HEIGHT)
            × (height b.now ≤ MAX_EXPRESSION_HEIGHT) }
        requires labels { writing.next_label self.old.out + (trap_count a.now + trap_count b.now)
            ≤ MAX_BLOCKS }
        requires room { HasRoomFor self.old.on 1 }
        ensures labels { OnOk result
            (writing.next_label self.new.out
            ≡ writing.next_label self.old.out + (trap_count a.now + trap_count b.now)) }
        ensures code { OnOk result
            (WritesMakes self.old.on self.old.scope (TableDecl.Made x.now a.now b.now ∷ [])
            self.old.out self.new.out) }
        ensures on { OnOk result (self.new.on ≡ self.old.on) }
        ensures scope { OnOk result (self.new.scope ≡ self.old.scope) }
        ensures fit { OnOk result
            (length self.old.scope.tables.items < self.old.on.tables
            → IsTrue (is_place x.now.place) → IsKnown self.old.scope a.now
            → IsKnown self.old.scope b.now
            → writing.next_label self.new.out ≤ blocks_of self.old.on → Conforms self.old
            → Conforms self.new) }
    {
        let kept = self.kept_cell(0);
        self.value(a, 0)?;
        self.store(kept, Value::Reg(0))?;
        self.value(b, 0)?;
        self.load(1, kept)?;
        self.push_make(x, 1, 0)?;
        Ok(())
    }

    /// The code of a declaration: an input is there, another table is made.
    fn push_decl(&mut self, d: &TableDecl) -> Result<(), NoMemory>
        requires few_tables { length self.old.scope.tables.items < MAX_TABLES }
        requires low { DeclIsLow d.now }
        requires labels { writing.next_label self.old.out + sizes.added_by_decl d.now ≤ MAX_BLOCKS }
        requires room { HasRoomFor self.old.on (sizes.kept_by_decl d.now) }
        ensures labels { OnOk result
            (writing.next_label self.new.out ≡ writing.next_label self.old.out +
            sizes.added_by_decl d.now) }
        ensures code { OnOk result
            (WritesMakes self.old.on self.old.scope (d.now ∷ []) self.old.out self.new.out) }
        ensures on { OnOk result (self.new.on ≡ self.old.on) }
        ensures scope { OnOk result (self.new.scope ≡ self.old.scope) }
    {
        match d {
            TableDecl::Input(_) => Ok(()),
            TableDecl::Made(x, a, b) => {
                if is_low_at(1, b) {
                    self.make_low(x, a, b)
                } else {
                    self.make_kept(x, a, b)
                }
            }
        }
    }

    /// Makes a table visible, with the next number.
    fn declare_table(&mut self, d: &TableDecl) -> Result<(), NoMemory>
        ensures sees { OnOk result
            (SeesTables (λ tables. tables ++ table_name d.now ∷ []) self.old.scope self.new.scope) }
        ensures cells { OnOk result (self.new.scope.cells ≡ self.old.scope.cells) }
        ensures tables { OnOk result
            (length self.new.scope.tables.items ≡ length self.old.scope.tables.items + 1) }
        ensures on { OnOk result (self.new.on ≡ self.old.on) }
        ensures out { OnOk result (self.new.out ≡ self.old.out) }
    {
        let name = match d {
            TableDecl::Input(x) => x,
            TableDecl::Made(x, _, _) => x,
        };
        let copy = Vec::from_slice(self.alloc, &name.text)?;
        self.scope.tables.push(copy)?;
        Ok(())
    }

    /// The code of declarations in order.
    pub fn push_makes(&mut self, ds: &[TableDecl]) -> Result<(), NoMemory>
        requires few_tables { length self.old.scope.tables.items + length ds.now ≤ MAX_TABLES }
        requires low { AllByRecursion DeclIsLow ds.now }
        requires labels { writing.next_label self.old.out + sizes.added_by_decls ds.now
            ≤ MAX_BLOCKS }
        requires room { HasRoomFor self.old.on (sizes.kept_by_decls ds.now) }
        ensures labels { OnOk result
            (writing.next_label self.new.out ≡ writing.next_label self.old.out +
            sizes.added_by_decls ds.now) }
        ensures cells { OnOk result (self.new.scope.cells ≡ self.old.scope.cells) }
        ensures tables { OnOk result
            (length self.new.scope.tables.items ≡ length self.old.scope.tables.items + length
            ds.now) }
        ensures sees { OnOk result
            (SeesTables (λ tables. tables ++ map table_name ds.now) self.old.scope self.new.scope) }
        ensures code { OnOk result
            (WritesMakes self.old.on self.old.scope ds.now self.old.out self.new.out) }
        ensures on { OnOk result (self.new.on ≡ self.old.on) }
    {
        for d in ds {
            self.push_decl(d)?;
            self.declare_table(d)?;
        }
        Ok(())
    }
}
