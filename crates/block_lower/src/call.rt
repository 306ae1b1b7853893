// The code of calls. Of two calls the first is marked while it runs: where a beat comes the handler
// of the pair cuts the second off, and its join puts both values together. The handler and the join
// are made from the pair's site; round them stand the blocks of this file.

ghost use Rattle.std.specs.Prelude.{◌≡◌, ℕ, ◌+◌, ◌*◌, ◌<◌, ◌≤◌, ◌∷◌, ◌++◌, [], List, pos, length};
ghost use Rattle.std.specs.Prelude.{IfOk, IsTrue, OnOk};
ghost use Rattle.std.specs.List.{AllByRecursion};
ghost use Rattle.tpal_syntax.specs.Parts.{is_place};
ghost use Rattle.tp_value.specs.declared.limits.TheConstants.{REGISTERS};
ghost use Rattle.tp_value.specs.declared.limits.TheConstants.{MAX_ACTIVATION_CELLS, MAX_BLOCKS};
ghost use Rattle.tp_value.specs.declared.limits.TheConstants.{MAX_PARAMETERS, MAX_TABLES};
ghost use Rattle.tp_value.specs.declared.TrapKind.TheVariants.{Deep};
ghost use Rattle.loop_syntax.specs.declared.Stmt;
ghost use Rattle.tpal_syntax.specs.Listing.{Listing};
ghost use Rattle.expr_lower.specs.Scopes.{offset_of};
ghost use Rattle.handler_gen.specs.Blocks.{call_handler_blocks};
ghost use Rattle.handler_gen.specs.Sites.{IsCallSite};
ghost use Rattle.join_gen.specs.Blocks.{call_join_blocks};
ghost use Rattle.expr_lower.specs.Registers.{base_register};
ghost use Rattle.block_lower.specs.declared.round.Round.{Round};
ghost use Rattle.block_lower.specs.Bodies.{HasRoomFor, activation};
ghost use Rattle.block_lower.specs.Conforming.{Conforms, IsCallPlaced, IsKnown, blocks_of};
ghost use Rattle.scene_laws.specs.Code as codes;
ghost use Rattle.scene_laws.specs.Heights.{AreLowArguments};
ghost use Rattle.scene_laws.specs.Layout.{kept_by_both, levels_cell, value_cell};
ghost use Rattle.block_lower.specs.Lowering.{Lowers, WritesArguments, WritesBothArguments};
ghost use Rattle.block_lower.specs.Lowering.{WritesPassed, WritesCall, WritesFirst, WritesJoined};
ghost use Rattle.block_lower.specs.Lowering.{WritesPassedCall, WritesSecond, WritesPair, pair_site};
ghost use Rattle.scene_laws.specs.Pairs as pairs;
ghost use Rattle.scene_laws.specs.Sizes as sizes;
ghost use Rattle.block_lower.specs.Writing as writing;
ghost use Rattle.block_lower.specs.Writing.{IsFresh, Pushes, Appends, Stands, Continues};

use crate::body::{Pair, Target, target_of};
use crate::layout::{KEPT_MARK, KEPT_RECORD, LEVELS, RETURN};
use crate::lowering::{Lowering, jump};
use expr_lower::BASE;
use handler_gen::{call_handler, child_end_label, joined_label};
use join_gen::call_join;
use loop_syntax::{App, Expr, Name};
use tp_value::{Items, NoMemory, Place, TrapKind};
use tpal_syntax::{Alu, CallSite, Instr, Term, Value};

impl Lowering {
    /// The values of arguments, in cells that stand at a distance from one another from the first
    /// on.
    fn arguments(&mut self, list: &[Expr], first: u16, distance: u16) -> Result<(), NoMemory>
        requires few_tables { length self.old.scope.tables.items ≤ MAX_TABLES }
        requires low { AreLowArguments list.now }
        requires labels { writing.next_label self.old.out + sizes.trap_counts list.now
            ≤ MAX_BLOCKS }
        requires cells { (first ≤ 1000) × (distance ≤ 2) }
        ensures labels { OnOk result
            (writing.next_label self.new.out
            ≡ writing.next_label self.old.out + sizes.trap_counts list.now) }
        ensures code { OnOk result
            (WritesArguments self.old.scope list.now (λ i. first + i * distance)
            self.old.out self.new.out) }
        ensures on { OnOk result (self.new.on ≡ self.old.on) }
        ensures scope { OnOk result (self.new.scope ≡ self.old.scope) }
        ensures fit { OnOk result
            (AllByRecursion (IsKnown self.old.scope) list.now
            → ((i : ℕ) → i < length list.now → first + i * distance < MAX_ACTIVATION_CELLS)
            → writing.next_label self.new.out ≤ blocks_of self.old.on → Conforms self.old
            → Conforms self.new) }
    {
        for (i, e) in list.iter().enumerate() {
            let value = self.operand(e, 0)?;
            self.store(first + i as u16 * distance, value)?;
        }
        Ok(())
    }

    /// The kept cell of an argument of a second call.
    fn kept_argument(&self, number: u16) -> u16
        requires { HasRoomFor self.now.on (kept_by_both number) }
        ensures { result ≡ value_cell self.now.on.most + (2 + number) }
    {
        self.kept_cell(KEPT_RECORD) + 1 + number
    }

    /// So many kept numbers, which become the arguments of a call.
    fn passed(&mut self, count: u16) -> Result<(), NoMemory>
        requires room { HasRoomFor self.old.on (kept_by_both count) }
        requires few { count ≤ MAX_PARAMETERS }
        ensures labels { OnOk result
            (writing.next_label self.new.out ≡ writing.next_label self.old.out) }
        ensures code { OnOk result (WritesPassed self.old.on count self.old.out self.new.out) }
        ensures on { OnOk result (self.new.on ≡ self.old.on) }
        ensures scope { OnOk result (self.new.scope ≡ self.old.scope) }
        ensures fit { OnOk result (Conforms self.old → Conforms self.new) }
    {
        for i in 0..count {
            let kept = self.kept_argument(i);
            let parameter = self.parameter_cell(i);
            self.load(0, kept)?;
            self.store(parameter, Value::Reg(0))?;
        }
        Ok(())
    }

    /// A tick, and the number of levels of calls that are left, in register 0.
    fn push_tick(&mut self) -> Result<(), NoMemory>
        ensures pushed { OnOk result
            (Pushes (Instr.Tick ∷ codes.load 0 levels_cell ∷ []) self.old.out self.new.out) }
        ensures labels { OnOk result
            (writing.next_label self.new.out ≡ writing.next_label self.old.out) }
        ensures on { OnOk result (self.new.on ≡ self.old.on) }
        ensures scope { OnOk result (self.new.scope ≡ self.old.scope) }
        ensures fit { OnOk result (Conforms self.old → Conforms self.new) }
    {
        self.push(Instr::Tick)?;
        self.load(0, LEVELS)?;
        Ok(())
    }

    /// Where a level of calls is left, which register 0 has, a jump to a label, else a trap.
    fn push_deep_test(&mut self, go: u32, place: Place) -> Result<(), NoMemory>
        requires { writing.next_label self.old.out ≤ MAX_BLOCKS }
        ensures labels { OnOk result
            (writing.next_label self.new.out ≡ writing.next_label self.old.out + 1) }
        ensures fresh { OnOk result (IsFresh self.new.out) }
        ensures code { OnOk result
            ((code : Listing)
            → Stands code self.new.out
            → Continues code self.old.out (Instr.IfJump 0 go ∷ Instr.Trap Deep place ∷ [])
            Term.Halt) }
        ensures on { OnOk result (self.new.on ≡ self.old.on) }
        ensures scope { OnOk result (self.new.scope ≡ self.old.scope) }
        ensures fit { OnOk result
            (go < blocks_of self.old.on → IsTrue (is_place place) → Conforms self.old
            → Conforms self.new) }
    {
        self.jump_if(0, go)?;
        self.push(Instr::Trap {
            kind: TrapKind::Deep,
            place,
        })?;
        self.close(Term::Halt)?;
        Ok(())
    }

    /// What a callee is given besides its arguments: one level of calls less than register 0 has,
    /// by way of a register, and its label to return to.
    fn push_given(&mut self, by: u8, back: u32) -> Result<(), NoMemory>
        requires { self.old.on.size ≤ MAX_ACTIVATION_CELLS }
        ensures pushed { OnOk result
            (Pushes (pairs.call_given by self.old.on.size back []) self.old.out self.new.out) }
        ensures labels { OnOk result
            (writing.next_label self.new.out ≡ writing.next_label self.old.out) }
        ensures on { OnOk result (self.new.on ≡ self.old.on) }
        ensures scope { OnOk result (self.new.scope ≡ self.old.scope) }
        ensures fit { OnOk result
            (by < REGISTERS → back < blocks_of self.old.on → Conforms self.old
            → Conforms self.new) }
    {
        let size = self.on.size;
        self.calc(by, 0, Alu::Sub, Value::Int(1))?;
        self.store(size + LEVELS, Value::Reg(by))?;
        self.store(size + RETURN, Value::Label(back))?;
        Ok(())
    }

    /// The position of the activation that runs goes up or down by the cells of the caller's.
    fn push_move(&mut self, alu: Alu) -> Result<(), NoMemory>
        ensures pushed { OnOk result
            (Pushes
            (Instr.Calc base_register base_register alu (Value.Int (pos self.old.on.size)) ∷ [])
            self.old.out
            self.new.out) }
        ensures labels { OnOk result
            (writing.next_label self.new.out ≡ writing.next_label self.old.out) }
        ensures on { OnOk result (self.new.on ≡ self.old.on) }
        ensures scope { OnOk result (self.new.scope ≡ self.old.scope) }
        ensures fit { OnOk result (Conforms self.old → Conforms self.new) }
    {
        let size = self.on.size as i64;
        self.calc(BASE, BASE, alu, Value::Int(size))
    }

    /// The block that enters a callee, which has one level of calls less, and returns to a label.
    fn push_entry(&mut self, label: u32, back: u32) -> Result<(), NoMemory>
        requires labels { writing.next_label self.old.out ≤ MAX_BLOCKS }
        requires size { self.old.on.size ≤ MAX_ACTIVATION_CELLS }
        ensures labels { OnOk result
            (writing.next_label self.new.out ≡ writing.next_label self.old.out + 1) }
        ensures fresh { OnOk result (IsFresh self.new.out) }
        ensures code { OnOk result
            ((code : Listing)
            → Stands code self.new.out
            → Continues code self.old.out (codes.call_entry self.old.on.size back)
            (codes.to label)) }
        ensures on { OnOk result (self.new.on ≡ self.old.on) }
        ensures scope { OnOk result (self.new.scope ≡ self.old.scope) }
        ensures fit { OnOk result
            (label < blocks_of self.old.on → back < blocks_of self.old.on → Conforms self.old
            → Conforms self.new) }
    {
        self.push_given(0, back)?;
        self.push_move(Alu::Add)?;
        self.close(jump(label))?;
        Ok(())
    }

    /// Behind a call the callee's activation is gone, and the caller's runs again.
    fn push_exit(&mut self, target: Target) -> Result<(), NoMemory>
        ensures pushed { OnOk result
            (Pushes (codes.call_exit target.size self.old.on.size []) self.old.out
            self.new.out) }
        ensures labels { OnOk result
            (writing.next_label self.new.out ≡ writing.next_label self.old.out) }
        ensures on { OnOk result (self.new.on ≡ self.old.on) }
        ensures scope { OnOk result (self.new.scope ≡ self.old.scope) }
        ensures fit { OnOk result
            (target.size ≤ MAX_ACTIVATION_CELLS → Conforms self.old → Conforms self.new) }
    {
        self.push(Instr::Sfree(target.size))?;
        self.push_move(Alu::Sub)?;
        Ok(())
    }

    /// A call of a function, whose arguments stand in its activation. The block behind it, in which
    /// that activation goes, is open.
    fn push_call(&mut self, target: Target, place: Place) -> Result<(), NoMemory>
        requires labels { writing.next_label self.old.out + 2 ≤ MAX_BLOCKS }
        requires size { self.old.on.size ≤ MAX_ACTIVATION_CELLS }
        ensures labels { OnOk result
            (writing.next_label self.new.out ≡ writing.next_label self.old.out + 2) }
        ensures code { OnOk result
            (WritesCall self.old.on place target.label target.size self.old.out self.new.out) }
        ensures on { OnOk result (self.new.on ≡ self.old.on) }
        ensures scope { OnOk result (self.new.scope ≡ self.old.scope) }
        ensures fit { OnOk result
            (target.label < blocks_of self.old.on → target.size ≤ MAX_ACTIVATION_CELLS
            → IsTrue (is_place place) → writing.next_label self.new.out ≤ blocks_of self.old.on
            → Conforms self.old → Conforms self.new) }
    {
        let go = self.next_label();
        self.push_tick()?;
        self.push_deep_test(go, place)?;
        self.push_entry(target.label, go + 1)?;
        self.push_exit(target)?;
        Ok(())
    }

    /// A call of a function.
    pub fn lower_call(&mut self, x: &Name, f: &App) -> Result<(), NoMemory>
        requires few_tables { length self.old.scope.tables.items ≤ MAX_TABLES }
        requires low { AreLowArguments f.now.args.items }
        requires labels { writing.next_label self.old.out + (sizes.trap_counts f.now.args.items + 2)
            ≤ MAX_BLOCKS }
        requires size { self.old.on.size ≤ MAX_ACTIVATION_CELLS }
        requires bare { self.old.scope.regs.items ≡ [] }
        ensures labels { OnOk result
            (writing.next_label self.new.out
            ≡ writing.next_label self.old.out + (sizes.trap_counts f.now.args.items + 2)) }
        ensures code { OnOk result
            ((round : Round)
            → Lowers self.old.on round self.old.scope (Stmt.Call x.now f.now) self.old.out
            self.new.out) }
        ensures on { OnOk result (self.new.on ≡ self.old.on) }
        ensures scope { OnOk result (self.new.scope ≡ self.old.scope) }
    {
        let target = target_of(&self.on, &f.callee.text);
        let first = self.parameter_cell(0);
        let cell = self.offset(x);
        self.push(Instr::Salloc(target.size))?;
        self.arguments(&f.args, first, 2)?;
        self.push_call(target, f.callee.place)?;
        self.store(cell, Value::Reg(0))?;
        Ok(())
    }

    /// The arguments of both calls: those of the first in its activation, the others kept.
    fn both_arguments(&mut self, f: &App, g: &App) -> Result<(), NoMemory>
        requires few_tables { length self.old.scope.tables.items ≤ MAX_TABLES }
        requires low { AreLowArguments f.now.args.items × AreLowArguments g.now.args.items }
        requires labels { writing.next_label self.old.out
            + (sizes.trap_counts f.now.args.items + sizes.trap_counts g.now.args.items)
            ≤ MAX_BLOCKS }
        requires room { HasRoomFor self.old.on (kept_by_both 0) }
        ensures labels { OnOk result
            (writing.next_label self.new.out
            ≡ writing.next_label self.old.out
            + (sizes.trap_counts f.now.args.items + sizes.trap_counts g.now.args.items)) }
        ensures code { OnOk result
            (WritesBothArguments self.old.on self.old.scope f.now.args.items g.now.args.items
            self.old.out self.new.out) }
        ensures on { OnOk result (self.new.on ≡ self.old.on) }
        ensures scope { OnOk result (self.new.scope ≡ self.old.scope) }
        ensures fit { OnOk result
            (AllByRecursion (IsKnown self.old.scope) f.now.args.items
            → AllByRecursion (IsKnown self.old.scope) g.now.args.items
            → length f.now.args.items ≤ MAX_PARAMETERS
            → HasRoomFor self.old.on (kept_by_both (length g.now.args.items))
            → writing.next_label self.new.out ≤ blocks_of self.old.on → Conforms self.old
            → Conforms self.new) }
    {
        let first = self.parameter_cell(0);
        let kept = self.kept_argument(0);
        self.arguments(&f.args, first, 2)?;
        self.arguments(&g.args, kept, 1)?;
        Ok(())
    }

    /// The kept cells of the arguments of a second call, so many.
    fn kept_arguments(&self, count: u16) -> Result<Vec<u16>, NoMemory>
        requires room { HasRoomFor self.now.on (kept_by_both count) }
        requires few { count ≤ MAX_PARAMETERS }
        ensures { IfOk result
            (λ v. (tables : List (List ℕ))
            → v.items ≡ pairs.kept_from (activation self.now.on tables) count 0) }
    {
        let mut all = Vec::new(self.alloc);
        for i in 0..count {
            all.push(self.kept_argument(i))?;
        }
        Ok(all)
    }

    /// The site of two calls at a label, the second of which has so many arguments. A child makes
    /// it behind the block behind the join.
    fn pair_site(&self, count: u16, label: u32) -> Result<CallSite, NoMemory>
        requires room { HasRoomFor self.now.on (kept_by_both count) }
        requires few { count ≤ MAX_PARAMETERS }
        requires label { label < MAX_BLOCKS }
        ensures { IfOk result
            (λ site. (code : Listing) (tables : List (List ℕ))
            → site ≡ pair_site code (activation self.now.on tables) count label) }
    {
        let args = self.kept_arguments(count)?;
        Ok(CallSite {
            label,
            cells: self.on.size,
            rec: self.kept_cell(KEPT_RECORD),
            mark: self.kept_cell(KEPT_MARK),
            entry: joined_label(label) + 1,
            args: Items::new(args),
        })
    }

    /// The first of two calls, whose arguments stand in its activation, with the mark set. The
    /// second one can be cut off as soon as the first is entered.
    fn push_first(&mut self, place: Place, target: Target, site: &CallSite) -> Result<(), NoMemory>
        requires labels { writing.next_label self.old.out + 1 ≤ MAX_BLOCKS }
        requires entry { site.now.entry < MAX_BLOCKS }
        requires size { self.old.on.size ≤ MAX_ACTIVATION_CELLS }
        requires cells { self.old.on.size ≡ site.now.cells }
        ensures labels { OnOk result
            (writing.next_label self.new.out ≡ writing.next_label self.old.out + 2) }
        ensures fresh { OnOk result (IsFresh self.new.out) }
        ensures code { OnOk result
            (WritesFirst self.old.on place target site.now self.old.out self.new.out) }
        ensures on { OnOk result (self.new.on ≡ self.old.on) }
        ensures scope { OnOk result (self.new.scope ≡ self.old.scope) }
        ensures fit { OnOk result
            (target.label < blocks_of self.old.on → IsTrue (is_place place)
            → IsCallSite site.now → IsCallPlaced self.old.on site.now
            → site.now.entry + 1 < blocks_of self.old.on
            → writing.next_label self.new.out ≤ blocks_of self.old.on → Conforms self.old
            → Conforms self.new) }
    {
        let go = self.next_label();
        self.push_tick()?;
        self.push_given(1, site.entry + 1)?;
        self.push_mark(site.mark, site.label)?;
        self.push_deep_test(go, place)?;
        self.make_ready(self.on.dispatch);
        self.push_move(Alu::Add)?;
        self.close(jump(target.label))?;
        Ok(())
    }

    /// The handler and the join of two calls, which begin in the place of the open block.
    fn push_call_handler(&mut self, site: &CallSite) -> Result<(), NoMemory>
        requires site { IsCallSite site.now }
        requires fresh { IsFresh self.old.out }
        ensures labels { OnOk result
            (writing.next_label self.new.out ≡ writing.next_label self.old.out + 7) }
        ensures code { OnOk result
            (Appends (call_handler_blocks site.now ++ call_join_blocks site.now) self.old.out
            self.new.out) }
        ensures on { OnOk result (self.new.on ≡ self.old.on) }
        ensures scope { OnOk result (self.new.scope ≡ self.old.scope) }
        ensures fit { OnOk result
            (site.now.label ≡ writing.label self.old.out → IsCallPlaced self.old.on site.now
            → Conforms self.old → Conforms self.new) }
    {
        let handler = call_handler(self.alloc, site)?;
        self.append(handler)?;
        let join = call_join(self.alloc, site)?;
        self.append(join)?;
        Ok(())
    }

    /// Behind the join of two calls, whose values are in registers 0 and 1: the first one goes to a
    /// cell, and all is made to be as it is where the second call returns, at a label.
    fn push_joined(&mut self, cell: u16, second: Target, back: u32) -> Result<(), NoMemory>
        requires { writing.next_label self.old.out ≤ MAX_BLOCKS }
        ensures labels { OnOk result
            (writing.next_label self.new.out ≡ writing.next_label self.old.out + 1) }
        ensures fresh { OnOk result (IsFresh self.new.out) }
        ensures code { OnOk result
            (WritesJoined self.old.on cell second back self.old.out self.new.out) }
        ensures on { OnOk result (self.new.on ≡ self.old.on) }
        ensures scope { OnOk result (self.new.scope ≡ self.old.scope) }
        ensures fit { OnOk result
            (cell < MAX_ACTIVATION_CELLS → second.size ≤ MAX_ACTIVATION_CELLS
            → back < blocks_of self.old.on → Conforms self.old → Conforms self.new) }
    {
        self.store(cell, Value::Reg(0))?;
        self.push(Instr::Move {
            to: 0,
            value: Value::Reg(1),
        })?;
        self.push(Instr::Salloc(second.size))?;
        self.push_move(Alu::Add)?;
        self.close(jump(back))?;
        Ok(())
    }

    /// The second of two calls, whose so many arguments are kept, with its label to return to. The
    /// cells of its activation are there. A level of calls is left, as one was for the first.
    fn push_passed_call(&mut self, count: u16, target: Target, back: u32) -> Result<(), NoMemory>
        requires labels { writing.next_label self.old.out ≤ MAX_BLOCKS }
        requires room { HasRoomFor self.old.on (kept_by_both count) }
        requires few { count ≤ MAX_PARAMETERS }
        ensures labels { OnOk result
            (writing.next_label self.new.out ≡ writing.next_label self.old.out + 1) }
        ensures fresh { OnOk result (IsFresh self.new.out) }
        ensures code { OnOk result
            (WritesPassedCall self.old.on count target back self.old.out self.new.out) }
        ensures on { OnOk result (self.new.on ≡ self.old.on) }
        ensures scope { OnOk result (self.new.scope ≡ self.old.scope) }
        ensures fit { OnOk result
            (target.label < blocks_of self.old.on → back < blocks_of self.old.on
            → target.size ≤ MAX_ACTIVATION_CELLS → Conforms self.old → Conforms self.new) }
    {
        self.passed(count)?;
        self.push_tick()?;
        self.push_entry(target.label, back)?;
        Ok(())
    }

    /// The same, where its activation is made first.
    fn push_second(&mut self, count: u16, target: Target, back: u32) -> Result<(), NoMemory>
        requires labels { writing.next_label self.old.out ≤ MAX_BLOCKS }
        requires room { HasRoomFor self.old.on (kept_by_both count) }
        requires few { count ≤ MAX_PARAMETERS }
        ensures labels { OnOk result
            (writing.next_label self.new.out ≡ writing.next_label self.old.out + 1) }
        ensures fresh { OnOk result (IsFresh self.new.out) }
        ensures code { OnOk result
            (WritesSecond self.old.on count target back self.old.out self.new.out) }
        ensures on { OnOk result (self.new.on ≡ self.old.on) }
        ensures scope { OnOk result (self.new.scope ≡ self.old.scope) }
        ensures fit { OnOk result
            (target.label < blocks_of self.old.on → back < blocks_of self.old.on
            → target.size ≤ MAX_ACTIVATION_CELLS → Conforms self.old → Conforms self.new) }
    {
        self.push(Instr::Salloc(target.size))?;
        self.push_passed_call(count, target, back)?;
        Ok(())
    }

    /// Behind the first of two calls, where the second wasn't cut off: the caller's activation runs
    /// again, the mark goes, and the value goes to a cell.
    fn push_between(&mut self, site: &CallSite, cell: u16) -> Result<(), NoMemory>
        ensures pushed { OnOk result
            (Pushes (pairs.first_exit self.old.on.size site.now.mark cell []) self.old.out
            self.new.out) }
        ensures labels { OnOk result
            (writing.next_label self.new.out ≡ writing.next_label self.old.out) }
        ensures on { OnOk result (self.new.on ≡ self.old.on) }
        ensures scope { OnOk result (self.new.scope ≡ self.old.scope) }
        ensures fit { OnOk result
            (IsCallSite site.now → cell < MAX_ACTIVATION_CELLS → Conforms self.old
            → Conforms self.new) }
    {
        self.push_move(Alu::Sub)?;
        self.pop_mark(site.mark)?;
        self.store(cell, Value::Reg(0))?;
        Ok(())
    }

    /// The activation of a function that returned becomes another's: its cells stay where both have
    /// as many.
    fn push_fitted(&mut self, first: Target, second: Target) -> Result<(), NoMemory>
        ensures pushed { OnOk result
            (Pushes (pairs.fitted first.size second.size) self.old.out self.new.out) }
        ensures labels { OnOk result
            (writing.next_label self.new.out ≡ writing.next_label self.old.out) }
        ensures on { OnOk result (self.new.on ≡ self.old.on) }
        ensures scope { OnOk result (self.new.scope ≡ self.old.scope) }
        ensures fit { OnOk result
            (first.size ≤ MAX_ACTIVATION_CELLS → second.size ≤ MAX_ACTIVATION_CELLS
            → Conforms self.old → Conforms self.new) }
    {
        if first.size != second.size {
            self.push(Instr::Sfree(first.size))?;
            self.push(Instr::Salloc(second.size))?;
        }
        Ok(())
    }

    /// Two calls, from the first one's tick on. The block behind the second, in which its
    /// activation goes, is open.
    fn push_pair(&mut self, place: Place, pair: Pair) -> Result<(), NoMemory>
        requires labels { writing.next_label self.old.out + 12 ≤ MAX_BLOCKS }
        requires room { HasRoomFor self.old.on (kept_by_both pair.count) }
        requires few { pair.count ≤ MAX_PARAMETERS }
        ensures labels { OnOk result
            (writing.next_label self.new.out ≡ writing.next_label self.old.out + 12) }
        ensures code { OnOk result
            (WritesPair self.old.on place pair.cell pair.count pair.first pair.second self.old.out
            self.new.out) }
        ensures on { OnOk result (self.new.on ≡ self.old.on) }
        ensures scope { OnOk result (self.new.scope ≡ self.old.scope) }
        ensures fit { OnOk result
            (pair.first.label < blocks_of self.old.on → pair.first.size ≤ MAX_ACTIVATION_CELLS
            → pair.second.label < blocks_of self.old.on → pair.second.size ≤ MAX_ACTIVATION_CELLS
            → IsTrue (is_place place) → pair.cell < MAX_ACTIVATION_CELLS
            → writing.next_label self.new.out ≤ blocks_of self.old.on → Conforms self.old
            → Conforms self.new) }
    {
        let Pair {
            cell,
            first,
            second,
            count,
        } = pair;
        let label = self.next_label() + 1;
        let site = self.pair_site(count, label)?;
        let last = site.entry + 2;
        self.push_first(place, first, &site)?;
        self.push_call_handler(&site)?;
        self.push_joined(cell, second, last)?;
        self.push_second(count, second, child_end_label(site.label))?;
        self.push_between(&site, cell)?;
        self.push_fitted(first, second)?;
        self.push_passed_call(count, second, last)?;
        self.push_exit(second)?;
        Ok(())
    }

    /// Two calls whose arguments are all computed before. The second one can be cut off while the
    /// first runs.
    pub fn lower_both(&mut self, x: &Name, f: &App, y: &Name, g: &App) -> Result<(), NoMemory>
        requires few_tables { length self.old.scope.tables.items ≤ MAX_TABLES }
        requires low { AreLowArguments f.now.args.items × AreLowArguments g.now.args.items }
        requires labels { writing.next_label self.old.out
            + (sizes.trap_counts f.now.args.items + sizes.trap_counts g.now.args.items + 12)
            ≤ MAX_BLOCKS }
        requires room { HasRoomFor self.old.on (kept_by_both (length g.now.args.items)) }
        requires bare { self.old.scope.regs.items ≡ [] }
        ensures labels { OnOk result
            (writing.next_label self.new.out
            ≡ writing.next_label self.old.out
            + (sizes.trap_counts f.now.args.items + sizes.trap_counts g.now.args.items + 12)) }
        ensures code { OnOk result
            ((round : Round)
            → Lowers self.old.on round self.old.scope (Stmt.Both x.now f.now y.now g.now)
            self.old.out self.new.out) }
        ensures on { OnOk result (self.new.on ≡ self.old.on) }
        ensures scope { OnOk result (self.new.scope ≡ self.old.scope) }
    {
        let first = target_of(&self.on, &f.callee.text);
        let second = target_of(&self.on, &g.callee.text);
        let pair = Pair {
            cell: self.offset(x),
            first,
            second,
            count: g.args.len() as u16,
        };
        let cell = self.offset(y);
        self.push(Instr::Salloc(first.size))?;
        self.both_arguments(f, g)?;
        self.push_pair(f.callee.place, pair)?;
        self.store(cell, Value::Reg(0))?;
        Ok(())
    }
}
