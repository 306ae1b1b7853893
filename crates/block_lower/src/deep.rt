// The code of a `par` in whose body a promotion point may be reached. It may be cut in the middle
// of an iteration, so the next iteration that isn't begun has a cell of its own.

ghost use Rattle.std.specs.Prelude.{◌≡◌, ◌+◌, ◌*◌, ◌<◌, ◌≤◌, ◌∷◌, ◌++◌, [], true, false, length};
ghost use Rattle.std.specs.Prelude.{OnOk, IfOk};
ghost use Rattle.tp_value.specs.declared.limits.TheConstants.{MAX_BLOCKS, MAX_CARRIES};
ghost use Rattle.tp_value.specs.declared.limits.TheConstants.{MAX_DECLARED_VARIABLES};
ghost use Rattle.tp_value.specs.declared.limits.TheConstants.{MAX_EXPRESSION_HEIGHT, MAX_TABLES};
ghost use Rattle.loop_rules.specs.Limits.{height};
ghost use Rattle.loop_syntax.specs.declared.Stmt;
ghost use Rattle.expr_lower.specs.Bodies.{trap_count};
ghost use Rattle.handler_gen.specs.Sites.{IsLoopSite};
ghost use Rattle.block_lower.specs.Bodies.{HasRoomFor};
ghost use Rattle.scene_laws.specs.Heights.{AllAreLow};
ghost use Rattle.block_lower.specs.Lowering.{Lowers, FitsIn, WritesNext, WritesLast};
ghost use Rattle.block_lower.specs.Lowering.{WritesDeepSite, BeginsDeep};
ghost use Rattle.scene_laws.specs.Names.{SeesAfter};
ghost use Rattle.scene_laws.specs.Quiet.{list_is_quiet};
ghost use Rattle.scene_laws.specs.Sizes as sizes;
ghost use Rattle.block_lower.specs.Writing as writing;
ghost use Rattle.block_lower.specs.Writing.{IsFresh};
ghost use Rattle.handler_gen.specs.Sites.{over_label};
ghost use Rattle.std.specs.Prelude.{IsTrue};
ghost use Rattle.tpal_syntax.specs.Parts.{is_place};
ghost use Rattle.block_lower.specs.Conforming.{Conforms, HasLoopCells, IsKnown, IsLoopPlaced};
ghost use Rattle.block_lower.specs.Conforming.{blocks_of};

use crate::layout::{cursor_cell, value_cell};
use crate::lowering::{Lowering, jump};
use crate::par::round_inside;
use crate::round::Round;
use crate::sizes::{added_by_body, site_blocks};
use expr_lower::trap_count;
use handler_gen::{BACK, first_label, over_label};
use loop_syntax::ParLoop;
use tp_value::NoMemory;
use tpal_syntax::{Alu, LoopSite, Term, Value};

impl Lowering {
    /// The begin of an iteration: its number comes into the cell of its variable, and the cursor
    /// goes on. Two labels behind that of the promotion point the body stands, before which the
    /// last iteration, and where there is none, goes by the label between. The test is on the
    /// difference of the number and the bound, since the number behind the bound may be above those
    /// of 64 bits.
    fn push_next(&mut self, site: &LoopSite, head: u32) -> Result<(), NoMemory>
        requires labels { writing.next_label self.old.out ≤ MAX_BLOCKS }
        requires head { head + 2 ≤ MAX_BLOCKS }
        requires cells { length self.old.scope.cells.items ≤ MAX_DECLARED_VARIABLES }
        ensures labels { OnOk result
            (writing.next_label self.new.out ≡ writing.next_label self.old.out + 1) }
        ensures fresh { OnOk result (IsFresh self.new.out) }
        ensures code { OnOk result
            (WritesNext site.now (length self.old.scope.cells.items) head self.old.out
            self.new.out) }
        ensures on { OnOk result (self.new.on ≡ self.old.on) }
        ensures scope { OnOk result (self.new.scope ≡ self.old.scope) }
        ensures fit { OnOk result
            (HasLoopCells site.now → head + 2 < blocks_of self.old.on → Conforms self.old
            → Conforms self.new) }
    {
        let level = self.level();
        self.load(1, site.cursor)?;
        self.load(0, site.bound)?;
        self.calc(3, 1, Alu::Sub, Value::Reg(0))?;
        self.store(value_cell(level), Value::Reg(1))?;
        self.calc(1, 1, Alu::Add, Value::Int(1))?;
        self.store(site.cursor, Value::Reg(1))?;
        self.calc(2, 3, Alu::Lt, Value::Int(-1))?;
        self.jump_if(2, head + 2)?;
        self.close(jump(head + 1))?;
        Ok(())
    }

    /// Before the last iteration the mark goes. Where there is none, the piece ends.
    fn push_last(&mut self, site: &LoopSite, turn: u32) -> Result<(), NoMemory>
        requires labels { writing.next_label self.old.out ≤ MAX_BLOCKS }
        requires label { site.now.label < MAX_BLOCKS }
        ensures labels { OnOk result
            (writing.next_label self.new.out ≡ writing.next_label self.old.out + 1) }
        ensures fresh { OnOk result (IsFresh self.new.out) }
        ensures code { OnOk result
            (WritesLast site.now turn self.old.out self.new.out) }
        ensures on { OnOk result (self.new.on ≡ self.old.on) }
        ensures scope { OnOk result (self.new.scope ≡ self.old.scope) }
        ensures fit { OnOk result
            (HasLoopCells site.now → over_label site.now.label < blocks_of self.old.on
            → turn < blocks_of self.old.on → Conforms self.old → Conforms self.new) }
    {
        self.calc(2, 3, Alu::Eq, Value::Int(0))?;
        self.jump_if(2, over_label(site.label))?;
        self.pop_mark(site.mark)?;
        self.close(jump(turn))?;
        Ok(())
    }

    /// The handler and the join, and what stands round them and between two iterations. The
    /// promotion point is at a label.
    fn push_deep_site(
        &mut self,
        l: &ParLoop,
        site: &LoopSite,
        head: u32,
        exit: u32,
    ) -> Result<(), NoMemory>
        requires site { IsLoopSite site.now }
        requires here { site.now.label ≡ writing.label self.old.out }
        requires head { head ≡ site.now.label + sizes.site_blocks l.now.carries.items }
        requires labels { writing.next_label self.old.out + 12 ≤ MAX_BLOCKS }
        requires carries { length l.now.carries.items ≤ MAX_CARRIES }
        requires cells { length self.old.scope.cells.items ≤ MAX_DECLARED_VARIABLES }
        requires fresh { IsFresh self.old.out }
        ensures labels { OnOk result
            (writing.next_label self.new.out
            ≡ writing.next_label self.old.out + (sizes.site_blocks l.now.carries.items + 2)) }
        ensures fresh { OnOk result (IsFresh self.new.out) }
        ensures code { OnOk result
            (WritesDeepSite self.old.on self.old.scope l.now site.now head exit self.old.out
            self.new.out) }
        ensures on { OnOk result (self.new.on ≡ self.old.on) }
        ensures scope { OnOk result (self.new.scope ≡ self.old.scope) }
        ensures fit { OnOk result
            (IsLoopPlaced self.old.on site.now → head + 2 < blocks_of self.old.on
            → exit < blocks_of self.old.on → Conforms self.old → Conforms self.new) }
    {
        self.push_handler(site)?;
        self.push_next(site, head)?;
        self.push_end(site, exit)?;
        self.close(Term::Jump(Value::Reg(BACK)))?;
        self.push_prep(l, site)?;
        self.make_ready(self.on.dispatch);
        self.push_next(site, head)?;
        self.push_last(site, head + 2)?;
        Ok(())
    }

    /// The begin of the `par`, and the label of its promotion point. The open block behind it is
    /// that of the body.
    fn begin_deep(&mut self, round: Round, l: &ParLoop) -> Result<u32, NoMemory>
        requires few_tables { length self.old.scope.tables.items ≤ MAX_TABLES }
        requires low { (height l.now.from ≤ MAX_EXPRESSION_HEIGHT)
            × (height l.now.to ≤ MAX_EXPRESSION_HEIGHT) }
        requires labels { writing.next_label self.old.out
            + (trap_count l.now.from + trap_count l.now.to + 3
            + (sizes.site_blocks l.now.carries.items
            + (sizes.added_by_list self.old.on.quiet_calls l.now.body.items + 1 + 2)))
            ≤ MAX_BLOCKS }
        requires fits { FitsIn self.old.on self.old.scope round (Stmt.Par l.now ∷ []) }
        requires room { HasRoomFor self.old.on 0 }
        ensures labels { OnOk result
            (writing.next_label self.new.out
            ≡ writing.next_label self.old.out
            + (trap_count l.now.from + trap_count l.now.to + 3
            + (sizes.site_blocks l.now.carries.items + 2))) }
        ensures fresh { OnOk result (IsFresh self.new.out) }
        ensures head { IfOk result (λ head. head + 2 ≡ writing.label self.new.out) }
        ensures code { IfOk result
            (λ head. BeginsDeep self.old.on round.entry self.old.scope l.now head
            (head + 2 + (sizes.added_by_list self.old.on.quiet_calls l.now.body.items + 1))
            self.old.out self.new.out) }
        ensures on { OnOk result (self.new.on ≡ self.old.on) }
        ensures scope { OnOk result (self.new.scope ≡ self.old.scope) }
        ensures fit { OnOk result
            (IsKnown self.old.scope l.now.from → IsKnown self.old.scope l.now.to
            → IsTrue (is_place l.now.place)
            → writing.next_label self.new.out
            + (sizes.added_by_list self.old.on.quiet_calls l.now.body.items + 1)
            ≤ blocks_of self.old.on
            → Conforms self.old
            → Conforms self.new) }
    {
        let check = self.next_label() + trap_count(&l.from) + trap_count(&l.to);
        let head = check + 2 + site_blocks(&l.carries);
        let exit = head + 2 + added_by_body(self.on.quiet_calls, &l.body);
        let site = self.begin_par(round, l, cursor_cell(round.depth), exit)?;
        self.store(site.cursor, Value::Reg(1))?;
        self.push_begin(l.place, &site, first_label(site.label))?;
        self.push_deep_site(l, &site, head, exit)?;
        Ok(head)
    }

    /// A `par` in whose body a promotion point may be reached.
    #[cycle(lower)]
    pub fn lower_deep(&mut self, round: Round, l: &ParLoop) -> Result<(), NoMemory>
        requires few_tables { length self.old.scope.tables.items ≤ MAX_TABLES }
        requires low { (height l.now.from ≤ MAX_EXPRESSION_HEIGHT)
            × (height l.now.to ≤ MAX_EXPRESSION_HEIGHT) × AllAreLow l.now.body.items }
        requires labels { writing.next_label self.old.out
            + (trap_count l.now.from + trap_count l.now.to + 3
            + (sizes.site_blocks l.now.carries.items
            + (sizes.added_by_list self.old.on.quiet_calls l.now.body.items + 1 + 2)))
            ≤ MAX_BLOCKS }
        requires room { HasRoomFor self.old.on (sizes.kept_by_list l.now.body.items) }
        requires cells { length self.old.scope.cells.items
            + (sizes.declared_by_list l.now.body.items + 1)
            ≤ MAX_DECLARED_VARIABLES }
        requires fits { FitsIn self.old.on self.old.scope round (Stmt.Par l.now ∷ []) }
        requires deep { list_is_quiet self.old.on.quiet_calls l.now.body.items ≡ false }
        ensures labels { OnOk result
            (writing.next_label self.new.out
            ≡ writing.next_label self.old.out
            + (trap_count l.now.from + trap_count l.now.to + 3
            + (sizes.site_blocks l.now.carries.items
            + (sizes.added_by_list self.old.on.quiet_calls l.now.body.items + 1 + 2)))) }
        ensures cells { OnOk result
            (length self.new.scope.cells.items ≤ length self.old.scope.cells.items) }
        ensures tables { OnOk result (self.new.scope.tables ≡ self.old.scope.tables) }
        ensures regs { OnOk result (self.new.scope.regs ≡ self.old.scope.regs) }
        ensures sees { OnOk result (SeesAfter (λ names. names) self.old.scope self.new.scope) }
        ensures code { OnOk result
            (Lowers self.old.on round.entry self.old.scope (Stmt.Par l.now) self.old.out
            self.new.out) }
        ensures on { OnOk result (self.new.on ≡ self.old.on) }
    {
        let inside = round_inside(round, l);
        let head = self.begin_deep(round, l)?;
        self.lower_body(inside, &l.var, &l.body)?;
        self.close(jump(head))?;
        Ok(())
    }
}
