// The code of `par`, which is marked while iterations aren't begun. Where a beat cuts it, the
// handler and the join are made from its site; round them stand the blocks of this file, for one in
// whose body no promotion point can be reached, those of `deep`, or those of `leaf`.

ghost use Rattle.std.specs.Prelude.{◌≡◌, ◌+◌, ◌*◌, ◌<◌, ◌≤◌, ◌^◌, ◌∷◌, ◌++◌, [], true, false};
ghost use Rattle.std.specs.Prelude.{length, OnOk, IfOk};
ghost use Rattle.tp_value.specs.declared.limits.TheConstants.{MAX_BLOCKS, MAX_CARRIES};
ghost use Rattle.tp_value.specs.declared.limits.TheConstants.{MAX_DECLARED_VARIABLES};
ghost use Rattle.tp_value.specs.declared.limits.TheConstants.{MAX_EXPRESSION_HEIGHT, MAX_TABLES};
ghost use Rattle.loop_rules.specs.Limits.{height};
ghost use Rattle.loop_syntax.specs.declared.Stmt;
ghost use Rattle.expr_lower.specs.Bodies.{trap_count};
ghost use Rattle.tpal_syntax.specs.Listing.{Listing};
ghost use Rattle.handler_gen.specs.Blocks.{loop_handler_blocks};
ghost use Rattle.handler_gen.specs.Sites.{IsLoopSite, side_label};
ghost use Rattle.join_gen.specs.Blocks.{loop_join_blocks};
ghost use Rattle.tpal_syntax.specs.declared.instructions.Instr.TheVariants as instr;
ghost use Rattle.block_lower.specs.Bodies.{HasRoomFor};
ghost use Rattle.scene_laws.specs.Code as codes;
ghost use Rattle.scene_laws.specs.Heights.{AllAreLow};
ghost use Rattle.block_lower.specs.Lowering.{Lowers, FitsIn, WritesSome};
ghost use Rattle.block_lower.specs.Lowering.{WritesLength, WritesBegin, WritesPrep, WritesSite};
ghost use Rattle.block_lower.specs.Lowering.{BeginsPar, BeginsQuiet};
ghost use Rattle.scene_laws.specs.Marked as marked;
ghost use Rattle.scene_laws.specs.Names.{SeesAfter};
ghost use Rattle.scene_laws.specs.Quiet.{list_is_quiet};
ghost use Rattle.scene_laws.specs.Sites.{loop_site};
ghost use Rattle.scene_laws.specs.Sizes as sizes;
ghost use Rattle.block_lower.specs.Writing as writing;
ghost use Rattle.block_lower.specs.Writing.{IsFresh, Pushes, Appends, Stands, Continues};
ghost use Rattle.std.specs.Prelude.{IsTrue};
ghost use Rattle.tpal_syntax.specs.Parts.{is_place};
ghost use Rattle.handler_gen.specs.Sites.{split_label};
ghost use Rattle.block_lower.specs.Conforming.{Conforms, HasLoopCells, IsLoopPlaced, IsOperand};
ghost use Rattle.block_lower.specs.Conforming.{IsKnown, blocks_of};

use crate::layout::value_cell;
use crate::lowering::{Lowering, jump};
use crate::quiet::{is_leaf, list_is_quiet};
use crate::repeat::{Bound, Turns};
use crate::round::Round;
use crate::sizes::{added_by_body, have_row, site_blocks};
use expr_lower::trap_count;
use handler_gen::{RECORD, TEST, loop_handler, over_label, side_label, split_label};
use join_gen::loop_join;
use loop_syntax::ParLoop;
use tp_value::{MAX_PAR_LENGTH, NoMemory, Place, TrapKind};
use tpal_syntax::{Alu, LoopSite, Value};

/// What stands round the statements of the body of a `par`.
pub fn round_inside<'a>(round: Round, l: &'a ParLoop) -> Round<'a>
    requires { round.depth < 2 ^ 31 }
    ensures reduces { result.reduces.now ≡ l.now.reduces.items }
    ensures depth { result.depth ≡ round.entry.depth + 1 }
{
    Round {
        reduces: l.reduces.as_slice(),
        depth: round.depth + 1,
    }
}

impl Lowering {
    /// The test of a `par`, whose first number is in register 1 and whose bound is in register 0:
    /// the label `check` where it has an iteration, else the exit.
    fn push_some(&mut self, check: u32, exit: u32) -> Result<(), NoMemory>
        requires { writing.next_label self.old.out ≤ MAX_BLOCKS }
        ensures labels { OnOk result
            (writing.next_label self.new.out ≡ writing.next_label self.old.out + 1) }
        ensures fresh { OnOk result (IsFresh self.new.out) }
        ensures code { OnOk result (WritesSome check exit self.old.out self.new.out) }
        ensures on { OnOk result (self.new.on ≡ self.old.on) }
        ensures scope { OnOk result (self.new.scope ≡ self.old.scope) }
        ensures fit { OnOk result
            (check < blocks_of self.old.on → exit < blocks_of self.old.on → Conforms self.old
            → Conforms self.new) }
    {
        self.calc(2, 1, Alu::Lt, Value::Reg(0))?;
        self.jump_if(2, check)?;
        self.close(jump(exit))?;
        Ok(())
    }

    /// The difference of the bounds of a `par`, and a jump where a register of the test isn't 0.
    fn push_length_test(&mut self, alu: Alu, bound: i64, label: u32) -> Result<(), NoMemory>
        ensures pushed { OnOk result
            (Pushes (instr.Calc 3 2 alu (Value.Int bound) ∷ instr.IfJump 3 label ∷ [])
            self.old.out self.new.out) }
        ensures labels { OnOk result
            (writing.next_label self.new.out ≡ writing.next_label self.old.out) }
        ensures on { OnOk result (self.new.on ≡ self.old.on) }
        ensures scope { OnOk result (self.new.scope ≡ self.old.scope) }
        ensures fit { OnOk result
            (IsOperand self.old.on (Value.Int bound) → label < blocks_of self.old.on
            → Conforms self.old → Conforms self.new) }
    {
        self.calc(3, 2, alu, Value::Int(bound))?;
        self.jump_if(3, label)?;
        Ok(())
    }

    /// The test of the length of a `par`, in an open block of its own: the trap block, which stands
    /// behind it, where the difference of the bounds is above the numbers of 64 bits. Register 3
    /// has whether it isn't too wide.
    fn push_length(&mut self) -> Result<(), NoMemory>
        requires { writing.next_label self.old.out ≤ MAX_BLOCKS }
        ensures labels { OnOk result
            (writing.next_label self.new.out ≡ writing.next_label self.old.out) }
        ensures code { OnOk result (WritesLength self.old.out self.new.out) }
        ensures on { OnOk result (self.new.on ≡ self.old.on) }
        ensures scope { OnOk result (self.new.scope ≡ self.old.scope) }
        ensures fit { OnOk result
            (writing.next_label self.old.out < blocks_of self.old.on → Conforms self.old
            → Conforms self.new) }
    {
        let wide = self.next_label();
        self.calc(2, 0, Alu::Sub, Value::Reg(1))?;
        self.push_length_test(Alu::Lt, 0, wide)?;
        self.calc(3, 2, Alu::Le, Value::Int(MAX_PAR_LENGTH as i64))?;
        Ok(())
    }

    /// The begin of a `par` up to that test: the bounds, and whether it has an iteration. The cell
    /// of the next one that isn't begun is told. Its site stands two labels behind the test's
    /// block.
    pub fn begin_par(
        &mut self,
        round: Round,
        l: &ParLoop,
        cursor: u16,
        exit: u32,
    ) -> Result<LoopSite, NoMemory>
        requires few_tables { length self.old.scope.tables.items ≤ MAX_TABLES }
        requires low { (height l.now.from ≤ MAX_EXPRESSION_HEIGHT)
            × (height l.now.to ≤ MAX_EXPRESSION_HEIGHT) }
        requires labels { writing.next_label self.old.out
            + (trap_count l.now.from + trap_count l.now.to + 3)
            ≤ MAX_BLOCKS }
        requires fits { FitsIn self.old.on self.old.scope round (Stmt.Par l.now ∷ []) }
        requires room { HasRoomFor self.old.on 0 }
        ensures labels { OnOk result
            (writing.next_label self.new.out
            ≡ writing.next_label self.old.out
            + (trap_count l.now.from + trap_count l.now.to + 1)) }
        ensures site { IfOk result
            (λ site. site
            ≡ loop_site self.old.scope l.now self.old.on.size round.entry.depth
            (length self.old.scope.cells.items) cursor (writing.next_label self.new.out + 1)) }
        ensures code { OnOk result
            (BeginsPar self.old.scope l.now
            (writing.next_label self.old.out + trap_count l.now.from + trap_count l.now.to) exit
            self.old.out self.new.out) }
        ensures on { OnOk result (self.new.on ≡ self.old.on) }
        ensures scope { OnOk result (self.new.scope ≡ self.old.scope) }
        ensures fit { OnOk result
            (IsKnown self.old.scope l.now.from → IsKnown self.old.scope l.now.to
            → exit < blocks_of self.old.on → writing.next_label self.new.out < blocks_of self.old.on
            → Conforms self.old → Conforms self.new) }
    {
        let check = self.next_label() + trap_count(&l.from) + trap_count(&l.to);
        let site = self.site_of(round, l, check + 2, cursor)?;
        self.bounds(&l.from, &l.to)?;
        self.push_some(check, exit)?;
        self.push_length()?;
        Ok(site)
    }

    /// The begin of a `par` behind that test: with no record and the mark set, the first iteration,
    /// or the trap block.
    pub fn push_begin(&mut self, place: Place, site: &LoopSite, first: u32) -> Result<(), NoMemory>
        requires labels { writing.next_label self.old.out + 1 ≤ MAX_BLOCKS }
        requires label { site.now.label < MAX_BLOCKS }
        requires cells { self.old.on.size ≡ site.now.cells }
        ensures labels { OnOk result
            (writing.next_label self.new.out ≡ writing.next_label self.old.out + 2) }
        ensures fresh { OnOk result (IsFresh self.new.out) }
        ensures code { OnOk result (WritesBegin place site.now first self.old.out self.new.out) }
        ensures on { OnOk result (self.new.on ≡ self.old.on) }
        ensures scope { OnOk result (self.new.scope ≡ self.old.scope) }
        ensures fit { OnOk result
            (IsTrue (is_place place) → HasLoopCells site.now
            → split_label site.now < blocks_of self.old.on → first < blocks_of self.old.on
            → writing.next_label self.new.out ≤ blocks_of self.old.on → Conforms self.old
            → Conforms self.new) }
    {
        let wide = self.next_label();
        self.store(site.rec, Value::Nil)?;
        self.push_mark(site.mark, split_label(site))?;
        self.jump_if(3, first)?;
        self.trap_block(TrapKind::Wide, place)?;
        self.close(jump(wide))?;
        Ok(())
    }

    /// The end of a piece whose mark has gone: behind the loop where the activation has no record,
    /// else that of a side.
    pub fn push_end(&mut self, site: &LoopSite, exit: u32) -> Result<(), NoMemory>
        requires labels { writing.next_label self.old.out ≤ MAX_BLOCKS }
        requires label { site.now.label < MAX_BLOCKS }
        ensures labels { OnOk result
            (writing.next_label self.new.out ≡ writing.next_label self.old.out + 1) }
        ensures fresh { OnOk result (IsFresh self.new.out) }
        ensures code { OnOk result
            ((code : Listing)
            → Stands code self.new.out
            → Continues code self.old.out (marked.side_test site.now exit)
            (codes.to (side_label site.now.label))) }
        ensures on { OnOk result (self.new.on ≡ self.old.on) }
        ensures scope { OnOk result (self.new.scope ≡ self.old.scope) }
        ensures fit { OnOk result
            (HasLoopCells site.now → side_label site.now.label < blocks_of self.old.on
            → exit < blocks_of self.old.on → Conforms self.old → Conforms self.new) }
    {
        self.load(RECORD, site.rec)?;
        self.calc(TEST, RECORD, Alu::Eq, Value::Nil)?;
        self.jump_if(TEST, exit)?;
        self.close(jump(side_label(site.label)))?;
        Ok(())
    }

    /// The end of a piece.
    pub fn push_over(&mut self, site: &LoopSite, exit: u32) -> Result<(), NoMemory>
        requires labels { writing.next_label self.old.out ≤ MAX_BLOCKS }
        requires label { site.now.label < MAX_BLOCKS }
        ensures labels { OnOk result
            (writing.next_label self.new.out ≡ writing.next_label self.old.out + 1) }
        ensures fresh { OnOk result (IsFresh self.new.out) }
        ensures code { OnOk result
            ((code : Listing)
            → Stands code self.new.out
            → Continues code self.old.out (marked.unmark site.now ∷ marked.side_test site.now exit)
            (codes.to (side_label site.now.label))) }
        ensures on { OnOk result (self.new.on ≡ self.old.on) }
        ensures scope { OnOk result (self.new.scope ≡ self.old.scope) }
        ensures fit { OnOk result
            (HasLoopCells site.now → side_label site.now.label < blocks_of self.old.on
            → exit < blocks_of self.old.on → Conforms self.old → Conforms self.new) }
    {
        self.pop_mark(site.mark)?;
        self.push_end(site, exit)?;
        Ok(())
    }

    /// The block where the rows of carries are loaded before the cut, where there is one.
    pub fn push_prep(&mut self, l: &ParLoop, site: &LoopSite) -> Result<(), NoMemory>
        requires labels { writing.next_label self.old.out + 1 ≤ MAX_BLOCKS }
        requires carries { length l.now.carries.items ≤ MAX_CARRIES }
        requires fresh { IsFresh self.old.out }
        ensures labels { OnOk result
            (writing.next_label self.new.out + 9
            ≡ writing.next_label self.old.out + sizes.site_blocks l.now.carries.items) }
        ensures fresh { OnOk result (IsFresh self.new.out) }
        ensures code { OnOk result
            (WritesPrep self.old.scope l.now site.now.label self.old.out self.new.out) }
        ensures on { OnOk result (self.new.on ≡ self.old.on) }
        ensures scope { OnOk result (self.new.scope ≡ self.old.scope) }
        ensures fit { OnOk result
            (site.now.label < blocks_of self.old.on → Conforms self.old → Conforms self.new) }
    {
        if !have_row(&l.carries) {
            return Ok(());
        }
        self.push_rows(&l.carries)?;
        self.close(jump(site.label))?;
        Ok(())
    }

    /// The handler and the join of a site, which begin in the place of the open block.
    pub fn push_handler(&mut self, site: &LoopSite) -> Result<(), NoMemory>
        requires site { IsLoopSite site.now }
        requires fresh { IsFresh self.old.out }
        ensures labels { OnOk result
            (writing.next_label self.new.out ≡ writing.next_label self.old.out + 6) }
        ensures code { OnOk result
            (Appends (loop_handler_blocks site.now ++ loop_join_blocks site.now) self.old.out
            self.new.out) }
        ensures on { OnOk result (self.new.on ≡ self.old.on) }
        ensures scope { OnOk result (self.new.scope ≡ self.old.scope) }
        ensures fit { OnOk result
            (site.now.label ≡ writing.label self.old.out → IsLoopPlaced self.old.on site.now
            → Conforms self.old → Conforms self.new) }
    {
        let handler = loop_handler(self.alloc, site)?;
        self.append(handler)?;
        let join = loop_join(self.alloc, site)?;
        self.append(join)?;
        Ok(())
    }

    /// The handler and the join of a quiet `par`, and what stands round them. Its first iteration
    /// is at a label.
    fn push_site(
        &mut self,
        l: &ParLoop,
        site: &LoopSite,
        first: u32,
        exit: u32,
    ) -> Result<(), NoMemory>
        requires site { IsLoopSite site.now }
        requires here { site.now.label ≡ writing.label self.old.out }
        requires labels { writing.next_label self.old.out + 10 ≤ MAX_BLOCKS }
        requires carries { length l.now.carries.items ≤ MAX_CARRIES }
        requires fresh { IsFresh self.old.out }
        ensures labels { OnOk result
            (writing.next_label self.new.out
            ≡ writing.next_label self.old.out + sizes.site_blocks l.now.carries.items) }
        ensures fresh { OnOk result (IsFresh self.new.out) }
        ensures code { OnOk result
            (WritesSite self.old.scope l.now site.now first exit self.old.out self.new.out) }
        ensures on { OnOk result (self.new.on ≡ self.old.on) }
        ensures scope { OnOk result (self.new.scope ≡ self.old.scope) }
        ensures fit { OnOk result
            (IsLoopPlaced self.old.on site.now → first < blocks_of self.old.on
            → exit < blocks_of self.old.on → Conforms self.old → Conforms self.new) }
    {
        self.push_handler(site)?;
        self.close(jump(first))?;
        self.push_over(site, exit)?;
        self.close(jump(over_label(site.label)))?;
        self.push_prep(l, site)?;
        Ok(())
    }

    /// The begin of a quiet `par`. The open block behind it is that of the first iteration.
    fn begin_quiet(&mut self, round: Round, l: &ParLoop) -> Result<Turns, NoMemory>
        requires few_tables { length self.old.scope.tables.items ≤ MAX_TABLES }
        requires low { (height l.now.from ≤ MAX_EXPRESSION_HEIGHT)
            × (height l.now.to ≤ MAX_EXPRESSION_HEIGHT) }
        requires labels { writing.next_label self.old.out
            + (trap_count l.now.from + trap_count l.now.to + 3
            + (sizes.site_blocks l.now.carries.items
            + 2 * (sizes.added_by_list self.old.on.quiet_calls l.now.body.items + 1)))
            ≤ MAX_BLOCKS }
        requires fits { FitsIn self.old.on self.old.scope round (Stmt.Par l.now ∷ []) }
        requires room { HasRoomFor self.old.on 0 }
        ensures labels { OnOk result
            (writing.next_label self.new.out
            ≡ writing.next_label self.old.out
            + (trap_count l.now.from + trap_count l.now.to + 3
            + sizes.site_blocks l.now.carries.items)) }
        ensures fresh { OnOk result (IsFresh self.new.out) }
        ensures turns { IfOk result
            (λ turns. (turns.level ≡ length self.old.scope.cells.items)
            × (turns.bound ≡ Bound.Cell)
            × (turns.again
            ≡ writing.label self.new.out
            + (sizes.added_by_list self.old.on.quiet_calls l.now.body.items + 1))) }
        ensures code { IfOk result
            (λ turns. BeginsQuiet self.old.on round.entry self.old.scope l.now turns
            (turns.again + (sizes.added_by_list self.old.on.quiet_calls l.now.body.items + 1))
            self.old.out self.new.out) }
        ensures on { OnOk result (self.new.on ≡ self.old.on) }
        ensures scope { OnOk result (self.new.scope ≡ self.old.scope) }
        ensures fit { OnOk result
            (IsKnown self.old.scope l.now.from → IsKnown self.old.scope l.now.to
            → IsTrue (is_place l.now.place)
            → writing.next_label self.new.out
            + 2 * (sizes.added_by_list self.old.on.quiet_calls l.now.body.items + 1)
            ≤ blocks_of self.old.on
            → Conforms self.old
            → Conforms self.new) }
    {
        let level = self.level();
        let check = self.next_label() + trap_count(&l.from) + trap_count(&l.to);
        let first = check + 2 + site_blocks(&l.carries);
        let body = added_by_body(self.on.quiet_calls, &l.body);
        let again = first + body;
        let exit = again + body;
        let site = self.begin_par(round, l, value_cell(level), exit)?;
        self.push_begin(l.place, &site, first)?;
        self.push_site(l, &site, first, exit)?;
        Ok(Turns {
            level,
            bound: Bound::Cell,
            again,
            exit: over_label(site.label),
        })
    }

    /// A `par` in whose body no promotion point can be reached. The body is written twice: for the
    /// first iteration of a piece, and behind a promotion point for each further one.
    #[cycle(lower)]
    fn lower_quiet(&mut self, round: Round, l: &ParLoop) -> Result<(), NoMemory>
        requires few_tables { length self.old.scope.tables.items ≤ MAX_TABLES }
        requires low { (height l.now.from ≤ MAX_EXPRESSION_HEIGHT)
            × (height l.now.to ≤ MAX_EXPRESSION_HEIGHT) × AllAreLow l.now.body.items }
        requires labels { writing.next_label self.old.out
            + (trap_count l.now.from + trap_count l.now.to + 3
            + (sizes.site_blocks l.now.carries.items
            + 2 * (sizes.added_by_list self.old.on.quiet_calls l.now.body.items + 1)))
            ≤ MAX_BLOCKS }
        requires room { HasRoomFor self.old.on (sizes.kept_by_list l.now.body.items) }
        requires cells { length self.old.scope.cells.items
            + (sizes.declared_by_list l.now.body.items + 1)
            ≤ MAX_DECLARED_VARIABLES }
        requires fits { FitsIn self.old.on self.old.scope round (Stmt.Par l.now ∷ []) }
        requires quiet { list_is_quiet self.old.on.quiet_calls l.now.body.items ≡ true }
        ensures labels { OnOk result
            (writing.next_label self.new.out
            ≡ writing.next_label self.old.out
            + (trap_count l.now.from + trap_count l.now.to + 3
            + (sizes.site_blocks l.now.carries.items
            + 2 * (sizes.added_by_list self.old.on.quiet_calls l.now.body.items + 1)))) }
        ensures cells { OnOk result
            (length self.new.scope.cells.items ≤ length self.old.scope.cells.items) }
        ensures tables { OnOk result (self.new.scope.tables ≡ self.old.scope.tables) }
        ensures regs { OnOk result (self.new.scope.regs ≡ self.old.scope.regs) }
        ensures sees { OnOk result (SeesAfter (λ names. names) self.old.scope self.new.scope) }
        ensures code { OnOk result
            (Lowers self.old.on round.entry self.old.scope (Stmt.Par l.now) self.old.out
            self.new.out) }
        ensures on { OnOk result (self.new.on ≡ self.old.on) }
    {
        let inside = round_inside(round, l);
        let turns = self.begin_quiet(round, l)?;
        self.lower_body(inside, &l.var, &l.body)?;
        self.end_loop(turns)?;
        self.make_ready(self.on.dispatch);
        self.lower_body(inside, &l.var, &l.body)?;
        self.end_loop(turns)?;
        Ok(())
    }

    /// A `par`.
    #[cycle(lower)]
    pub fn lower_par(&mut self, round: Round, l: &ParLoop) -> Result<(), NoMemory>
        requires few_tables { length self.old.scope.tables.items ≤ MAX_TABLES }
        requires low { (height l.now.from ≤ MAX_EXPRESSION_HEIGHT)
            × (height l.now.to ≤ MAX_EXPRESSION_HEIGHT) × AllAreLow l.now.body.items }
        requires labels { writing.next_label self.old.out
            + sizes.added_by_par self.old.on.quiet_calls l.now
            ≤ MAX_BLOCKS }
        requires room { HasRoomFor self.old.on (sizes.kept_by_list l.now.body.items) }
        requires cells { length self.old.scope.cells.items
            + (sizes.declared_by_list l.now.body.items + 1)
            ≤ MAX_DECLARED_VARIABLES }
        requires fits { FitsIn self.old.on self.old.scope round (Stmt.Par l.now ∷ []) }
        ensures labels { OnOk result
            (writing.next_label self.new.out
            ≡ writing.next_label self.old.out + sizes.added_by_par self.old.on.quiet_calls l.now) }
        ensures cells { OnOk result
            (length self.new.scope.cells.items ≤ length self.old.scope.cells.items) }
        ensures tables { OnOk result (self.new.scope.tables ≡ self.old.scope.tables) }
        ensures regs { OnOk result (self.new.scope.regs ≡ self.old.scope.regs) }
        ensures sees { OnOk result (SeesAfter (λ names. names) self.old.scope self.new.scope) }
        ensures code { OnOk result
            (Lowers self.old.on round.entry self.old.scope (Stmt.Par l.now) self.old.out
            self.new.out) }
        ensures on { OnOk result (self.new.on ≡ self.old.on) }
    {
        if is_leaf(&l.body, &l.reduces) {
            self.lower_leaf(round, l)
        } else if list_is_quiet(&l.body, self.on.quiet_calls) {
            self.lower_quiet(round, l)
        } else {
            self.lower_deep(round, l)
        }
    }
}
