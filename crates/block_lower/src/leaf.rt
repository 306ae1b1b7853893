// The code of a leaf loop: a `par` whose body holds no `par`, no `both` and no call, and which
// reduces at most 4 variables. While it runs, its next iteration, its end and what it reduces stand
// in registers. They are stored into their cells before it is cut and where a piece of it ends, so
// that its handler, its join and its end are those of a loop.

ghost use Rattle.std.specs.Prelude.{◌≡◌, ◌+◌, ◌*◌, ◌<◌, ◌≤◌, ◌++◌, ◌∷◌, [], true, length};
ghost use Rattle.std.specs.Prelude.{IfOk, OnOk};
ghost use Rattle.tp_value.specs.declared.limits.TheConstants.{MAX_BLOCKS, MAX_CARRIES};
ghost use Rattle.tp_value.specs.declared.limits.TheConstants.{MAX_DECLARED_VARIABLES};
ghost use Rattle.tp_value.specs.declared.limits.TheConstants.{MAX_EXPRESSION_HEIGHT, MAX_TABLES};
ghost use Rattle.loop_rules.specs.Limits.{height};
ghost use Rattle.loop_syntax.specs.declared.Stmt;
ghost use Rattle.expr_lower.specs.Bodies.{trap_count};
ghost use Rattle.handler_gen.specs.LeafBlocks.{leaf_handler_blocks, start_block, stores_of};
ghost use Rattle.handler_gen.specs.LeafSites as sites;
ghost use Rattle.handler_gen.specs.LeafSites.{IsLeafSite, registers_of};
ghost use Rattle.handler_gen.specs.Registers.{leaf_accs};
ghost use Rattle.join_gen.specs.Blocks.{loop_join_blocks};
ghost use Rattle.block_lower.specs.Bodies.{HasRoomFor};
ghost use Rattle.std.specs.Prelude.{IsTrue};
ghost use Rattle.tpal_syntax.specs.Parts.{is_place};
ghost use Rattle.block_lower.specs.Conforming.{Conforms, IsKnown, IsLeafPlaced, blocks_of};
ghost use Rattle.scene_laws.specs.Heights.{AllAreLow};
ghost use Rattle.scene_laws.specs.Layout.{value_cell};
ghost use Rattle.block_lower.specs.Lowering.{AreHeld, BeginsLeaf, EndsLeaf, FitsIn, FitsInside};
ghost use Rattle.block_lower.specs.Lowering.{Lowers, WritesLeafSite, WritesLeafTurn};
ghost use Rattle.block_lower.specs.Lowering.{held_by, leaf_of};
ghost use Rattle.scene_laws.specs.Names.{SeesAfter};
ghost use Rattle.scene_laws.specs.Quiet.{is_leaf};
ghost use Rattle.scene_laws.specs.Sites.{loop_site};
ghost use Rattle.scene_laws.specs.Sizes as sizes;
ghost use Rattle.block_lower.specs.Writing as writing;
ghost use Rattle.block_lower.specs.Writing.{Appends, IsEmpty, IsFresh, Pushes};

use crate::layout::value_cell;
use crate::lowering::{Lowering, jump};
use crate::par::round_inside;
use crate::round::Round;
use crate::sizes::{added_by_body, site_blocks};
use expr_lower::trap_count;
use handler_gen::{
    LEAF_BOUND, LEAF_CURSOR, LEAF_FIRST_ACC, head_label, leaf_handler, leaf_start, over_label,
    push_leaf_stores, start_label, stored_loop,
};
use join_gen::leaf_join;
use loop_syntax::ParLoop;
use std::alloc::Global;
use std::mem;
use tp_value::NoMemory;
use tpal_syntax::{Alu, LeafSite, LoopSite, Value};

/// The site of a leaf loop, from that of a loop.
fn leaf_of(site: LoopSite) -> LeafSite
    ensures { result ≡ leaf_of site }
{
    let LoopSite {
        label,
        cells,
        cursor,
        bound,
        rec,
        mark,
        accs,
        carries,
    } = site;
    LeafSite {
        label,
        cells,
        cursor,
        bound,
        rec,
        mark,
        accs,
        carries,
    }
}

/// The variables of a leaf loop, each with its register.
fn held_by(alloc: Global, l: &ParLoop) -> Result<Vec<(Vec<u8>, u8)>, NoMemory>
    requires { length l.now.reduces.items ≤ leaf_accs }
    ensures { IfOk result (λ regs. AreHeld regs.items (held_by l.now)) }
{
    let mut regs = Vec::new(alloc);
    let var = Vec::from_slice(alloc, &l.var.text)?;
    regs.push((var, LEAF_CURSOR))?;
    for (before, reduce) in l.reduces.iter().enumerate() {
        let target = Vec::from_slice(alloc, &reduce.target.text)?;
        regs.push((target, LEAF_FIRST_ACC + before as u8))?;
    }
    Ok(regs)
}

impl Lowering {
    /// The handler and the join of a leaf loop, which begin in the place of the open block.
    fn push_leaf_handler(&mut self, site: &LeafSite) -> Result<(), NoMemory>
        requires site { IsLeafSite site.now }
        requires fresh { IsFresh self.old.out }
        ensures labels { OnOk result
            (writing.next_label self.new.out ≡ writing.next_label self.old.out + 8) }
        ensures code { OnOk result
            (Appends (leaf_handler_blocks site.now ++ loop_join_blocks (sites.stored_loop site.now))
            self.old.out self.new.out) }
        ensures on { OnOk result (self.new.on ≡ self.old.on) }
        ensures scope { OnOk result (self.new.scope ≡ self.old.scope) }
        ensures fit { OnOk result
            (site.now.label ≡ writing.label self.old.out → IsLeafPlaced self.old.on site.now
            → Conforms self.old → Conforms self.new) }
    {
        let handler = leaf_handler(self.alloc, site)?;
        self.append(handler)?;
        let join = leaf_join(self.alloc, site)?;
        self.append(join)?;
        Ok(())
    }

    /// The block where a leaf loop begins, whose first iteration is at a label.
    fn push_leaf_start(&mut self, site: &LeafSite, first: u32) -> Result<(), NoMemory>
        requires site { IsLeafSite site.now }
        requires fresh { IsFresh self.old.out }
        ensures labels { OnOk result
            (writing.next_label self.new.out ≡ writing.next_label self.old.out + 1) }
        ensures code { OnOk result
            (Appends (start_block site.now first ∷ []) self.old.out self.new.out) }
        ensures on { OnOk result (self.new.on ≡ self.old.on) }
        ensures scope { OnOk result (self.new.scope ≡ self.old.scope) }
        ensures fit { OnOk result
            (sites.start_label site.now ≡ writing.label self.old.out
            → first < blocks_of self.old.on → Conforms self.old → Conforms self.new) }
    {
        let start = leaf_start(self.alloc, site, first)?;
        let mut blocks = Vec::new(self.alloc);
        blocks.push(start)?;
        self.append(blocks)?;
        Ok(())
    }

    /// The handler and the join of a leaf loop, and what stands round them.
    fn push_leaf_site(
        &mut self,
        l: &ParLoop,
        site: &LeafSite,
        first: u32,
        exit: u32,
    ) -> Result<(), NoMemory>
        requires site { IsLeafSite site.now }
        requires here { site.now.label ≡ writing.label self.old.out }
        requires labels { writing.next_label self.old.out + 12 ≤ MAX_BLOCKS }
        requires carries { length l.now.carries.items ≤ MAX_CARRIES }
        requires fresh { IsFresh self.old.out }
        ensures labels { OnOk result
            (writing.next_label self.new.out
            ≡ writing.next_label self.old.out + (sizes.site_blocks l.now.carries.items + 2)) }
        ensures fresh { OnOk result (IsFresh self.new.out) }
        ensures code { OnOk result
            (WritesLeafSite self.old.scope l.now site.now first exit self.old.out self.new.out) }
        ensures on { OnOk result (self.new.on ≡ self.old.on) }
        ensures scope { OnOk result (self.new.scope ≡ self.old.scope) }
        ensures fit { OnOk result
            (IsLeafPlaced self.old.on site.now → first < blocks_of self.old.on
            → exit < blocks_of self.old.on → Conforms self.old → Conforms self.new) }
    {
        let stored = stored_loop(self.alloc, site)?;
        self.push_leaf_handler(site)?;
        self.push_leaf_start(site, first)?;
        self.push_over(&stored, exit)?;
        self.close(jump(over_label(stored.label)))?;
        self.push_prep(l, &stored)?;
        Ok(())
    }

    /// The begin of a leaf loop. The open block behind it is that of its promotion point.
    fn begin_leaf(&mut self, round: Round, l: &ParLoop) -> Result<LeafSite, NoMemory>
        requires few_tables { length self.old.scope.tables.items ≤ MAX_TABLES }
        requires low { (height l.now.from ≤ MAX_EXPRESSION_HEIGHT)
            × (height l.now.to ≤ MAX_EXPRESSION_HEIGHT) }
        requires labels { writing.next_label self.old.out
            + (trap_count l.now.from + trap_count l.now.to + 3
            + (sizes.site_blocks l.now.carries.items
            + (2 * (sizes.added_by_list self.old.on.quiet_calls l.now.body.items + 1) + 2)))
            ≤ MAX_BLOCKS }
        requires fits { FitsIn self.old.on self.old.scope round (Stmt.Par l.now ∷ []) }
        requires room { HasRoomFor self.old.on 0 }
        requires leaf { is_leaf l.now.body.items l.now.reduces.items ≡ true }
        ensures labels { OnOk result
            (writing.next_label self.new.out
            ≡ writing.next_label self.old.out
            + (trap_count l.now.from + trap_count l.now.to + 3
            + (sizes.site_blocks l.now.carries.items + 2))) }
        ensures fresh { OnOk result (IsFresh self.new.out) }
        ensures site { IfOk result
            (λ site. IsLeafSite site
            × (sites.head_label site ≡ writing.label self.new.out)
            × (sites.stored_loop site
            ≡ loop_site self.old.scope l.now self.old.on.size round.entry.depth
            (length self.old.scope.cells.items) (value_cell (length self.old.scope.cells.items))
            (site.label + 2))) }
        ensures code { IfOk result
            (λ site. BeginsLeaf self.old.on round.entry self.old.scope l.now site
            (writing.label self.new.out
            + (sizes.added_by_list self.old.on.quiet_calls l.now.body.items + 1))
            (writing.label self.new.out
            + 2 * (sizes.added_by_list self.old.on.quiet_calls l.now.body.items + 1))
            self.old.out self.new.out) }
        ensures on { OnOk result (self.new.on ≡ self.old.on) }
        ensures scope { OnOk result (self.new.scope ≡ self.old.scope) }
        ensures fit { OnOk result
            (IsKnown self.old.scope l.now.from → IsKnown self.old.scope l.now.to
            → IsTrue (is_place l.now.place)
            → writing.next_label self.new.out
            + 2 * (sizes.added_by_list self.old.on.quiet_calls l.now.body.items + 1)
            ≤ blocks_of self.old.on
            → Conforms self.old
            → Conforms self.new) }
    {
        let cursor = value_cell(self.level());
        let check = self.next_label() + trap_count(&l.from) + trap_count(&l.to);
        let head = check + 4 + site_blocks(&l.carries);
        let body = added_by_body(self.on.quiet_calls, &l.body);
        let first = head + body;
        let exit = first + body;
        let site = leaf_of(self.begin_par(round, l, cursor, exit)?);
        let stored = stored_loop(self.alloc, &site)?;
        self.push_begin(l.place, &stored, start_label(&site))?;
        self.push_leaf_site(l, &site, first, exit)?;
        Ok(site)
    }

    /// The stores of a leaf loop's registers into their cells.
    fn push_stores(&mut self, site: &LeafSite) -> Result<(), NoMemory>
        requires { IsLeafSite site.now }
        ensures pushed { OnOk result
            (Pushes (stores_of (registers_of site.now)) self.old.out self.new.out) }
        ensures labels { OnOk result
            (writing.next_label self.new.out ≡ writing.next_label self.old.out) }
        ensures on { OnOk result (self.new.on ≡ self.old.on) }
        ensures scope { OnOk result (self.new.scope ≡ self.old.scope) }
        ensures fit { OnOk result (Conforms self.old → Conforms self.new) }
    {
        push_leaf_stores(self.alloc, &mut self.out.body, site)?;
        Ok(())
    }

    /// Behind an iteration of a leaf loop: another one begins at the promotion point, or the
    /// registers are stored, and the piece ends.
    fn end_leaf(&mut self, site: &LeafSite) -> Result<(), NoMemory>
        requires site { IsLeafSite site.now }
        requires labels { writing.next_label self.old.out ≤ MAX_BLOCKS }
        ensures labels { OnOk result
            (writing.next_label self.new.out ≡ writing.next_label self.old.out + 1) }
        ensures fresh { OnOk result (IsFresh self.new.out) }
        ensures code { OnOk result (EndsLeaf site.now self.old.out self.new.out) }
        ensures on { OnOk result (self.new.on ≡ self.old.on) }
        ensures scope { OnOk result (self.new.scope ≡ self.old.scope) }
        ensures fit { OnOk result
            (IsLeafPlaced self.old.on site.now → Conforms self.old → Conforms self.new) }
    {
        self.calc(LEAF_CURSOR, LEAF_CURSOR, Alu::Add, Value::Int(1))?;
        self.calc(0, LEAF_CURSOR, Alu::Lt, Value::Reg(LEAF_BOUND))?;
        self.jump_if(0, head_label(site))?;
        self.push_stores(site)?;
        self.close(jump(over_label(site.label + 2)))?;
        Ok(())
    }

    /// An iteration of a leaf loop, in an open block of its own.
    #[cycle(lower)]
    fn leaf_turn(&mut self, round: Round, l: &ParLoop, site: &LeafSite) -> Result<(), NoMemory>
        requires few_tables { length self.old.scope.tables.items ≤ MAX_TABLES }
        requires low { AllAreLow l.now.body.items }
        requires labels { writing.next_label self.old.out
            + (sizes.added_by_list self.old.on.quiet_calls l.now.body.items + 1)
            ≤ MAX_BLOCKS }
        requires room { HasRoomFor self.old.on (sizes.kept_by_list l.now.body.items) }
        requires cells { length self.old.scope.cells.items
            + (sizes.declared_by_list l.now.body.items + 1)
            ≤ MAX_DECLARED_VARIABLES }
        requires empty { IsEmpty self.old.out }
        requires fits { FitsInside self.old.on self.old.scope round l.now.var.text.items
            l.now.body.items }
        requires leaf { is_leaf l.now.body.items l.now.reduces.items ≡ true }
        requires site { IsLeafSite site.now }
        ensures labels { OnOk result
            (writing.next_label self.new.out
            ≡ writing.next_label self.old.out
            + (sizes.added_by_list self.old.on.quiet_calls l.now.body.items + 1)) }
        ensures cells { OnOk result
            (length self.new.scope.cells.items ≤ length self.old.scope.cells.items) }
        ensures tables { OnOk result (self.new.scope.tables ≡ self.old.scope.tables) }
        ensures regs { OnOk result (self.new.scope.regs ≡ self.old.scope.regs) }
        ensures sees { OnOk result (SeesAfter (λ names. names) self.old.scope self.new.scope) }
        ensures fresh { OnOk result (IsFresh self.new.out) }
        ensures code { OnOk result
            (WritesLeafTurn self.old.on round.entry self.old.scope l.now site.now self.old.out
            self.new.out) }
        ensures on { OnOk result (self.new.on ≡ self.old.on) }
    {
        let regs = held_by(self.alloc, l)?;
        let before = mem::replace(&mut self.scope.regs, regs);
        self.lower_body(round, &l.var, &l.body)?;
        self.scope.regs = before;
        self.end_leaf(site)?;
        Ok(())
    }

    /// A leaf loop. Its body is written twice: behind the promotion point, and for the iteration
    /// that each piece begins with. Written once it would take a jump more in each iteration.
    #[cycle(lower)]
    pub fn lower_leaf(&mut self, round: Round, l: &ParLoop) -> Result<(), NoMemory>
        requires few_tables { length self.old.scope.tables.items ≤ MAX_TABLES }
        requires low { (height l.now.from ≤ MAX_EXPRESSION_HEIGHT)
            × (height l.now.to ≤ MAX_EXPRESSION_HEIGHT) × AllAreLow l.now.body.items }
        requires labels { writing.next_label self.old.out
            + (trap_count l.now.from + trap_count l.now.to + 3
            + (sizes.site_blocks l.now.carries.items
            + (2 * (sizes.added_by_list self.old.on.quiet_calls l.now.body.items + 1) + 2)))
            ≤ MAX_BLOCKS }
        requires room { HasRoomFor self.old.on (sizes.kept_by_list l.now.body.items) }
        requires cells { length self.old.scope.cells.items
            + (sizes.declared_by_list l.now.body.items + 1)
            ≤ MAX_DECLARED_VARIABLES }
        requires fits { FitsIn self.old.on self.old.scope round (Stmt.Par l.now ∷ []) }
        requires leaf { is_leaf l.now.body.items l.now.reduces.items ≡ true }
        ensures labels { OnOk result
            (writing.next_label self.new.out
            ≡ writing.next_label self.old.out
            + (trap_count l.now.from + trap_count l.now.to + 3
            + (sizes.site_blocks l.now.carries.items
            + (2 * (sizes.added_by_list self.old.on.quiet_calls l.now.body.items + 1) + 2)))) }
        ensures cells { OnOk result
            (length self.new.scope.cells.items ≤ length self.old.scope.cells.items) }
        ensures tables { OnOk result (self.new.scope.tables ≡ self.old.scope.tables) }
        ensures regs { OnOk result (self.new.scope.regs ≡ self.old.scope.regs) }
        ensures sees { OnOk result (SeesAfter (λ names. names) self.old.scope self.new.scope) }
        ensures code { OnOk result
            (Lowers self.old.on round.entry self.old.scope (Stmt.Par l.now) self.old.out
            self.new.out) }
        ensures on { OnOk result (self.new.on ≡ self.old.on) }
    {
        let inside = round_inside(round, l);
        let site = self.begin_leaf(round, l)?;
        self.make_ready(site.label);
        self.leaf_turn(inside, l, &site)?;
        self.leaf_turn(inside, l, &site)?;
        Ok(())
    }
}
