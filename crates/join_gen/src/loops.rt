// The join of a parallel loop.

ghost use Rattle.std.specs.Prelude.{◌≡◌, ◌+◌, ℕ, ◌≤◌, ◌++◌, ◌∷◌, [], ◌<◌, List, length, IfOk};
ghost use Rattle.tp_value.specs.declared.limits.TheConstants.{MAX_BLOCKS, MAX_REDUCTIONS};
ghost use Rattle.tpal_syntax.specs.declared.blocks.CodeTable.{CodeTable};
ghost use Rattle.tpal_syntax.specs.Listing.{Listing};
ghost use Rattle.expr_lower.specs.Standing.{AreAt};
ghost use Rattle.handler_gen.specs.Sites.{IsLoopSite, target_label};
ghost use Rattle.handler_gen.specs.Blocks.{renames_from};
ghost use Rattle.expr_lower.specs.Fitting.{AreBlocksOf};
ghost use Rattle.handler_gen.specs.Fitting.{HasLoopPlaces};
ghost use Rattle.handler_gen.specs.Registers.{other_record, record_register};
ghost use Rattle.join_gen.specs.Blocks as blocks;
ghost use Rattle.join_gen.specs.LoopJoins.{IsRoundJoin, JoinsLoop};

use expr_lower::BASE;
use handler_gen::{
    OTHER_RECORD, RECORD, block_of, comb_label, over_label, side_label, target_label,
};
use std::alloc::Global;
use tp_value::{Items, MAX_REDUCTIONS, NoMemory, Op};
use tpal_syntax::{Alu, Block, CutKind, Instr, LoopSite, Note, Target, Term, Value};

/// The calculation that an operator is.
pub fn alu_of(op: Op) -> Alu
    ensures { result ≡ blocks.alu_of op }
{
    match op {
        Op::Add => Alu::Add,
        Op::Mul => Alu::Mul,
        Op::Min => Alu::Min,
        Op::Max => Alu::Max,
        Op::Affine => Alu::Affine,
    }
}

// The registers that a side hands over, and those in which the right's are found: those of so many
// accumulators, and that of the record.
fn renames(alloc: Global, accs: &[(u16, Op)]) -> Result<Vec<(u8, u8)>, NoMemory>
    requires few { length accs.now ≤ MAX_REDUCTIONS }
    ensures { IfOk result
        (λ v. v.items ≡ renames_from 0 accs.now ++ (record_register, other_record) ∷ []) }
{
    let mut all = Vec::new(alloc);
    for r in 0..accs.len() {
        all.push((r as u8, MAX_REDUCTIONS as u8 + r as u8))?;
    }
    all.push((RECORD, OTHER_RECORD))?;
    Ok(all)
}

// The block where both sides meet.
fn target_block(alloc: Global, site: &LoopSite) -> Result<Block, NoMemory>
    requires label { site.now.label < MAX_BLOCKS + 2 }
    requires few { length site.now.accs ≤ MAX_REDUCTIONS }
    ensures { IfOk result (λ block. block ≡ blocks.loop_target_block site.now) }
{
    let target = Target {
        comm: false,
        renames: Items::new(renames(alloc, site.accs.items())?),
        comb: comb_label(site.label),
        kind: CutKind::Loop,
        carries: Items::new(site.carries.items().to_vec(alloc)?),
    };
    let over = Term::Jump(Value::Label(over_label(site.label)));
    block_of(
        alloc,
        target_label(site.label),
        Note::Target(target),
        Vec::new(alloc),
        over,
    )
}

// The block that combines the accumulators.
fn comb_block(alloc: Global, site: &LoopSite) -> Result<Block, NoMemory>
    requires label { site.now.label < MAX_BLOCKS + 2 }
    requires few { length site.now.accs ≤ MAX_REDUCTIONS }
    ensures { IfOk result (λ block. block ≡ blocks.loop_comb_block site.now) }
{
    let mut body = Vec::new(alloc);
    let accs = site.accs.items();
    for r in 0..accs.len() {
        body.push(Instr::Calc {
            to: r as u8,
            left: r as u8,
            alu: alu_of(accs[r].1),
            right: Value::Reg(MAX_REDUCTIONS as u8 + r as u8),
        })?;
        body.push(Instr::Store {
            base: BASE,
            off: accs[r].0,
            value: Value::Reg(r as u8),
        })?;
    }
    let label = comb_label(site.label);
    block_of(alloc, label, Note::Plain, body, Term::Join(RECORD))
}

// The block where a side ends.
fn side_block(alloc: Global, site: &LoopSite) -> Result<Block, NoMemory>
    requires label { site.now.label < MAX_BLOCKS + 2 }
    requires few { length site.now.accs ≤ MAX_REDUCTIONS }
    ensures { IfOk result (λ block. block ≡ blocks.side_block site.now) }
{
    let mut body = Vec::new(alloc);
    let accs = site.accs.items();
    for r in 0..accs.len() {
        body.push(Instr::Load {
            to: r as u8,
            base: BASE,
            off: accs[r].0,
        })?;
    }
    let label = side_label(site.label);
    block_of(alloc, label, Note::Plain, body, Term::Join(RECORD))
}

// The blocks of a loop's join.
fn join_blocks(alloc: Global, site: &LoopSite) -> Result<Vec<Block>, NoMemory>
    requires label { site.now.label < MAX_BLOCKS + 2 }
    requires few { length site.now.accs ≤ MAX_REDUCTIONS }
    ensures { IfOk result (λ v. v.items ≡ blocks.loop_join_blocks site.now) }
{
    let mut all = Vec::new(alloc);
    all.push(target_block(alloc, site)?)?;
    all.push(comb_block(alloc, site)?)?;
    all.push(side_block(alloc, site)?)?;
    Ok(all)
}

/// The blocks where the sides of a parallel loop meet, where they are combined, and where each of
/// them ends. They stand behind those of the loop's handler, from the label of the join target on.
/// In a code that has them there a side ends under its record, with its accumulators and its parts
/// of the tables that are carried, and a merged task goes on with the accumulators of both as
/// `merge_frames` merges them.
pub fn loop_join(alloc: Global, site: &LoopSite) -> Result<Vec<Block>, NoMemory>
    requires site { IsLoopSite site.now }
    ensures blocks { IfOk result (λ v. v.items ≡ blocks.loop_join_blocks site.now) }
    ensures joins { IfOk result (λ v. (code : Listing) (heartbeat : ℕ)
        → AreAt code (target_label site.now.label) v.items
        → IsRoundJoin code site.now
        → JoinsLoop code heartbeat site.now) }
    ensures fit { IfOk result (λ v. (tables : List CodeTable) (all : List Block)
        → HasLoopPlaces site.now tables all
        → AreBlocksOf tables all v.items) }
{
    let blocks = join_blocks(alloc, site)?;
    Ok(blocks)
}
