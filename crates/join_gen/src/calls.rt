// The join of a pair of calls.

ghost use Rattle.std.specs.Prelude.{◌≡◌, ℕ, ◌<◌, List, IfOk};
ghost use Rattle.tp_value.specs.declared.limits.TheConstants.{MAX_BLOCKS};
ghost use Rattle.tpal_syntax.specs.declared.blocks.CodeTable.{CodeTable};
ghost use Rattle.tpal_syntax.specs.Listing.{Listing};
ghost use Rattle.expr_lower.specs.Standing.{AreAt};
ghost use Rattle.expr_lower.specs.Fitting.{AreBlocksOf};
ghost use Rattle.handler_gen.specs.Fitting.{HasCallPlaces};
ghost use Rattle.handler_gen.specs.Sites.{IsCallSite, target_label};
ghost use Rattle.join_gen.specs.Blocks as blocks;
ghost use Rattle.join_gen.specs.CallJoins.{IsRoundMeeting, JoinsCalls};

use expr_lower::BASE;
use handler_gen::{
    OTHER_RECORD, RECORD, block_of, child_end_label, comb_label, joined_label, left_end_label,
    target_label,
};
use std::alloc::Global;
use tp_value::{Items, NoMemory};
use tpal_syntax::{Alu, Block, CallSite, CutKind, Instr, Note, Target, Term, Value};

// The block where both sides meet.
fn target_block(alloc: Global, site: &CallSite) -> Result<Block, NoMemory>
    requires label { site.now.label < MAX_BLOCKS }
    ensures { IfOk result (λ block. block ≡ blocks.call_target_block site.now) }
{
    let target = Target {
        comm: false,
        renames: Items::new(vec![in alloc; (0, 1), (RECORD, OTHER_RECORD)]?),
        comb: comb_label(site.label),
        kind: CutKind::Call,
        carries: Items::new(Vec::new(alloc)),
    };
    let joined = Term::Jump(Value::Label(joined_label(site.label)));
    block_of(
        alloc,
        target_label(site.label),
        Note::Target(target),
        Vec::new(alloc),
        joined,
    )
}

// The block where the child ends.
fn child_end_block(alloc: Global, site: &CallSite) -> Result<Block, NoMemory>
    requires label { site.now.label < MAX_BLOCKS }
    ensures { IfOk result (λ block. block ≡ blocks.child_end_block site.now) }
{
    let mut body = Vec::new(alloc);
    body.push(Instr::Calc {
        to: BASE,
        left: BASE,
        alu: Alu::Sub,
        right: Value::Int(site.cells as i64),
    })?;
    body.push(Instr::Load {
        to: RECORD,
        base: BASE,
        off: site.rec,
    })?;
    let label = child_end_label(site.label);
    block_of(alloc, label, Note::Plain, body, Term::Join(RECORD))
}

// The block where the left ends.
fn left_end_block(alloc: Global, site: &CallSite) -> Result<Block, NoMemory>
    requires label { site.now.label < MAX_BLOCKS }
    ensures { IfOk result (λ block. block ≡ blocks.left_end_block site.now) }
{
    let record = Instr::Load {
        to: RECORD,
        base: BASE,
        off: 1,
    };
    let label = left_end_label(site.label);
    let body = vec![in alloc; record]?;
    block_of(alloc, label, Note::Plain, body, Term::Join(RECORD))
}

// The blocks of the join of a pair of calls.
fn join_blocks(alloc: Global, site: &CallSite) -> Result<Vec<Block>, NoMemory>
    requires label { site.now.label < MAX_BLOCKS }
    ensures { IfOk result (λ v. v.items ≡ blocks.call_join_blocks site.now) }
{
    let comb = comb_label(site.label);
    let mut all = Vec::new(alloc);
    all.push(target_block(alloc, site)?)?;
    all.push(block_of(
        alloc,
        comb,
        Note::Plain,
        Vec::new(alloc),
        Term::Join(RECORD),
    )?)?;
    all.push(child_end_block(alloc, site)?)?;
    all.push(left_end_block(alloc, site)?)?;
    Ok(all)
}

/// The blocks where the sides of a pair of calls meet, where the task goes on with both values, and
/// where the child and the left end. They stand behind those of the pair's handler, from the label
/// of the join target on. In a code that has them there each side ends under its record, with the
/// value of its call, and a merged task goes on with both values in r0 and r1.
pub fn call_join(alloc: Global, site: &CallSite) -> Result<Vec<Block>, NoMemory>
    requires site { IsCallSite site.now }
    ensures blocks { IfOk result (λ v. v.items ≡ blocks.call_join_blocks site.now) }
    ensures joins { IfOk result (λ v. (code : Listing) (heartbeat : ℕ)
        → AreAt code (target_label site.now.label) v.items
        → IsRoundMeeting code site.now
        → JoinsCalls code heartbeat site.now) }
    ensures fit { IfOk result (λ v. (tables : List CodeTable) (all : List Block)
        → HasCallPlaces site.now all
        → AreBlocksOf tables all v.items) }
{
    let blocks = join_blocks(alloc, site)?;
    Ok(blocks)
}
