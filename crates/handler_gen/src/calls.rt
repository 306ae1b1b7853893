// The handler of a pair of calls.

ghost use Rattle.std.specs.Prelude.{◌≡◌, ℕ, ◌++◌, ◌<◌, List, IfOk, OnOk};
ghost use Rattle.tp_value.specs.declared.limits.TheConstants.{MAX_BLOCKS};
ghost use Rattle.tpal_syntax.specs.declared.blocks.CodeTable.{CodeTable};
ghost use Rattle.expr_lower.specs.Standing.{AreAt};
ghost use Rattle.tpal_syntax.specs.Listing.{Listing};
ghost use Rattle.handler_gen.specs.Blocks as blocks;
ghost use Rattle.handler_gen.specs.CallCuts.{IsRoundCalls, CutsCalls};
ghost use Rattle.expr_lower.specs.Fitting.{AreBlocksOf};
ghost use Rattle.handler_gen.specs.Fitting.{HasCallPlaces};
ghost use Rattle.handler_gen.specs.Sites.{IsCallSite};

use crate::blocks::{back_block, block_of, push_ask};
use crate::labels::{back_label, child_label, left_end_label};
use crate::registers::{CUT, RECORD};
use expr_lower::BASE;
use std::alloc::Global;
use tp_value::NoMemory;
use tpal_syntax::{Alu, Block, CallSite, Instr, Note, Term, Value};

// Appends what the left does behind the fork: it will return to where it ends, and has its record.
fn push_left_returns(body: &mut Vec<Instr>, site: &CallSite) -> Result<(), NoMemory>
    requires label { site.now.label < MAX_BLOCKS }
    ensures { OnOk result (body.new.items ≡ body.old.items ++ blocks.left_returns site.now) }
{
    body.push(Instr::Calc {
        to: CUT,
        left: CUT,
        alu: Alu::Add,
        right: Value::Int(site.cells as i64),
    })?;
    body.push(Instr::Store {
        base: CUT,
        off: 0,
        value: Value::Label(left_end_label(site.label)),
    })?;
    body.push(Instr::Store {
        base: CUT,
        off: 1,
        value: Value::Reg(RECORD),
    })?;
    Ok(())
}

// The block that cuts.
fn cut_block(alloc: Global, site: &CallSite) -> Result<Block, NoMemory>
    requires label { site.now.label < MAX_BLOCKS }
    ensures { IfOk result (λ block. block ≡ blocks.call_cut_block site.now) }
{
    let mut body = Vec::new(alloc);
    push_ask(&mut body, site.label)?;
    body.push(Instr::Fork {
        rec: RECORD,
        child: child_label(site.label),
    })?;
    push_left_returns(&mut body, site)?;
    let back = Term::Jump(Value::Label(back_label(site.label)));
    block_of(alloc, site.label, Note::Plain, body, back)
}

// The block where the child begins.
fn child_block(alloc: Global, site: &CallSite) -> Result<Block, NoMemory>
    requires label { site.now.label < MAX_BLOCKS }
    ensures { IfOk result (λ block. block ≡ blocks.call_child_block site.now) }
{
    let record = Instr::Store {
        base: BASE,
        off: site.rec,
        value: Value::Reg(RECORD),
    };
    let second = Term::Jump(Value::Label(site.entry));
    let body = vec![in alloc; record]?;
    block_of(alloc, child_label(site.label), Note::Plain, body, second)
}

// The blocks of the handler of a pair of calls.
fn handler_blocks(alloc: Global, site: &CallSite) -> Result<Vec<Block>, NoMemory>
    requires label { site.now.label < MAX_BLOCKS }
    ensures { IfOk result (λ v. v.items ≡ blocks.call_handler_blocks site.now) }
{
    let mut all = Vec::new(alloc);
    all.push(cut_block(alloc, site)?)?;
    all.push(back_block(alloc, site.label)?)?;
    all.push(child_block(alloc, site)?)?;
    Ok(all)
}

/// The blocks that cut a pair of calls in two, from its label on: the one that cuts, the one that
/// goes back, and the one where the child begins. They are entered from the block of `dispatch`,
/// where the pair's mark is the oldest. In a code that has them there, and behind them the site's
/// join, the task asks for a join record once. Where there is none it goes back unchanged; else the
/// left keeps the first call, and the child goes on at the site's `entry`, which begins the second
/// function for it.
pub fn call_handler(alloc: Global, site: &CallSite) -> Result<Vec<Block>, NoMemory>
    requires site { IsCallSite site.now }
    ensures blocks { IfOk result (λ v. v.items ≡ blocks.call_handler_blocks site.now) }
    ensures cuts { IfOk result (λ v. (code : Listing) (heartbeat : ℕ)
        → AreAt code site.now.label v.items
        → IsRoundCalls code site.now
        → CutsCalls code heartbeat site.now) }
    ensures fit { IfOk result (λ v. (tables : List CodeTable) (all : List Block)
        → HasCallPlaces site.now all
        → AreBlocksOf tables all v.items) }
{
    let blocks = handler_blocks(alloc, site)?;
    Ok(blocks)
}
