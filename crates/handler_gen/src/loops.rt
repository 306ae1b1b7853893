// The handler of a parallel loop.

ghost use Rattle.std.specs.Prelude.{◌≡◌, ◌+◌, ℕ, ◌++◌, ◌<◌, ◌∷◌, [], List, IfOk, OnOk};
ghost use Rattle.tp_value.specs.declared.limits.TheConstants.{MAX_BLOCKS};
ghost use Rattle.tpal_syntax.specs.declared.blocks.CodeTable.{CodeTable};
ghost use Rattle.expr_lower.specs.Standing.{AreAt};
ghost use Rattle.tpal_syntax.specs.Listing.{Listing};
ghost use Rattle.handler_gen.specs.Blocks as blocks;
ghost use Rattle.expr_lower.specs.Fitting.{AreBlocksOf};
ghost use Rattle.handler_gen.specs.Fitting.{HasLoopPlaces};
ghost use Rattle.handler_gen.specs.LoopCuts.{IsRoundLoop, CutsLoop};
ghost use Rattle.handler_gen.specs.Sites.{IsLoopSite};
ghost use Rattle.handler_gen.specs.Sites as sites;

use crate::blocks::{back_block, block_of, push_ask};
use crate::labels::{back_label, child_label, first_label, none_label, split_label};
use crate::registers::{CUT, MIDDLE, NEXT, RECORD, TEST};
use expr_lower::BASE;
use reduce_ops::unit;
use std::alloc::Global;
use tp_value::{NoMemory, Op};
use tpal_syntax::{Alu, Block, CarryAt, Instr, LoopSite, Note, Term, Value};

// The register with which a carry's table is cut.
fn at_of(carry: CarryAt) -> u8
    ensures { result ≡ sites.at_of carry }
{
    match carry {
        CarryAt::Rows { table: _, at } => at,
        CarryAt::Cells {
            table: _,
            row: _,
            at,
        } => at,
    }
}

// Appends a calculation on the place of the cut.
fn push_on_middle(body: &mut Vec<Instr>, alu: Alu, right: Value) -> Result<(), NoMemory>
    ensures { OnOk result
        (body.new.items ≡ body.old.items ++ blocks.on_middle alu right ∷ []) }
{
    body.push(Instr::Calc {
        to: MIDDLE,
        left: MIDDLE,
        alu,
        right,
    })?;
    Ok(())
}

// Appends the instructions that leave the place of the cut and the next iteration in their
// registers.
fn push_middle(body: &mut Vec<Instr>, site: &LoopSite) -> Result<(), NoMemory>
    ensures { OnOk result (body.new.items ≡ body.old.items ++ blocks.middle site.now) }
{
    body.push(Instr::Load {
        to: NEXT,
        base: CUT,
        off: site.cursor,
    })?;
    body.push(Instr::Load {
        to: MIDDLE,
        base: CUT,
        off: site.bound,
    })?;
    push_on_middle(body, Alu::Sub, Value::Reg(NEXT))?;
    push_on_middle(body, Alu::Div, Value::Int(2))?;
    push_on_middle(body, Alu::Add, Value::Reg(NEXT))
}

// Appends the moves of the place of the cut to the registers of the carries.
fn push_cut_places(body: &mut Vec<Instr>, carries: &[CarryAt]) -> Result<(), NoMemory>
    ensures { OnOk result (body.new.items ≡ body.old.items ++ blocks.cut_places carries.now) }
{
    for carry in carries {
        body.push(Instr::Move {
            to: at_of(*carry),
            value: Value::Reg(MIDDLE),
        })?;
    }
    Ok(())
}

// Appends what the left does behind the fork: its record and its end, and its mark goes where no
// iteration is left to it.
fn push_left_begins(body: &mut Vec<Instr>, site: &LoopSite) -> Result<(), NoMemory>
    requires label { site.now.label < MAX_BLOCKS + 2 }
    ensures { OnOk result (body.new.items ≡ body.old.items ++ blocks.left_begins site.now) }
{
    body.push(Instr::Store {
        base: CUT,
        off: site.rec,
        value: Value::Reg(RECORD),
    })?;
    body.push(Instr::Store {
        base: CUT,
        off: site.bound,
        value: Value::Reg(MIDDLE),
    })?;
    body.push(Instr::Calc {
        to: TEST,
        left: NEXT,
        alu: Alu::Lt,
        right: Value::Reg(MIDDLE),
    })?;
    body.push(Instr::IfJump {
        test: TEST,
        label: back_label(site.label),
    })?;
    body.push(Instr::PrmDrop)?;
    Ok(())
}

// The block that cuts.
fn cut_block(alloc: Global, site: &LoopSite) -> Result<Block, NoMemory>
    requires label { site.now.label < MAX_BLOCKS + 2 }
    ensures { IfOk result (λ block. block ≡ blocks.loop_cut_block site.now) }
{
    let mut body = Vec::new(alloc);
    push_ask(&mut body, site.label)?;
    push_middle(&mut body, site)?;
    push_cut_places(&mut body, site.carries.items())?;
    body.push(Instr::Fork {
        rec: RECORD,
        child: child_label(site.label),
    })?;
    push_left_begins(&mut body, site)?;
    let none = Term::Jump(Value::Label(none_label(site.label)));
    block_of(alloc, site.label, Note::Plain, body, none)
}

// Appends the stores of the units of accumulators.
fn push_units(body: &mut Vec<Instr>, accs: &[(u16, Op)]) -> Result<(), NoMemory>
    ensures { OnOk result (body.new.items ≡ body.old.items ++ blocks.units accs.now) }
{
    for acc in accs {
        body.push(Instr::Store {
            base: BASE,
            off: acc.0,
            value: Value::Int(unit(acc.1)),
        })?;
    }
    Ok(())
}

// The block where the child begins.
fn child_block(alloc: Global, site: &LoopSite) -> Result<Block, NoMemory>
    requires label { site.now.label < MAX_BLOCKS + 2 }
    ensures { IfOk result (λ block. block ≡ blocks.loop_child_block site.now) }
{
    let mut body = Vec::new(alloc);
    body.push(Instr::Store {
        base: BASE,
        off: site.rec,
        value: Value::Reg(RECORD),
    })?;
    body.push(Instr::Store {
        base: BASE,
        off: site.cursor,
        value: Value::Reg(MIDDLE),
    })?;
    push_units(&mut body, site.accs.items())?;
    body.push(Instr::PrmPush {
        base: BASE,
        off: site.mark,
        cells: site.cells,
        split: split_label(site),
    })?;
    let first = Term::Jump(Value::Label(first_label(site.label)));
    block_of(alloc, child_label(site.label), Note::Plain, body, first)
}

/// The blocks of a loop's handler.
pub fn handler_blocks(alloc: Global, site: &LoopSite) -> Result<Vec<Block>, NoMemory>
    requires label { site.now.label < MAX_BLOCKS + 2 }
    ensures { IfOk result (λ v. v.items ≡ blocks.loop_handler_blocks site.now) }
{
    let mut all = Vec::new(alloc);
    all.push(cut_block(alloc, site)?)?;
    all.push(back_block(alloc, site.label)?)?;
    all.push(child_block(alloc, site)?)?;
    Ok(all)
}

/// The blocks that cut a parallel loop in two, from its label on: the one that cuts, the one that
/// goes back, and the one where the child begins. They are entered from the block of `dispatch`,
/// where the loop's mark is the oldest; the rows of carries are in their registers by then. In a
/// code that has them there, and behind them the site's join, the task asks for a join record once.
/// Where there is none it goes back unchanged; else the iterations that aren't begun are cut as
/// `split_range` cuts them.
pub fn loop_handler(alloc: Global, site: &LoopSite) -> Result<Vec<Block>, NoMemory>
    requires site { IsLoopSite site.now }
    ensures blocks { IfOk result (λ v. v.items ≡ blocks.loop_handler_blocks site.now) }
    ensures cuts { IfOk result (λ v. (code : Listing) (heartbeat : ℕ)
        → AreAt code site.now.label v.items
        → IsRoundLoop code site.now
        → CutsLoop code heartbeat site.now) }
    ensures fit { IfOk result (λ v. (tables : List CodeTable) (all : List Block)
        → HasLoopPlaces site.now tables all
        → AreBlocksOf tables all v.items) }
{
    let blocks = handler_blocks(alloc, site)?;
    Ok(blocks)
}
