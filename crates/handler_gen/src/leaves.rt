// The handler of a leaf loop, which has in registers what the handler of a loop finds in cells. A
// beat comes first to a block that stores them; where the task goes back they are loaded again.

ghost use Rattle.std.specs.Prelude.{◌≡◌, ℕ, ◌+◌, ◌++◌, ◌<◌, ◌≤◌, List, Some, length, IfOk, OnOk};
ghost use Rattle.tp_value.specs.declared.limits.TheConstants.{MAX_BLOCKS};
ghost use Rattle.tpal_syntax.specs.Conditions.{IsBlock};
ghost use Rattle.tpal_syntax.specs.declared.blocks.CodeTable.{CodeTable};
ghost use Rattle.expr_lower.specs.Standing.{AreAt};
ghost use Rattle.tpal_syntax.specs.Listing.{Listing};
ghost use Rattle.tpal_machine.specs.Reading.{block_at};
ghost use Rattle.expr_lower.specs.Fitting.{AreBlocksOf};
ghost use Rattle.handler_gen.specs.Fitting.{HasLeafPlaces};
ghost use Rattle.handler_gen.specs.LeafBlocks as blocks;
ghost use Rattle.handler_gen.specs.LeafCuts.{CutsLeaf, StartsLeaf};
ghost use Rattle.handler_gen.specs.LeafSites as sites;
ghost use Rattle.handler_gen.specs.LeafSites.{IsLeafSite};
ghost use Rattle.handler_gen.specs.LoopCuts.{IsRoundLoop};
ghost use Rattle.handler_gen.specs.Registers.{leaf_accs};

use crate::blocks::block_of;
use crate::labels::has_cells;
use crate::loops::handler_blocks;
use crate::registers::{BACK, CUT, LEAF_BOUND, LEAF_CURSOR, LEAF_FIRST_ACC, SPLIT};
use expr_lower::BASE;
use std::alloc::Global;
use tp_value::{Items, NoMemory, Op};
use tpal_syntax::{Block, Instr, LeafSite, LoopSite, Note, Term, Value};

/// The label at which a leaf loop begins, and its child: its registers are loaded there.
pub fn start_label(site: &LeafSite) -> u32
    requires { site.now.label < MAX_BLOCKS }
    ensures { result ≡ sites.start_label site.now }
{
    site.label + 8
}

/// The label of the promotion point of a leaf loop, which begins each iteration of a piece but the
/// first.
pub fn head_label(site: &LeafSite) -> u32
    requires { site.now.label < MAX_BLOCKS }
    ensures { result ≡ sites.head_label site.now }
{
    if has_cells(site.carries.items()) {
        site.label + 12
    } else {
        site.label + 11
    }
}

/// The loop that a leaf loop is while its registers are stored. Its blocks stand behind the two
/// first ones of the leaf loop.
pub fn stored_loop(alloc: Global, site: &LeafSite) -> Result<LoopSite, NoMemory>
    requires { site.now.label < MAX_BLOCKS }
    ensures { IfOk result (λ loop. loop ≡ sites.stored_loop site.now) }
{
    let accs = site.accs.items().to_vec(alloc)?;
    let carries = site.carries.items().to_vec(alloc)?;
    Ok(LoopSite {
        label: site.label + 2,
        cells: site.cells,
        cursor: site.cursor,
        bound: site.bound,
        rec: site.rec,
        mark: site.mark,
        accs: Items::new(accs),
        carries: Items::new(carries),
    })
}

/// The cells for which registers stand while a leaf loop runs, each with its register.
fn registers_of(alloc: Global, site: &LeafSite) -> Result<Vec<(u16, u8)>, NoMemory>
    requires few { length site.now.accs ≤ leaf_accs }
    ensures { IfOk result (λ v. v.items ≡ sites.registers_of site.now) }
{
    let mut all = Vec::new(alloc);
    all.push((site.cursor, LEAF_CURSOR))?;
    all.push((site.bound, LEAF_BOUND))?;
    let accs = site.accs.items();
    for before in 0..accs.len() {
        all.push((accs[before].0, LEAF_FIRST_ACC + before as u8))?;
    }
    Ok(all)
}

// Appends the stores of registers into their cells.
fn push_stores(body: &mut Vec<Instr>, registers: &[(u16, u8)]) -> Result<(), NoMemory>
    ensures { OnOk result (body.new.items ≡ body.old.items ++ blocks.stores_of registers.now) }
{
    for register in registers {
        body.push(Instr::Store {
            base: BASE,
            off: register.0,
            value: Value::Reg(register.1),
        })?;
    }
    Ok(())
}

// Appends the loads of registers from their cells.
fn push_loads(body: &mut Vec<Instr>, registers: &[(u16, u8)]) -> Result<(), NoMemory>
    ensures { OnOk result (body.new.items ≡ body.old.items ++ blocks.loads_of registers.now) }
{
    for register in registers {
        body.push(Instr::Load {
            to: register.1,
            base: BASE,
            off: register.0,
        })?;
    }
    Ok(())
}

/// Appends the stores of what a leaf loop has in registers into its cells. They stand where a piece
/// of it ends.
pub fn push_leaf_stores(
    alloc: Global,
    body: &mut Vec<Instr>,
    site: &LeafSite,
) -> Result<(), NoMemory>
    requires few { length site.now.accs ≤ leaf_accs }
    ensures { OnOk result
        (body.new.items ≡ body.old.items ++ blocks.stores_of (sites.registers_of site.now)) }
{
    let registers = registers_of(alloc, site)?;
    push_stores(body, &registers)
}

// The block to which a beat goes.
fn save_block(alloc: Global, site: &LeafSite) -> Result<Block, NoMemory>
    requires label { site.now.label < MAX_BLOCKS }
    requires few { length site.now.accs ≤ leaf_accs }
    ensures { IfOk result (λ block. block ≡ blocks.save_block site.now) }
{
    let mut body = Vec::new(alloc);
    push_leaf_stores(alloc, &mut body, site)?;
    body.push(Instr::Move {
        to: BACK,
        value: Value::Label(site.label + 1),
    })?;
    body.push(Instr::PrmSplit {
        base: CUT,
        split: SPLIT,
    })?;
    let handler = Term::Jump(Value::Reg(SPLIT));
    block_of(alloc, site.label, Note::Plain, body, handler)
}

// A block that loads the registers, and goes on at a label.
fn loads_block(alloc: Global, site: &LeafSite, label: u32, next: u32) -> Result<Block, NoMemory>
    requires few { length site.now.accs ≤ leaf_accs }
    ensures { IfOk result (λ block. block ≡ blocks.loads_block site.now label next) }
{
    let registers = registers_of(alloc, site)?;
    let mut body = Vec::new(alloc);
    push_loads(&mut body, &registers)?;
    let next = Term::Jump(Value::Label(next));
    block_of(alloc, label, Note::Plain, body, next)
}

/// The block where a leaf loop begins, and its child, at `start_label`: it loads the registers from
/// their cells, and the first iteration begins at a label.
pub fn leaf_start(alloc: Global, site: &LeafSite, first: u32) -> Result<Block, NoMemory>
    requires site { IsLeafSite site.now }
    ensures block { IfOk result (λ block. block ≡ blocks.start_block site.now first) }
    ensures starts { IfOk result (λ block. (code : Listing) (heartbeat : ℕ)
        → block_at code (sites.start_label site.now) ≡ Some block
        → StartsLeaf code heartbeat site.now first) }
    ensures fit { IfOk result (λ block. (tables : List CodeTable) (all : List Block)
        → first < length all
        → IsBlock tables all block) }
{
    let block = loads_block(alloc, site, start_label(site), first)?;
    Ok(block)
}

// The blocks of a leaf loop's handler.
fn leaf_blocks(alloc: Global, site: &LeafSite) -> Result<Vec<Block>, NoMemory>
    requires label { site.now.label < MAX_BLOCKS }
    requires few { length site.now.accs ≤ leaf_accs }
    ensures { IfOk result (λ v. v.items ≡ blocks.leaf_handler_blocks site.now) }
{
    let mut all = Vec::new(alloc);
    all.push(save_block(alloc, site)?)?;
    all.push(loads_block(alloc, site, site.label + 1, head_label(site))?)?;
    let stored = stored_loop(alloc, site)?;
    let mut cuts = handler_blocks(alloc, &stored)?;
    all.append(&mut cuts)?;
    Ok(all)
}

/// The blocks that cut a leaf loop in two, from its label on: the one that stores its registers, to
/// which the beats of its promotion point go, the one that loads them again, and behind them those
/// of a loop's handler. In a code that has them there the task comes to the handler of the oldest
/// mark, whichever that is, and goes back to the promotion point with its registers loaded again.
/// Where the oldest mark is the loop's own, it asks for a join record once, and its iterations that
/// aren't begun are cut as `split_range` cuts them, or it goes back unchanged where there is none.
pub fn leaf_handler(alloc: Global, site: &LeafSite) -> Result<Vec<Block>, NoMemory>
    requires site { IsLeafSite site.now }
    ensures blocks { IfOk result (λ v. v.items ≡ blocks.leaf_handler_blocks site.now) }
    ensures cuts { IfOk result (λ v. (code : Listing) (heartbeat : ℕ)
        → AreAt code site.now.label v.items
        → IsRoundLoop code (sites.stored_loop site.now)
        → CutsLeaf code heartbeat site.now) }
    ensures fit { IfOk result (λ v. (tables : List CodeTable) (all : List Block)
        → HasLeafPlaces site.now tables all
        → AreBlocksOf tables all v.items) }
{
    let blocks = leaf_blocks(alloc, site)?;
    Ok(blocks)
}
