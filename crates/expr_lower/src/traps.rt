// Blocks that trap, and the names of blocks.

ghost use Rattle.std.specs.Prelude.{◌≡◌, ◌+◌, ◌++◌, [], ◌∷◌, List, IfOk, IsTrue, OnOk};
ghost use Rattle.tpal_syntax.specs.Parts.{is_place};
ghost use Rattle.tpal_syntax.specs.declared.blocks.Block.{Block};
ghost use Rattle.tpal_syntax.specs.declared.blocks.CodeTable.{CodeTable};
ghost use Rattle.expr_lower.specs.Bodies.{name_of, trap_block};
ghost use Rattle.expr_lower.specs.Fitting.{AreBlocksOf};

use itoa::Buffer;
use std::alloc::Global;
use tp_value::{Items, NoMemory, Place, TrapKind};
use tpal_syntax::{Block, Instr, Note, Term};

/// The name of the block at a label: `b` and the label in decimal.
pub fn name_of(alloc: Global, label: u32) -> Result<Vec<u8>, NoMemory>
    ensures { IfOk result (λ name. name.items ≡ name_of label) }
{
    let mut name = Vec::new(alloc);
    name.push(b'b')?;
    let mut buffer = Buffer::new();
    name.extend_from_slice(buffer.format(label).as_bytes())?;
    Ok(name)
}

fn trap_block(alloc: Global, label: u32, kind: TrapKind, place: Place) -> Result<Block, NoMemory>
    ensures { IfOk result (λ block. block ≡ trap_block label kind place) }
{
    let name = name_of(alloc, label)?;
    let mut body = Vec::new(alloc);
    body.push(Instr::Trap { kind, place })?;
    Ok(Block {
        name: Items::new(name),
        note: Note::Plain,
        body: Items::new(body),
        term: Term::Halt,
    })
}

/// Appends the block that traps, which stands at a label. It is one of any code, where the place
/// has a line and a column.
pub fn push_trap(
    alloc: Global,
    traps: &mut Vec<Block>,
    label: u32,
    kind: TrapKind,
    place: Place,
) -> Result<(), NoMemory>
    ensures traps { OnOk result
        (traps.new.items ≡ traps.old.items ++ trap_block label kind place ∷ []) }
    ensures fit { OnOk result ((tables : List CodeTable) (all : List Block)
        → IsTrue (is_place place)
        → AreBlocksOf tables all traps.old.items
        → AreBlocksOf tables all traps.new.items) }
{
    let block = trap_block(alloc, label, kind, place)?;
    traps.push(block)?;
    Ok(())
}
