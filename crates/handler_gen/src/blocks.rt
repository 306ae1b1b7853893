// Blocks at their labels, and those that both handlers have.

ghost use Rattle.std.specs.Prelude.{◌≡◌, ◌+◌, ℕ, ◌<◌, ◌++◌, List, Some, IfOk, OnOk};
ghost use Rattle.tp_value.specs.declared.limits.TheConstants.{MAX_BLOCKS};
ghost use Rattle.tpal_syntax.specs.Conditions.{IsBlock};
ghost use Rattle.tpal_syntax.specs.declared.blocks.CodeTable.{CodeTable};
ghost use Rattle.tpal_syntax.specs.Listing.{Listing};
ghost use Rattle.tpal_machine.specs.Reading.{block_at};
ghost use Rattle.handler_gen.specs.Blocks as blocks;
ghost use Rattle.handler_gen.specs.Dispatching.{Dispatches};

use crate::labels::{back_label, target_label};
use crate::registers::{BACK, CUT, RECORD, SPLIT, TEST};
use expr_lower::name_of;
use std::alloc::Global;
use tp_value::{Items, NoMemory};
use tpal_syntax::{Alu, Block, Instr, Note, Term, Value};

/// A block at a label, after which it is named.
pub fn block_of(
    alloc: Global,
    label: u32,
    note: Note,
    body: Vec<Instr>,
    term: Term,
) -> Result<Block, NoMemory>
    ensures { IfOk result (λ block. block ≡ blocks.block_of label note body.items term) }
{
    let name = name_of(alloc, label)?;
    Ok(Block {
        name: Items::new(name),
        note,
        body: Items::new(body),
        term,
    })
}

// The block of `dispatch`.
fn dispatch_block(alloc: Global, label: u32) -> Result<Block, NoMemory>
    ensures { IfOk result (λ block. block ≡ blocks.dispatch_block label) }
{
    let body = vec![in alloc;
        Instr::PrmSplit {
            base: CUT,
            split: SPLIT
        },
    ]?;
    block_of(
        alloc,
        label,
        Note::Plain,
        body,
        Term::Jump(Value::Reg(SPLIT)),
    )
}

/// The block to which each beat goes, at a label. In a code that has it there a task in which a
/// mark stands comes to the split label of the oldest mark, with that mark's base in r28.
pub fn dispatch(alloc: Global, label: u32) -> Result<Block, NoMemory>
    requires label { label < MAX_BLOCKS + 2 }
    ensures block { IfOk result (λ block. block ≡ blocks.dispatch_block label) }
    ensures dispatches { IfOk result (λ block. (code : Listing) (heartbeat : ℕ)
        → block_at code label ≡ Some block
        → Dispatches code heartbeat label) }
    ensures fits { IfOk result (λ block. (tables : List CodeTable) (all : List Block)
        → IsBlock tables all block) }
{
    let block = dispatch_block(alloc, label)?;
    Ok(block)
}

/// Appends the instructions that ask for a join record in r24, and go back where there is none.
pub fn push_ask(body: &mut Vec<Instr>, label: u32) -> Result<(), NoMemory>
    requires label { label < MAX_BLOCKS + 2 }
    ensures { OnOk result (body.new.items ≡ body.old.items ++ blocks.ask label) }
{
    body.push(Instr::JrAlloc {
        to: RECORD,
        target: target_label(label),
    })?;
    body.push(Instr::Calc {
        to: TEST,
        left: RECORD,
        alu: Alu::Eq,
        right: Value::Nil,
    })?;
    body.push(Instr::IfJump {
        test: TEST,
        label: back_label(label),
    })?;
    Ok(())
}

/// The block that goes back to where the beat came.
pub fn back_block(alloc: Global, label: u32) -> Result<Block, NoMemory>
    requires label { label < MAX_BLOCKS + 2 }
    ensures { IfOk result (λ block. block ≡ blocks.back_block label) }
{
    let back = Term::Jump(Value::Reg(BACK));
    block_of(alloc, back_label(label), Note::Plain, Vec::new(alloc), back)
}
