// Short ways to write blocks and instructions, and the op of such.

use std::alloc::Global;
use tp_value::{Items, NoMemory};
use tpal_syntax::{Alu, Block, Code, CodeTable, Instr, Note, Op, Term, Value};

pub(crate) fn block(
    alloc: Global,
    name: &[u8],
    note: Note,
    body: &[Instr],
    term: Term,
) -> Result<Block, NoMemory> {
    Ok(Block {
        name: Items::new(Vec::from_slice(alloc, name)?),
        note,
        body: Items::new(Vec::from_slice(alloc, body)?),
        term,
    })
}

pub(crate) const fn calc(to: u8, left: u8, alu: Alu, right: Value) -> Instr {
    Instr::Calc {
        to,
        left,
        alu,
        right,
    }
}

pub(crate) const fn load(to: u8, base: u8, off: u16) -> Instr {
    Instr::Load { to, base, off }
}

pub(crate) const fn store(base: u8, off: u16, value: Value) -> Instr {
    Instr::Store { base, off, value }
}

pub(crate) const fn if_jump(test: u8, label: u32) -> Instr {
    Instr::IfJump { test, label }
}

pub(crate) const fn fetch(to: u8, table: u8, row: u8, col: u8) -> Instr {
    Instr::Fetch {
        to,
        table,
        row,
        col,
    }
}

pub(crate) const fn put(table: u8, row: u8, col: u8, value: u8) -> Instr {
    Instr::Put {
        table,
        row,
        col,
        value,
    }
}

pub(crate) const fn set(to: u8, number: i64) -> Instr {
    Instr::Move {
        to,
        value: Value::Int(number),
    }
}

// The op that stands at the beginning of a block, in a code of two blocks and two tables.
pub(crate) fn first_op(alloc: Global, body: &[Instr], term: Term) -> Result<Option<Op>, NoMemory> {
    let mut blocks = Vec::new(alloc);
    blocks.push(block(alloc, b"main", Note::Plain, body, term)?)?;
    blocks.push(block(alloc, b"last", Note::Plain, &[], Term::Halt)?)?;
    let mut tables = Vec::new(alloc);
    tables.push(CodeTable::Made)?;
    tables.push(CodeTable::Made)?;
    match Code::new(alloc, tables, blocks)? {
        None => Ok(None),
        Some(code) => Ok(code.flat().ops.first().copied()),
    }
}
