// Prints a code that it makes itself, some times over.

use std::alloc::Global;
use std::io;
use std::io::Write;
use tp_value::{Items, NoMemory};
use tpal_print::print_code;
use tpal_syntax::{Alu, Block, Code, Instr, Note, Term, Value};

fn body(alloc: Global, label: u32) -> Result<Vec<Instr>, NoMemory> {
    Ok(Vec::from_slice(
        alloc,
        &[
            Instr::Load {
                to: 4,
                base: 31,
                off: 17,
            },
            Instr::Calc {
                to: 4,
                left: 4,
                alu: Alu::Add,
                right: Value::Int(123_456_789),
            },
            Instr::Store {
                base: 31,
                off: 17,
                value: Value::Reg(4),
            },
            Instr::Fetch {
                to: 5,
                table: 0,
                row: 1,
                col: 2,
            },
            Instr::Tick,
            Instr::IfJump { test: 5, label },
        ],
    )?)
}

fn block(alloc: Global, label: u32) -> Result<Block, NoMemory> {
    let name = format!(in alloc; "b{label}")?;
    Ok(Block {
        name: Items::new(Vec::from_slice(alloc, name.as_bytes())?),
        note: Note::Plain,
        body: Items::new(body(alloc, label)?),
        term: Term::Jump(Value::Label(label)),
    })
}

fn made(alloc: Global, count: u32) -> Result<Option<Code>, NoMemory> {
    let mut tables = Vec::new(alloc);
    tables.push(tpal_syntax::CodeTable::Made)?;
    let mut blocks = Vec::new(alloc);
    for label in 0..count {
        blocks.push(block(alloc, label)?)?;
    }
    Code::new(alloc, tables, blocks)
}

fn printed(alloc: Global, count: u32, times: u32) -> Result<Vec<u8>, NoMemory> {
    let mut text = Vec::new(alloc);
    if let Some(code) = made(alloc, count)? {
        for _ in 0..times {
            text = print_code(alloc, &code)?;
        }
    }
    Ok(text)
}

/// Prints a code of so many blocks so many times, and writes its text once. bench/code_text.sh
/// times it beside `wc -l` on the same text.
pub fn run(rt: &HostRuntime, count: u32, times: u32) -> io::Result<()> {
    match printed(rt.alloc(), count, times) {
        Ok(text) => io::writer(rt).write_all(&text),
        Err(NoMemory) => println!(rt; "no memory"),
    }
}
