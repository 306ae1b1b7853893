// A code that prints 5.

ghost use Rattle.std.specs.Prelude.{◌≡◌, IfOk, IfSome};
ghost use Rattle.tpal_machine.specs.Sample.{two_and_three};

use std::alloc::Global;
use tp_value::{Items, NoMemory};
use tpal_syntax::{Alu, Block, Code, Instr, Note, Term, Value};

/// A code of one plain block: r0 := 2, r0 := r0 add 3, print r0, halt.
pub fn five(alloc: Global) -> Result<Option<Code>, NoMemory>
    ensures { IfOk result (λ made. IfSome made (λ code. code ≡ two_and_three)) }
{
    let body = [
        Instr::Move {
            to: 0,
            value: Value::Int(2),
        },
        Instr::Calc {
            to: 0,
            left: 0,
            alu: Alu::Add,
            right: Value::Int(3),
        },
        Instr::Print(0),
    ];
    let mut blocks = Vec::new(alloc);
    blocks.push(Block {
        name: Items::new(Vec::from_slice(alloc, b"main")?),
        note: Note::Plain,
        body: Items::new(Vec::from_slice(alloc, &body)?),
        term: Term::Halt,
    })?;
    Code::new(alloc, Vec::new(alloc), blocks)
}
