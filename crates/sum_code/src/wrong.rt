// The code of a sum of three numbers with one fault each, to see that a law refuses it.

ghost use Rattle.std.specs.Prelude.{◌≡◌, IfOk, IfSome, IsSome};
ghost use Rattle.sum_code.specs.Wrong as wrong;

use crate::code::{calc, end_block, keep, main_block, mark, plain, set, sum_with, to_block};
use std::alloc::Global;
use tp_value::NoMemory;
use tpal_syntax::{Alu, Block, Code, Instr, Term, Value};

fn keeping_child(alloc: Global) -> Result<Block, NoMemory>
    ensures { IfOk result (λ made. made ≡ wrong.keeping_child) }
{
    let body = [keep(Value::Reg(4)), set(0, Value::Reg(5)), mark()];
    plain(alloc, b"child", &body, to_block(2))
}

/// The code of the sum below 3 with a child that begins with the left's sum so far, and not with 0.
/// It meets the conditions of codes, so None never comes.
pub fn with_kept_sum(alloc: Global) -> Result<Option<Code>, NoMemory>
    ensures code { IfOk result (λ made. IfSome made (λ code. code ≡ wrong.with_kept_sum)) }
    ensures some { IfOk result (λ made. IsSome made) }
{
    let main = main_block(alloc, 3)?;
    let end = end_block(alloc)?;
    let child = keeping_child(alloc)?;
    sum_with(alloc, main, end, child)
}

fn unmarked_main(alloc: Global) -> Result<Block, NoMemory>
    ensures { IfOk result (λ made. made ≡ wrong.unmarked_main) }
{
    let body = [
        Instr::Salloc(2),
        keep(Value::Nil),
        set(0, Value::Int(0)),
        set(1, Value::Int(3)),
        set(2, Value::Int(0)),
    ];
    plain(alloc, b"main", &body, to_block(2))
}

fn unmarked_end(alloc: Global) -> Result<Block, NoMemory>
    ensures { IfOk result (λ made. made ≡ wrong.unmarked_end) }
{
    let body = [
        Instr::Load {
            to: 4,
            base: 31,
            off: 1,
        },
        calc(3, 4, Alu::Eq, Value::Nil),
        Instr::IfJump { test: 3, label: 4 },
    ];
    plain(alloc, b"end", &body, Term::Join(4))
}

fn unmarked_child(alloc: Global) -> Result<Block, NoMemory>
    ensures { IfOk result (λ made. made ≡ wrong.unmarked_child) }
{
    let body = [
        keep(Value::Reg(4)),
        set(0, Value::Reg(5)),
        set(2, Value::Int(0)),
    ];
    plain(alloc, b"child", &body, to_block(2))
}

/// The code of the sum below 3 with no mark, so that no beat cuts its loop. It meets the conditions
/// of codes, so None never comes.
pub fn with_no_mark(alloc: Global) -> Result<Option<Code>, NoMemory>
    ensures code { IfOk result (λ made. IfSome made (λ code. code ≡ wrong.with_no_mark)) }
    ensures some { IfOk result (λ made. IsSome made) }
{
    let main = unmarked_main(alloc)?;
    let end = unmarked_end(alloc)?;
    let child = unmarked_child(alloc)?;
    sum_with(alloc, main, end, child)
}
