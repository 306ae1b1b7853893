// The code, block by block.

ghost use Rattle.std.specs.Prelude.{◌≡◌, [], IfOk, IfSome, IfNone, IsSome};
ghost use Rattle.sum_code.specs.Sum as sum;
ghost use Rattle.tpal_syntax.specs.Conditions.{IsCode};
ghost use Rattle.tpal_syntax.specs.declared.instructions.Instr.TheVariants as instr;
ghost use Rattle.tpal_syntax.specs.declared.instructions.Term.TheVariants as term;
ghost use Rattle.tpal_syntax.specs.declared.instructions.Value.TheVariants as value;

use std::alloc::Global;
use tp_value::{Items, NoMemory};
use tpal_syntax::{Alu, Block, Code, CutKind, Instr, Note, Target, Term, Value};

pub(crate) const fn set(to: u8, value: Value) -> Instr
    ensures { result ≡ instr.Move to value }
{
    Instr::Move { to, value }
}

pub(crate) const fn calc(to: u8, left: u8, alu: Alu, right: Value) -> Instr
    ensures { result ≡ instr.Calc to left alu right }
{
    Instr::Calc {
        to,
        left,
        alu,
        right,
    }
}

// The cell that holds the record of the side, or nothing.
pub(crate) const fn keep(value: Value) -> Instr
    ensures { result ≡ instr.Store 31 1 value }
{
    Instr::Store {
        base: 31,
        off: 1,
        value,
    }
}

// The mark of the loop, on the first cell.
pub(crate) const fn mark() -> Instr
    ensures { result ≡ instr.PrmPush 31 0 2 5 }
{
    Instr::PrmPush {
        base: 31,
        off: 0,
        cells: 2,
        split: 5,
    }
}

fn block(
    alloc: Global,
    name: &[u8],
    note: Note,
    body: &[Instr],
    term: Term,
) -> Result<Block, NoMemory>
    ensures { IfOk result
        (λ made. made ≡ record { name = name.now; note = note; body = body.now; term = term }) }
{
    Ok(Block {
        name: Items::new(Vec::from_slice(alloc, name)?),
        note,
        body: Items::new(Vec::from_slice(alloc, body)?),
        term,
    })
}

pub(crate) fn plain(
    alloc: Global,
    name: &[u8],
    body: &[Instr],
    term: Term,
) -> Result<Block, NoMemory>
    ensures { IfOk result (λ made. made ≡ sum.plain name.now body.now term) }
{
    block(alloc, name, Note::Plain, body, term)
}

pub(crate) const fn to_block(label: u32) -> Term
    ensures { result ≡ term.Jump (value.Label label) }
{
    Term::Jump(Value::Label(label))
}

pub(crate) fn main_block(alloc: Global, count: u32) -> Result<Block, NoMemory>
    ensures { IfOk result (λ made. made ≡ sum.main_block count) }
{
    let body = [
        Instr::Salloc(2),
        keep(Value::Nil),
        set(0, Value::Int(0)),
        set(1, Value::Int(i64::from(count))),
        set(2, Value::Int(0)),
        mark(),
    ];
    plain(alloc, b"main", &body, to_block(2))
}

fn loop_block(alloc: Global) -> Result<Block, NoMemory>
    ensures { IfOk result (λ made. made ≡ sum.loop_block) }
{
    block(alloc, b"loop", Note::Ready(5), &[], to_block(2))
}

fn body_block(alloc: Global) -> Result<Block, NoMemory>
    ensures { IfOk result (λ made. made ≡ sum.body_block) }
{
    let body = [
        calc(2, 2, Alu::Add, Value::Reg(0)),
        calc(0, 0, Alu::Add, Value::Int(1)),
        calc(3, 0, Alu::Lt, Value::Reg(1)),
        Instr::IfJump { test: 3, label: 1 },
    ];
    plain(alloc, b"body", &body, to_block(3))
}

pub(crate) fn end_block(alloc: Global) -> Result<Block, NoMemory>
    ensures { IfOk result (λ made. made ≡ sum.end_block) }
{
    let body = [
        Instr::PrmPop { base: 31, off: 0 },
        Instr::Load {
            to: 4,
            base: 31,
            off: 1,
        },
        calc(3, 4, Alu::Eq, Value::Nil),
        Instr::IfJump { test: 3, label: 4 },
    ];
    plain(alloc, b"end", &body, Term::Join(4))
}

fn out_block(alloc: Global) -> Result<Block, NoMemory>
    ensures { IfOk result (λ made. made ≡ sum.out_block) }
{
    plain(alloc, b"out", &[Instr::Print(2)], Term::Halt)
}

fn beat_block(alloc: Global) -> Result<Block, NoMemory>
    ensures { IfOk result (λ made. made ≡ sum.beat_block) }
{
    let body = [
        Instr::JrAlloc { to: 4, target: 9 },
        calc(3, 4, Alu::Eq, Value::Nil),
        Instr::IfJump { test: 3, label: 6 },
        calc(5, 1, Alu::Sub, Value::Reg(0)),
        calc(5, 5, Alu::Div, Value::Int(2)),
        calc(5, 5, Alu::Add, Value::Reg(0)),
        Instr::Fork { rec: 4, child: 7 },
        keep(Value::Reg(4)),
        set(1, Value::Reg(5)),
        calc(3, 0, Alu::Lt, Value::Reg(1)),
        Instr::IfJump { test: 3, label: 6 },
    ];
    plain(alloc, b"beat", &body, to_block(3))
}

fn back_block(alloc: Global) -> Result<Block, NoMemory>
    ensures { IfOk result (λ made. made ≡ sum.back_block) }
{
    plain(alloc, b"back", &[], Term::Jump(Value::Reg(30)))
}

fn child_block(alloc: Global) -> Result<Block, NoMemory>
    ensures { IfOk result (λ made. made ≡ sum.child_block) }
{
    let body = [
        keep(Value::Reg(4)),
        set(0, Value::Reg(5)),
        set(2, Value::Int(0)),
        mark(),
    ];
    plain(alloc, b"child", &body, to_block(2))
}

fn comb_block(alloc: Global) -> Result<Block, NoMemory>
    ensures { IfOk result (λ made. made ≡ sum.comb_block) }
{
    let body = [calc(2, 2, Alu::Add, Value::Reg(6))];
    plain(alloc, b"comb", &body, Term::Join(4))
}

fn joined_block(alloc: Global) -> Result<Block, NoMemory>
    ensures { IfOk result (λ made. made ≡ sum.joined_block) }
{
    let target = Target {
        comm: false,
        renames: Items::new(Vec::from_slice(alloc, &[(2, 6), (4, 7)])?),
        comb: 8,
        kind: CutKind::Loop,
        carries: Items::new(Vec::new(alloc)),
    };
    block(alloc, b"joined", Note::Target(target), &[], to_block(3))
}

/// The code with these blocks for its begin, its end and its child.
pub(crate) fn sum_with(
    alloc: Global,
    main: Block,
    end: Block,
    child: Block,
) -> Result<Option<Code>, NoMemory>
    ensures code { IfOk result
        (λ made. IfSome made (λ code. code ≡ sum.sum_with main end child)) }
    ensures none { IfOk result
        (λ made. IfNone made (¬ IsCode [] (sum.sum_with main end child).blocks)) }
{
    let mut blocks = Vec::new(alloc);
    blocks.push(main)?;
    blocks.push(loop_block(alloc)?)?;
    blocks.push(body_block(alloc)?)?;
    blocks.push(end)?;
    blocks.push(out_block(alloc)?)?;
    blocks.push(beat_block(alloc)?)?;
    blocks.push(back_block(alloc)?)?;
    blocks.push(child)?;
    blocks.push(comb_block(alloc)?)?;
    blocks.push(joined_block(alloc)?)?;
    Code::new(alloc, Vec::new(alloc), blocks)
}

/// The code that prints the sum of the numbers below `count`, where that is from 1 to 2^31. It
/// meets the conditions of codes at every count, so None never comes.
pub fn sum_below(alloc: Global, count: u32) -> Result<Option<Code>, NoMemory>
    ensures code { IfOk result (λ made. IfSome made (λ code. code ≡ sum.sum_below count)) }
    ensures some { IfOk result (λ made. IsSome made) }
{
    let main = main_block(alloc, count)?;
    let end = end_block(alloc)?;
    let child = child_block(alloc)?;
    sum_with(alloc, main, end, child)
}
