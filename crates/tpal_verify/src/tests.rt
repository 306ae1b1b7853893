// Small codes, and the first break of each. Blocks are named by letters in order.

use crate::{VerifyFault, verify};
use std::alloc::Global;
use std::test::Fail;
use tp_value::{Items, NoMemory, Place, TrapKind};
use tpal_syntax::{Alu, Block, Code, CutKind, Instr, Note, Target, Term, Value};

pub(crate) const JUMP_BACK: Term = Term::Jump(Value::Reg(30));

pub(crate) fn block(
    alloc: Global,
    name: u8,
    note: Note,
    body: &[Instr],
    term: Term,
) -> Result<Block, NoMemory> {
    Ok(Block {
        name: Items::new(Vec::from_slice(alloc, &[name])?),
        note,
        body: Items::new(Vec::from_slice(alloc, body)?),
        term,
    })
}

pub(crate) const fn set(to: u8, number: i64) -> Instr {
    Instr::Move {
        to,
        value: Value::Int(number),
    }
}

const fn copy(to: u8, from: u8) -> Instr {
    Instr::Move {
        to,
        value: Value::Reg(from),
    }
}

pub(crate) const fn calc(to: u8, left: u8, alu: Alu, right: Value) -> Instr {
    Instr::Calc {
        to,
        left,
        alu,
        right,
    }
}

pub(crate) const fn if_jump(test: u8, label: u32) -> Instr {
    Instr::IfJump { test, label }
}

pub(crate) const fn jump(label: u32) -> Term {
    Term::Jump(Value::Label(label))
}

pub(crate) const fn mark(cells: u16, split: u32) -> Instr {
    Instr::PrmPush {
        base: 31,
        off: 0,
        cells,
        split,
    }
}

const POP: Instr = Instr::PrmPop { base: 31, off: 0 };

// What the verifier answers of the blocks.
fn answer(alloc: Global, blocks: Vec<Block>) -> Result<Option<VerifyFault>, Fail> {
    let code = Code::new(alloc, Vec::new(alloc), blocks)?.ok_or("a code")?;
    match verify(alloc, code) {
        Ok(_) => Ok(None),
        Err((_, fault)) => Ok(Some(fault)),
    }
}

const fn broken(block: u32, at: u32, rule: u8) -> Option<VerifyFault> {
    Some(VerifyFault::Broken { rule, block, at })
}

// A sum over 0 to 99 that can be cut: main, the head, a round, the end, the output, the handler,
// the way back, the child, the combining block and the join target.
#[derive(Drop)]
struct Sum<'a> {
    round_test: [Instr; 2],
    end_test: [Instr; 2],
    forks: &'a [Instr],
    end: Term,
}

const LESS: Instr = Instr::Calc {
    to: 3,
    left: 0,
    alu: Alu::Lt,
    right: Value::Reg(1),
};

const IS_NIL: Instr = Instr::Calc {
    to: 3,
    left: 4,
    alu: Alu::Eq,
    right: Value::Nil,
};

const FORK: Instr = Instr::Fork { rec: 4, child: 7 };

const KEEP: Instr = Instr::Store {
    base: 31,
    off: 1,
    value: Value::Reg(4),
};

fn sum_loop(alloc: Global, sum: &Sum, blocks: &mut Vec<Block>) -> Result<(), NoMemory> {
    let main = [
        Instr::Salloc(2),
        Instr::Store {
            base: 31,
            off: 1,
            value: Value::Nil,
        },
        set(0, 0),
        set(1, 100),
        set(2, 0),
        mark(2, 5),
    ];
    let [test, again] = sum.round_test;
    let round = [
        calc(2, 2, Alu::Add, Value::Reg(0)),
        calc(0, 0, Alu::Add, Value::Int(1)),
        test,
        again,
    ];
    let record = Instr::Load {
        to: 4,
        base: 31,
        off: 1,
    };
    let [test, last] = sum.end_test;
    blocks.push(block(alloc, b'a', Note::Plain, &main, jump(2))?)?;
    blocks.push(block(alloc, b'b', Note::Ready(5), &[], jump(2))?)?;
    blocks.push(block(alloc, b'c', Note::Plain, &round, jump(3))?)?;
    blocks.push(block(
        alloc,
        b'd',
        Note::Plain,
        &[POP, record, test, last],
        sum.end,
    )?)?;
    blocks.push(block(alloc, b'e', Note::Plain, &[Instr::Print(2)], Term::Halt)?)?;
    Ok(())
}

fn sum_cuts(alloc: Global, sum: &Sum, blocks: &mut Vec<Block>) -> Result<(), NoMemory> {
    let ask = Instr::JrAlloc { to: 4, target: 9 };
    let half = [
        calc(5, 1, Alu::Sub, Value::Reg(0)),
        calc(5, 5, Alu::Div, Value::Int(2)),
        calc(5, 5, Alu::Add, Value::Reg(0)),
    ];
    let mut handler = Vec::from_slice(alloc, &[ask, IS_NIL, if_jump(3, 6)])?;
    for instr in half {
        handler.push(instr)?;
    }
    for instr in sum.forks {
        handler.push(*instr)?;
    }
    let child = [KEEP, copy(0, 5), set(2, 0), mark(2, 5)];
    let adds = [calc(2, 2, Alu::Add, Value::Reg(6))];
    let joint = Note::Target(Target {
        comm: false,
        renames: Items::new(Vec::from_slice(alloc, &[(2, 6), (4, 7)])?),
        comb: 8,
        kind: CutKind::Loop,
        carries: Items::new(Vec::new(alloc)),
    });
    blocks.push(block(alloc, b'f', Note::Plain, &handler, jump(3))?)?;
    blocks.push(block(alloc, b'g', Note::Plain, &[], JUMP_BACK)?)?;
    blocks.push(block(alloc, b'h', Note::Plain, &child, jump(2))?)?;
    blocks.push(block(alloc, b'i', Note::Plain, &adds, Term::Join(4))?)?;
    blocks.push(block(alloc, b'j', joint, &[], jump(3))?)?;
    Ok(())
}

fn sum_answer(alloc: Global, sum: &Sum) -> Result<Option<VerifyFault>, Fail> {
    let mut blocks = Vec::new(alloc);
    sum_loop(alloc, sum, &mut blocks)?;
    sum_cuts(alloc, sum, &mut blocks)?;
    answer(alloc, blocks)
}

// A sum is accepted; not with two forks in a row, with another end of a piece, or with its two
// tests in each other's place.
#[test]
fn sums_that_are_cut(rt: HostRuntime) -> Result<(), Fail> {
    let round = [LESS, if_jump(3, 1)];
    let last = [IS_NIL, if_jump(3, 4)];
    let once = [FORK, KEEP, copy(1, 5), LESS, if_jump(3, 6)];
    let twice = [FORK, FORK, KEEP, copy(1, 5), LESS, if_jump(3, 6)];
    let cases: [([Instr; 2], [Instr; 2], &[Instr], Term, Option<VerifyFault>); 4] = [
        (round, last, &once, Term::Join(4), None),
        (round, last, &twice, Term::Join(4), broken(5, 7, 5)),
        (round, last, &once, Term::Halt, broken(3, 4, 6)),
        (
            [IS_NIL, if_jump(3, 1)],
            [LESS, if_jump(3, 4)],
            &once,
            Term::Join(4),
            broken(3, 2, 2),
        ),
    ];
    for (round_test, end_test, forks, end, wanted) in cases {
        let sum = Sum {
            round_test,
            end_test,
            forks,
            end,
        };
        assert_eq!(rt; sum_answer(rt.alloc(), &sum)?, wanted);
    }
    Ok(())
}

// One block, which ends by a halt or a jump back, and a second one that halts.
#[test]
fn small_codes(rt: HostRuntime) -> Result<(), Fail> {
    let place = Place { line: 1, col: 1 };
    let stop = Instr::Trap {
        kind: TrapKind::Divide,
        place,
    };
    let test = calc(1, 0, Alu::Eq, Value::Nil);
    let five = [
        set(0, 2),
        calc(0, 0, Alu::Add, Value::Int(3)),
        Instr::Print(0),
    ];
    let cases: [(&[Instr], Term, &[Instr], Option<VerifyFault>); 6] = [
        (&five, Term::Halt, &[], None),
        (
            &[set(0, 1), calc(0, 0, Alu::Div, Value::Int(0))],
            Term::Halt,
            &[],
            None,
        ),
        (&[test, if_jump(1, 1)], JUMP_BACK, &[], None),
        (
            &[set(0, 1), test, if_jump(1, 1)],
            JUMP_BACK,
            &[],
            broken(0, 3, 7),
        ),
        (&[stop], JUMP_BACK, &[], None),
        (&[], Term::Halt, &[set(31, 1)], broken(1, 0, 1)),
    ];
    for (main, end, other, wanted) in cases {
        let mut blocks = Vec::new(rt.alloc());
        blocks.push(block(rt.alloc(), b'a', Note::Plain, main, end)?)?;
        blocks.push(block(rt.alloc(), b'b', Note::Plain, other, Term::Halt)?)?;
        assert_eq!(rt; answer(rt.alloc(), blocks)?, wanted);
    }
    Ok(())
}

// The first block is promotion-ready, and a handler goes back to it.
#[test]
fn first_blocks_that_are_entered_again(rt: HostRuntime) -> Result<(), Fail> {
    let cases: [(&[Instr], Option<VerifyFault>); 2] = [
        (&[Instr::Salloc(1), POP, mark(1, 2)], None),
        (&[Instr::Salloc(1), mark(1, 2)], broken(0, 1, 3)),
    ];
    for (main, wanted) in cases {
        let mut blocks = Vec::new(rt.alloc());
        blocks.push(block(rt.alloc(), b'a', Note::Ready(2), main, jump(1))?)?;
        blocks.push(block(rt.alloc(), b'b', Note::Ready(2), &[Instr::Tick], jump(1))?)?;
        blocks.push(block(rt.alloc(), b'c', Note::Plain, &[], JUMP_BACK)?)?;
        assert_eq!(rt; answer(rt.alloc(), blocks)?, wanted);
    }
    Ok(())
}
