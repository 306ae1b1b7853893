// Codes that are made, with their ops: which instructions stand together in one, and which only
// look so. Which lists are a code is told by cases of `tests_conformance`.

use crate::shorthand::{block, calc, first_op, if_jump, load, store};
use std::test::Fail;
use tpal_syntax::{Alu, Code, Instr, Note, Op, OpRange, Term, Value};

#[test]
fn a_code_lends_its_lists(rt: HostRuntime) -> Result<(), Fail> {
    let mut blocks = Vec::new(rt.alloc());
    blocks.push(block(rt.alloc(), b"main", Note::Plain, &[], Term::Halt)?)?;
    let code = Code::new(rt.alloc(), Vec::new(rt.alloc()), blocks)?.ok_or("a code")?;
    assert_eq!(rt; code.tables().len(), 0);
    assert_eq!(rt; code.blocks().len(), 1);
    assert!(rt; Code::new(rt.alloc(), Vec::new(rt.alloc()), Vec::new(rt.alloc()))?.is_none());
    Ok(())
}

#[test]
fn blocks_are_ops(rt: HostRuntime) -> Result<(), Fail> {
    let body = [
        Instr::Calc {
            to: 1,
            left: 2,
            alu: Alu::Sub,
            right: Value::Int(-5),
        },
        Instr::Move {
            to: 0,
            value: Value::Int(1 << 31),
        },
    ];
    let jump = Term::Jump(Value::Label(1));
    let mut blocks = Vec::new(rt.alloc());
    blocks.push(block(rt.alloc(), b"main", Note::Plain, &body, jump)?)?;
    blocks.push(block(rt.alloc(), b"last", Note::Ready(0), &[], Term::Halt)?)?;
    let code = Code::new(rt.alloc(), Vec::new(rt.alloc()), blocks)?.ok_or("a code")?;
    let flat = code.flat();
    let ops = [Op::SubInt(1, 2, -5), Op::Leave, Op::Jump(1), Op::Leave];
    assert_eq!(rt; flat.ops.as_slice(), ops.as_slice());
    let ranges = [OpRange { start: 0, end: 3 }, OpRange { start: 3, end: 4 }];
    assert_eq!(rt; flat.ranges.as_slice(), ranges.as_slice());
    assert_eq!(rt; flat.doors[1].end, usize::MAX);
    Ok(())
}

#[test]
fn sums_and_stores_are_one_op(rt: HostRuntime) -> Result<(), Fail> {
    let sum = calc(2, 0, Alu::Add, Value::Reg(1));
    let more = calc(2, 0, Alu::Add, Value::Int(-9));
    let long = calc(2, 0, Alu::Add, Value::Int(1 << 15));
    let fewer = calc(2, 0, Alu::Sub, Value::Int(9));
    let base = calc(31, 0, Alu::Add, Value::Reg(1));
    let kept = store(31, 7, Value::Reg(2));
    let other = store(31, 7, Value::Reg(0));
    let own = store(31, 7, Value::Reg(31));
    let cases: [(&[Instr], Op); 13] = [
        (&[sum, kept], Op::AddRegStore(2, 0, 1, 7)),
        (&[sum, other], Op::AddReg(2, 0, 1)),
        (&[more, kept], Op::AddIntStore(2, 0, -9, 7)),
        (&[more, other], Op::AddInt(2, 0, -9)),
        (&[long, kept], Op::AddInt(2, 0, 1 << 15)),
        (&[fewer, kept], Op::SubIntStore(2, 0, 9, 7)),
        (&[fewer, other], Op::SubInt(2, 0, 9)),
        (&[sum, kept, load(2, 31, 7)], Op::AddRegKeep(2, 0, 1, 7)),
        (&[sum, kept, load(2, 31, 8)], Op::AddRegStore(2, 0, 1, 7)),
        (&[sum, kept, load(3, 31, 7)], Op::AddRegStore(2, 0, 1, 7)),
        (&[sum, kept, load(2, 30, 7)], Op::AddRegStore(2, 0, 1, 7)),
        (&[sum, load(2, 31, 7), kept], Op::AddReg(2, 0, 1)),
        (&[base, own, load(31, 31, 7)], Op::AddRegStore(31, 0, 1, 7)),
    ];
    for (body, op) in cases {
        assert_eq!(rt; first_op(rt.alloc(), body, Term::Halt)?, Some(op));
    }
    Ok(())
}

const fn number_at(base: u8, off: u16, number: i64) -> Instr {
    store(base, off, Value::Int(number))
}

#[test]
fn freed_cells_and_numbers_are_one_op(rt: HostRuntime) -> Result<(), Fail> {
    let kept = store(31, 7, Value::Reg(2));
    let down = calc(31, 31, Alu::Sub, Value::Int(6));
    let own = store(31, 7, Value::Reg(31));
    let first = number_at(31, 7, 0);
    let far = number_at(31, 7, 128);
    let cases: [(&[Instr], Op); 10] = [
        (&[Instr::Sfree(6), down], Op::FreeSub(6)),
        (&[Instr::Sfree(6), down, kept], Op::FreeStore(2, 6, 7)),
        (&[Instr::Sfree(6), down, own], Op::FreeSub(6)),
        (&[Instr::Sfree(7), down], Op::Sfree(7)),
        (&[Instr::Sfree(6), kept], Op::Sfree(6)),
        (
            &[first, number_at(31, 9, -128)],
            Op::StoreInts(0, -128, 7, 9),
        ),
        (&[first, number_at(31, 9, 128)], Op::StoreInt(7, 0)),
        (&[far, number_at(31, 9, 0)], Op::StoreInt(7, 128)),
        (&[first, number_at(30, 9, 0)], Op::StoreInt(7, 0)),
        (&[number_at(30, 7, 0), number_at(31, 9, 0)], Op::Leave),
    ];
    for (body, op) in cases {
        assert_eq!(rt; first_op(rt.alloc(), body, Term::Halt)?, Some(op));
    }
    Ok(())
}

#[test]
fn tests_are_one_op(rt: HostRuntime) -> Result<(), Fail> {
    let less = calc(2, 0, Alu::Lt, Value::Reg(1));
    let below = calc(2, 2, Alu::Lt, Value::Int(-9));
    let other = calc(2, 0, Alu::Lt, Value::Int(9));
    let one = calc(0, 0, Alu::Add, Value::Int(1));
    let two = calc(0, 0, Alu::Add, Value::Int(2));
    let past = calc(2, 1, Alu::Lt, Value::Reg(0));
    let cases: [(&[Instr], Op); 9] = [
        (&[less, if_jump(2, 1)], Op::LtTest(2, 0, 1, 1)),
        (&[less, if_jump(0, 1)], Op::LtReg(2, 0, 1)),
        (&[below, if_jump(2, 1)], Op::LtIntTest(2, 1, -9)),
        (&[below, if_jump(0, 1)], Op::LtInt(2, 2, -9)),
        (&[other, if_jump(2, 1)], Op::LtInt(2, 0, 9)),
        (&[one, less, if_jump(2, 1)], Op::StepTest(0, 2, 1, 1)),
        (&[one, less, if_jump(0, 1)], Op::AddInt(0, 0, 1)),
        (&[one, past, if_jump(2, 1)], Op::AddInt(0, 0, 1)),
        (&[two, less, if_jump(2, 1)], Op::AddInt(0, 0, 2)),
    ];
    for (body, op) in cases {
        assert_eq!(rt; first_op(rt.alloc(), body, Term::Halt)?, Some(op));
    }
    Ok(())
}

#[test]
fn other_comparisons_are_one_op(rt: HostRuntime) -> Result<(), Fail> {
    let cases = [
        (Alu::Le, Op::LeTest(2, 0, 1, 1), Op::LeIntTest(2, 1, -9)),
        (Alu::Eq, Op::EqTest(2, 0, 1, 1), Op::EqIntTest(2, 1, -9)),
        (Alu::Ne, Op::NeTest(2, 0, 1, 1), Op::NeIntTest(2, 1, -9)),
    ];
    for (alu, by_register, by_number) in cases {
        let body = [calc(2, 0, alu, Value::Reg(1)), if_jump(2, 1)];
        assert_eq!(rt; first_op(rt.alloc(), &body, Term::Halt)?, Some(by_register));
        let body = [calc(2, 2, alu, Value::Int(-9)), if_jump(2, 1)];
        assert_eq!(rt; first_op(rt.alloc(), &body, Term::Halt)?, Some(by_number));
    }
    Ok(())
}

#[test]
fn cells_are_compared_by_one_op(rt: HostRuntime) -> Result<(), Fail> {
    let cell = load(2, 31, 7);
    let lt = calc(2, 2, Alu::Lt, Value::Int(9));
    let le = calc(2, 2, Alu::Le, Value::Int(-9));
    let eq = calc(2, 2, Alu::Eq, Value::Int(9));
    let long = calc(2, 2, Alu::Lt, Value::Int(1 << 15));
    let other = calc(3, 2, Alu::Lt, Value::Int(9));
    let cases: [(&[Instr], Op); 7] = [
        (&[cell, lt, if_jump(2, 1)], Op::LtCellTest(2, 7, 9, 1)),
        (&[cell, le, if_jump(2, 1)], Op::LeCellTest(2, 7, -9, 1)),
        (&[cell, eq, if_jump(2, 1)], Op::Load(2, 7)),
        (&[cell, long, if_jump(2, 1)], Op::Load(2, 7)),
        (&[cell, other, if_jump(3, 1)], Op::Load(2, 7)),
        (&[cell, lt, if_jump(3, 1)], Op::Load(2, 7)),
        (&[load(2, 30, 7), lt, if_jump(2, 1)], Op::Leave),
    ];
    for (body, op) in cases {
        assert_eq!(rt; first_op(rt.alloc(), body, Term::Halt)?, Some(op));
    }
    Ok(())
}

#[test]
fn moves_of_cells_are_one_op(rt: HostRuntime) -> Result<(), Fail> {
    let cell = load(2, 31, 7);
    let sum = calc(2, 2, Alu::Add, Value::Int(-1));
    let more = calc(2, 2, Alu::Add, Value::Int(128));
    let long = calc(2, 2, Alu::Add, Value::Int(1 << 15));
    let fewer = calc(2, 2, Alu::Sub, Value::Int(1));
    let back = store(31, 7, Value::Reg(2));
    let further = store(31, 8, Value::Reg(2));
    let own = load(31, 31, 7);
    let away = store(31, 8, Value::Reg(31));
    let cases: [(&[Instr], Op); 14] = [
        (&[cell, load(3, 31, 8)], Op::LoadTwo(2, 3, 7, 8)),
        (&[cell, load(3, 30, 8)], Op::Load(2, 7)),
        (&[own, load(3, 31, 8)], Op::Load(31, 7)),
        (&[cell, further], Op::CopyCell(2, 7, 8)),
        (&[cell, store(31, 8, Value::Reg(3))], Op::Load(2, 7)),
        (&[cell, store(30, 8, Value::Reg(2))], Op::Load(2, 7)),
        (&[own, away], Op::Load(31, 7)),
        (&[cell, sum, back], Op::AddCell(2, 7, -1)),
        (&[cell, more, back], Op::AddCell(2, 7, 128)),
        (&[cell, sum, further], Op::AddTo(2, -1, 7, 8)),
        (&[cell, more, further], Op::AddTo(2, 128, 7, 8)),
        (&[cell, long, further], Op::Load(2, 7)),
        (&[cell, fewer, further], Op::SubTo(2, 1, 7, 8)),
        (&[cell, sum, load(3, 31, 8)], Op::Load(2, 7)),
    ];
    for (body, op) in cases {
        assert_eq!(rt; first_op(rt.alloc(), body, Term::Halt)?, Some(op));
    }
    Ok(())
}

#[test]
fn a_turn_and_its_test_are_one_op(rt: HostRuntime) -> Result<(), Fail> {
    let one = calc(2, 2, Alu::Add, Value::Int(1));
    let back = store(31, 7, Value::Reg(2));
    let below = calc(2, 2, Alu::Lt, Value::Int(9));
    let turn = [load(2, 31, 7), one, back, below, if_jump(2, 1)];
    let cases = [
        (4, if_jump(2, 0), Op::TurnTest(2, 7, 9, 0)),
        (4, if_jump(3, 1), Op::AddCell(2, 7, 1)),
        (3, calc(2, 2, Alu::Le, Value::Int(9)), Op::AddCell(2, 7, 1)),
        (
            3,
            calc(2, 2, Alu::Lt, Value::Int(1 << 15)),
            Op::AddCell(2, 7, 1),
        ),
        (2, store(31, 8, Value::Reg(2)), Op::AddTo(2, 1, 7, 8)),
        (1, calc(2, 2, Alu::Add, Value::Int(2)), Op::AddCell(2, 7, 2)),
        (0, load(2, 31, 6), Op::AddTo(2, 1, 6, 7)),
        (0, load(2, 30, 7), Op::Leave),
    ];
    for (at, other, op) in cases {
        let mut body = turn;
        if let Some(changed) = body.get_mut(at) {
            *changed = other;
        }
        assert_eq!(rt; first_op(rt.alloc(), &body, Term::Halt)?, Some(op));
    }
    Ok(())
}

#[test]
fn ends_are_joined(rt: HostRuntime) -> Result<(), Fail> {
    let sum = calc(31, 31, Alu::Add, Value::Int(6));
    let call = store(31, 6, Value::Label(1));
    let there = Term::Jump(Value::Label(0));
    let (cell, way) = (load(2, 31, 7), load(3, 31, 8));
    let back = Term::Jump(Value::Reg(3));
    let cases: [(&[Instr], Term, Op); 12] = [
        (&[sum], there, Op::AddJump(31, 6, 0)),
        (&[sum], back, Op::AddInt(31, 31, 6)),
        (&[sum, Instr::Tick], there, Op::AddInt(31, 31, 6)),
        (&[call, sum], there, Op::Call(6, 1, 0)),
        (&[call, sum], Term::Halt, Op::StoreLabel(6, 1)),
        (&[call, sum, Instr::Tick], there, Op::StoreLabel(6, 1)),
        (
            &[store(31, 5, Value::Label(1)), sum],
            there,
            Op::StoreLabel(5, 1),
        ),
        (&[store(30, 6, Value::Label(1)), sum], there, Op::Leave),
        (&[cell, way], back, Op::Return(2, 3, 7, 8)),
        (
            &[cell, way],
            Term::Jump(Value::Reg(2)),
            Op::LoadTwo(2, 3, 7, 8),
        ),
        (&[cell, way], there, Op::LoadTwo(2, 3, 7, 8)),
        (&[cell, way, Instr::Tick], back, Op::LoadTwo(2, 3, 7, 8)),
    ];
    for (body, term, op) in cases {
        assert_eq!(rt; first_op(rt.alloc(), body, term)?, Some(op));
    }
    Ok(())
}

#[test]
fn marks_are_ops_with_ways_back(rt: HostRuntime) -> Result<(), Fail> {
    let down = calc(31, 31, Alu::Sub, Value::Int(40));
    let up = calc(31, 31, Alu::Sub, Value::Int(-1));
    let mark = Instr::PrmPop { base: 31, off: 3 };
    let other = Instr::PrmPop { base: 30, off: 3 };
    let kept = store(31, 5, Value::Reg(2));
    let own = store(31, 5, Value::Reg(31));
    let push = Instr::PrmPush {
        base: 31,
        off: 2,
        cells: 6,
        split: 1,
    };
    let cases: [(&[Instr], Op); 9] = [
        (&[down, mark, kept], Op::BackStore(2, 40, 3, 5)),
        (&[down, mark, own], Op::SubInt(31, 31, 40)),
        (&[down, other, kept], Op::SubInt(31, 31, 40)),
        (&[down, kept, mark], Op::SubInt(31, 31, 40)),
        (&[up, mark, kept], Op::SubInt(31, 31, -1)),
        (&[push], Op::PrmPush(2, 6, 1)),
        (&[Instr::PrmPop { base: 31, off: 2 }], Op::PrmPop(2)),
        (&[Instr::PrmPop { base: 30, off: 2 }], Op::Leave),
        (&[Instr::PrmDrop], Op::Leave),
    ];
    for (body, op) in cases {
        assert_eq!(rt; first_op(rt.alloc(), body, Term::Halt)?, Some(op));
    }
    Ok(())
}

#[test]
fn ticks_are_one_op_with_loads_and_tests(rt: HostRuntime) -> Result<(), Fail> {
    let tick = Instr::Tick;
    let cell = load(2, 31, 7);
    let own = load(31, 31, 7);
    let second = load(3, 31, 8);
    let more = calc(2, 2, Alu::Add, Value::Int(1));
    let kept = store(31, 7, Value::Reg(2));
    let halt = Term::Halt;
    let cases: [(&[Instr], Term, Op); 13] = [
        (&[tick, cell], halt, Op::TickLoad(2, 7)),
        (&[tick, cell, more], halt, Op::TickLoad(2, 7)),
        (&[tick, cell, load(3, 30, 8)], halt, Op::TickLoad(2, 7)),
        (&[tick, own, second], halt, Op::TickLoad(31, 7)),
        (&[tick, cell, second], halt, Op::TickLoadTwo(2, 3, 7, 8)),
        (&[tick, cell, kept], halt, Op::Tick),
        (&[tick, cell, more, kept], halt, Op::Tick),
        (&[tick, cell, second], Term::Jump(Value::Reg(3)), Op::Tick),
        (&[tick, load(2, 30, 7), second], halt, Op::Tick),
        (&[tick, cell, if_jump(2, 1)], halt, Op::TickTest(2, 7, 1)),
        (&[tick, cell, if_jump(3, 1)], halt, Op::TickLoad(2, 7)),
        (&[tick, load(2, 30, 7), if_jump(2, 1)], halt, Op::Tick),
        (&[tick, if_jump(2, 1)], halt, Op::Tick),
    ];
    for (body, term, op) in cases {
        assert_eq!(rt; first_op(rt.alloc(), body, term)?, Some(op));
    }
    Ok(())
}
