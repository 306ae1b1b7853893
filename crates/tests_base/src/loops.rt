// What compiled loops are made of, as ops: which instructions stand together in one, and which only
// look so.

use crate::shorthand::{calc, first_op, if_jump, load, store};
use std::alloc::Global;
use std::test::Fail;
use tp_value::NoMemory;
use tpal_syntax::{Alu, Instr, Op, Term, Value};

fn op_of(alloc: Global, body: &[Instr]) -> Result<Option<Op>, NoMemory> {
    first_op(alloc, body, Term::Halt)
}

#[test]
fn a_product_and_its_sum_are_one_op(rt: HostRuntime) -> Result<(), Fail> {
    let product = calc(2, 0, Alu::Mul, Value::Reg(1));
    let triple = calc(2, 0, Alu::Mul, Value::Int(3));
    let sum = calc(4, 4, Alu::Add, Value::Reg(2));
    let alone = Op::MulReg(2, 0, 1);
    let cases: [(&[Instr], Op); 13] = [
        (&[product, sum], Op::MulAdd(2, 0, 1, 4)),
        (
            &[product, calc(2, 2, Alu::Add, Value::Reg(2))],
            Op::MulAdd(2, 0, 1, 2),
        ),
        (
            &[product, calc(0, 0, Alu::Add, Value::Reg(2))],
            Op::MulAdd(2, 0, 1, 0),
        ),
        (&[product, sum, sum], Op::MulAdd(2, 0, 1, 4)),
        (&[product, calc(4, 4, Alu::Add, Value::Reg(1))], alone),
        (&[product, calc(4, 3, Alu::Add, Value::Reg(2))], alone),
        (&[product, calc(4, 2, Alu::Add, Value::Reg(4))], alone),
        (&[product, calc(4, 4, Alu::Sub, Value::Reg(2))], alone),
        (&[product, calc(4, 4, Alu::Mul, Value::Reg(2))], alone),
        (&[product, calc(4, 4, Alu::Add, Value::Int(2))], alone),
        (&[product, Instr::Tick, sum], alone),
        (&[product], alone),
        (&[triple, sum], Op::MulInt(2, 0, 3)),
    ];
    for (body, op) in cases {
        assert_eq!(rt; op_of(rt.alloc(), body)?, Some(op));
    }
    Ok(())
}

// A comparison with nil alone is left to the block.
#[test]
fn a_comparison_with_nil_and_its_jump_are_one_op(rt: HostRuntime) -> Result<(), Fail> {
    let nil = calc(2, 0, Alu::Eq, Value::Nil);
    let own = calc(2, 2, Alu::Eq, Value::Nil);
    let other = calc(2, 0, Alu::Ne, Value::Nil);
    let below = calc(2, 0, Alu::Lt, Value::Nil);
    let label = calc(2, 0, Alu::Eq, Value::Label(1));
    let cases: [(&[Instr], Op); 9] = [
        (&[nil, if_jump(2, 1)], Op::NilTest(2, 0, 1)),
        (&[own, if_jump(2, 1)], Op::NilTest(2, 2, 1)),
        (&[nil, if_jump(2, 0)], Op::NilTest(2, 0, 0)),
        (&[nil], Op::Leave),
        (&[nil, if_jump(0, 1)], Op::Leave),
        (&[nil, Instr::Tick, if_jump(2, 1)], Op::Leave),
        (&[other, if_jump(2, 1)], Op::Leave),
        (&[below, if_jump(2, 1)], Op::Leave),
        (&[label, if_jump(2, 1)], Op::Leave),
    ];
    for (body, op) in cases {
        assert_eq!(rt; op_of(rt.alloc(), body)?, Some(op));
    }
    Ok(())
}

const MOST: i64 = 1_099_511_627_776;

// The size of the range from register 0 up to register 1, in a register, and its tests in another.
const fn range(size: u8, test: u8) -> [Instr; 4] {
    [
        calc(size, 1, Alu::Sub, Value::Reg(0)),
        calc(test, size, Alu::Lt, Value::Int(0)),
        if_jump(test, 1),
        calc(test, size, Alu::Le, Value::Int(MOST)),
    ]
}

#[test]
fn a_range_and_its_tests_are_one_op(rt: HostRuntime) -> Result<(), Fail> {
    let alone = Op::SubReg(2, 1, 0);
    let cases = [
        (2, if_jump(3, 0), Op::RangeTest(2, 1, 0, 3, 0)),
        (2, if_jump(2, 1), alone),
        (2, Instr::Tick, alone),
        (3, calc(3, 2, Alu::Le, Value::Int(MOST + 1)), alone),
        (3, calc(3, 2, Alu::Le, Value::Int(MOST - 1)), alone),
        (3, calc(3, 2, Alu::Le, Value::Reg(4)), alone),
        (3, calc(3, 2, Alu::Lt, Value::Int(MOST)), alone),
        (3, calc(3, 1, Alu::Le, Value::Int(MOST)), alone),
        (3, calc(4, 2, Alu::Le, Value::Int(MOST)), alone),
        (1, calc(3, 2, Alu::Lt, Value::Int(1)), alone),
        (1, calc(3, 2, Alu::Le, Value::Int(0)), alone),
        (1, calc(3, 1, Alu::Lt, Value::Int(0)), alone),
        (1, calc(4, 2, Alu::Lt, Value::Int(0)), alone),
        (0, calc(4, 1, Alu::Sub, Value::Reg(0)), Op::SubReg(4, 1, 0)),
        (0, calc(2, 1, Alu::Sub, Value::Int(9)), Op::SubInt(2, 1, 9)),
        (0, calc(2, 1, Alu::Add, Value::Reg(0)), Op::AddReg(2, 1, 0)),
    ];
    for (at, other, op) in cases {
        let mut body = range(2, 3);
        if let Some(changed) = body.get_mut(at) {
            *changed = other;
        }
        assert_eq!(rt; op_of(rt.alloc(), &body)?, Some(op));
    }
    Ok(())
}

// The last test reads the size, which the first may thus not set.
#[test]
fn a_test_keeps_the_size_of_its_range(rt: HostRuntime) -> Result<(), Fail> {
    let cases = [
        (range(2, 3), Op::RangeTest(2, 1, 0, 3, 1)),
        (range(1, 3), Op::RangeTest(1, 1, 0, 3, 1)),
        (range(2, 1), Op::RangeTest(2, 1, 0, 1, 1)),
        (range(0, 1), Op::RangeTest(0, 1, 0, 1, 1)),
        (range(2, 2), Op::SubReg(2, 1, 0)),
        (range(1, 1), Op::SubReg(1, 1, 0)),
    ];
    for (body, op) in cases {
        assert_eq!(rt; op_of(rt.alloc(), &body)?, Some(op));
    }
    Ok(())
}

// The next iteration of a loop with a cursor in a cell, its end in cell 6 and its variable in cell
// 7.
const fn turn(cursor: u16) -> [Instr; 8] {
    [
        load(1, 31, cursor),
        load(0, 31, 6),
        calc(3, 1, Alu::Sub, Value::Reg(0)),
        store(31, 7, Value::Reg(1)),
        calc(1, 1, Alu::Add, Value::Int(1)),
        store(31, cursor, Value::Reg(1)),
        calc(2, 3, Alu::Lt, Value::Int(-1)),
        if_jump(2, 1),
    ]
}

// The op of a next iteration in which one instruction is another one.
fn op_of_turn(alloc: Global, at: usize, other: Instr) -> Result<Option<Op>, NoMemory> {
    let mut body = turn(5);
    if let Some(changed) = body.get_mut(at) {
        *changed = other;
    }
    op_of(alloc, &body)
}

#[test]
fn a_next_iteration_is_one_op(rt: HostRuntime) -> Result<(), Fail> {
    let cases = [
        (0, load(1, 31, 4), Op::LoadTwo(1, 0, 4, 6)),
        (0, load(4, 31, 5), Op::LoadTwo(4, 0, 5, 6)),
        (0, load(1, 30, 5), Op::Leave),
        (1, load(0, 31, 300), Op::NextTurn(5, 300, 7, 1)),
        (1, load(4, 31, 6), Op::LoadTwo(1, 4, 5, 6)),
        (1, load(0, 30, 6), Op::Load(1, 5)),
        (3, store(31, 300, Value::Reg(1)), Op::NextTurn(5, 6, 300, 1)),
        (7, if_jump(2, 0), Op::NextTurn(5, 6, 7, 0)),
    ];
    for (at, other, op) in cases {
        assert_eq!(rt; op_of_turn(rt.alloc(), at, other)?, Some(op));
    }
    Ok(())
}

#[test]
fn what_calculates_otherwise_begins_with_two_loads(rt: HostRuntime) -> Result<(), Fail> {
    let cases = [
        (3, store(31, 7, Value::Reg(0))),
        (3, store(30, 7, Value::Reg(1))),
        (3, store(31, 7, Value::Int(1))),
        (5, store(31, 4, Value::Reg(1))),
        (5, store(31, 6, Value::Reg(1))),
        (5, store(31, 5, Value::Reg(0))),
        (5, store(30, 5, Value::Reg(1))),
        (7, if_jump(3, 1)),
        (7, Instr::Tick),
        (2, calc(3, 0, Alu::Sub, Value::Reg(1))),
        (2, calc(3, 1, Alu::Sub, Value::Reg(2))),
        (2, calc(3, 1, Alu::Sub, Value::Int(0))),
        (2, calc(3, 1, Alu::Add, Value::Reg(0))),
        (2, calc(4, 1, Alu::Sub, Value::Reg(0))),
        (4, calc(1, 1, Alu::Add, Value::Int(2))),
        (4, calc(1, 1, Alu::Sub, Value::Int(1))),
        (4, calc(1, 1, Alu::Add, Value::Reg(1))),
        (4, calc(1, 0, Alu::Add, Value::Int(1))),
        (4, calc(0, 0, Alu::Add, Value::Int(1))),
        (6, calc(2, 3, Alu::Lt, Value::Int(0))),
        (6, calc(2, 3, Alu::Le, Value::Int(-1))),
        (6, calc(2, 1, Alu::Lt, Value::Int(-1))),
        (6, calc(4, 3, Alu::Lt, Value::Int(-1))),
    ];
    for (at, other) in cases {
        let op = op_of_turn(rt.alloc(), at, other)?;
        assert_eq!(rt; op, Some(Op::LoadTwo(1, 0, 5, 6)));
    }
    Ok(())
}

#[test]
fn a_cursor_has_8_bits(rt: HostRuntime) -> Result<(), Fail> {
    let cases = [
        (0, Op::NextTurn(0, 6, 7, 1)),
        (7, Op::NextTurn(7, 6, 7, 1)),
        (255, Op::NextTurn(255, 6, 7, 1)),
        (256, Op::LoadTwo(1, 0, 256, 6)),
    ];
    for (cursor, op) in cases {
        assert_eq!(rt; op_of(rt.alloc(), &turn(cursor))?, Some(op));
    }
    Ok(())
}
