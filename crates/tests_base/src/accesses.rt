// Reads and writes of a table's cell with the test of its place, as ops: which instructions stand
// together in one, and which only look so.

use crate::shorthand::{calc, fetch, first_op, if_jump, load, put, set};
use std::alloc::Global;
use std::test::Fail;
use tp_value::NoMemory;
use tpal_syntax::{Alu, Instr, Op, Term, Value};

// A read of a cell of table 1 with the test of its place.
const fn read(row: u8, col: u8, scratch: u8) -> [Instr; 10] {
    [
        calc(scratch, row, Alu::Min, Value::Reg(col)),
        calc(scratch, scratch, Alu::Lt, Value::Int(0)),
        if_jump(scratch, 1),
        Instr::Rows {
            to: scratch,
            table: 1,
        },
        calc(scratch, scratch, Alu::Le, Value::Reg(row)),
        if_jump(scratch, 1),
        Instr::Cols {
            to: scratch,
            table: 1,
        },
        calc(scratch, scratch, Alu::Le, Value::Reg(col)),
        if_jump(scratch, 1),
        fetch(3, 1, row, col),
    ]
}

#[test]
fn accesses_are_one_op(rt: HostRuntime) -> Result<(), Fail> {
    let alone = Op::CalcReg(Alu::Min, 4, 0, 1);
    let cases = [
        (9, fetch(4, 1, 0, 1), Op::Read(4, 1, 0, 1, 4, 1)),
        (9, put(1, 0, 1, 2), Op::Write(1, 0, 1, 2, 4, 1)),
        (9, put(1, 0, 1, 4), alone),
        (9, put(0, 0, 1, 2), alone),
        (9, fetch(3, 0, 0, 1), alone),
        (9, fetch(3, 1, 1, 1), alone),
        (9, fetch(3, 1, 0, 0), alone),
        (9, Instr::Tick, alone),
        (8, if_jump(4, 0), alone),
        (7, calc(4, 4, Alu::Le, Value::Reg(0)), alone),
        (6, Instr::Cols { to: 4, table: 0 }, alone),
        (5, if_jump(4, 0), alone),
        (4, calc(4, 4, Alu::Le, Value::Reg(1)), alone),
        (3, Instr::Rows { to: 3, table: 1 }, alone),
        (2, if_jump(3, 1), alone),
        (1, calc(4, 4, Alu::Lt, Value::Int(1)), alone),
    ];
    for (at, other, op) in cases {
        let mut body = read(0, 1, 4);
        if let Some(changed) = body.get_mut(at) {
            *changed = other;
        }
        assert_eq!(rt; first_op(rt.alloc(), &body, Term::Halt)?, Some(op));
    }
    Ok(())
}

#[test]
fn an_access_has_a_register_to_spare(rt: HostRuntime) -> Result<(), Fail> {
    let cases = [
        (read(0, 1, 4), Op::Read(3, 1, 0, 1, 4, 1)),
        (read(4, 1, 4), Op::CalcReg(Alu::Min, 4, 4, 1)),
        (read(0, 4, 4), Op::CalcReg(Alu::Min, 4, 0, 4)),
    ];
    for (body, op) in cases {
        assert_eq!(rt; first_op(rt.alloc(), &body, Term::Halt)?, Some(op));
    }
    Ok(())
}

// The op of instructions with an access behind them.
fn op_before(alloc: Global, first: &[Instr], access: [Instr; 10]) -> Result<Option<Op>, NoMemory> {
    let mut body = Vec::from_slice(alloc, first)?;
    for instr in access {
        body.push(instr)?;
    }
    first_op(alloc, body.as_slice(), Term::Halt)
}

// A read with its column loaded or the number 0 as its row before it; a write is joined with
// neither.
#[test]
fn accesses_are_one_op_with_what_they_need(rt: HostRuntime) -> Result<(), Fail> {
    let (tick, cell, col) = (Instr::Tick, load(5, 31, 7), load(1, 31, 8));
    let near = read(0, 1, 2);
    let mut write = near;
    write[9] = put(1, 0, 1, 3);
    let cases: [(&[Instr], [Instr; 10], Op); 20] = [
        (&[col], near, Op::LoadRead(3, 1, 0, 1, 8, 1)),
        (&[col], read(1, 1, 2), Op::LoadRead(3, 1, 1, 1, 8, 1)),
        (&[load(1, 31, 255)], near, Op::LoadRead(3, 1, 0, 1, 255, 1)),
        (&[load(1, 31, 256)], near, Op::Load(1, 256)),
        (
            &[load(30, 31, 8)],
            read(0, 30, 31),
            Op::LoadRead(3, 1, 0, 30, 8, 1),
        ),
        (&[load(0, 31, 8)], near, Op::Load(0, 8)),
        (&[load(1, 30, 8)], near, Op::Leave),
        (&[col], read(0, 1, 4), Op::Load(1, 8)),
        (&[col], read(2, 1, 2), Op::Load(1, 8)),
        (&[cell, col], near, Op::Load(5, 7)),
        (&[tick, cell, col], near, Op::TickLoad(5, 7)),
        (&[tick, col], near, Op::Tick),
        (&[set(0, 0)], read(0, 1, 4), Op::ZeroRead(3, 1, 0, 1, 4, 1)),
        (&[set(0, 0)], read(0, 1, 2), Op::ZeroRead(3, 1, 0, 1, 2, 1)),
        (&[set(0, 0)], read(0, 0, 4), Op::ZeroRead(3, 1, 0, 0, 4, 1)),
        (&[set(0, 1)], read(0, 1, 4), Op::MoveInt(0, 1)),
        (&[set(1, 0)], read(0, 1, 4), Op::MoveInt(1, 0)),
        (&[set(4, 0)], read(4, 1, 4), Op::MoveInt(4, 0)),
        (&[col], write, Op::Load(1, 8)),
        (&[set(0, 0)], write, Op::MoveInt(0, 0)),
    ];
    for (first, access, op) in cases {
        assert_eq!(rt; op_before(rt.alloc(), first, access)?, Some(op));
    }
    Ok(())
}
