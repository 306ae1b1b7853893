// What compiled code does with cells, as ops: which instructions stand together in one, and which
// only look so.

use crate::shorthand::{calc, first_op, load, store};
use std::test::Fail;
use tpal_syntax::{Alu, Instr, Op, Term, Value};

const HALT: Term = Term::Halt;

const ON: Term = Term::Jump(Value::Label(1));

// The sum of cells 5 and 6 in another.
const fn sum(off: u16) -> [Instr; 4] {
    [
        load(0, 31, 5),
        load(1, 31, 6),
        calc(0, 0, Alu::Add, Value::Reg(1)),
        store(31, off, Value::Reg(0)),
    ]
}

#[test]
fn a_sum_of_cells_is_one_op(rt: HostRuntime) -> Result<(), Fail> {
    let cases = [
        (sum(7), HALT, Op::AddCells(5, 6, 7)),
        (sum(5), HALT, Op::AddCells(5, 6, 5)),
        (sum(6), HALT, Op::AddCells(5, 6, 6)),
        (sum(511), HALT, Op::AddCells(5, 6, 511)),
        (sum(7), ON, Op::AddCellsJump(7, 5, 6, 1)),
        (sum(255), ON, Op::AddCellsJump(255, 5, 6, 1)),
        (sum(256), ON, Op::AddCells(5, 6, 256)),
        (sum(7), Term::Jump(Value::Reg(2)), Op::AddCells(5, 6, 7)),
    ];
    for (body, term, op) in cases {
        assert_eq!(rt; first_op(rt.alloc(), &body, term)?, Some(op));
    }
    let [first, second, adds, kept] = sum(7);
    let more = [first, second, adds, kept, Instr::Tick];
    assert_eq!(rt;
        first_op(rt.alloc(), &more, ON)?,
        Some(Op::AddCells(5, 6, 7))
    );
    Ok(())
}

#[test]
fn another_sum_begins_with_two_loads(rt: HostRuntime) -> Result<(), Fail> {
    let loads = Op::LoadTwo(0, 1, 5, 6);
    let cases = [
        (0, load(2, 31, 5), Op::LoadTwo(2, 1, 5, 6)),
        (0, load(1, 31, 5), Op::LoadTwo(1, 1, 5, 6)),
        (1, load(2, 31, 6), Op::LoadTwo(0, 2, 5, 6)),
        (1, load(0, 31, 6), Op::LoadTwo(0, 0, 5, 6)),
        (1, load(1, 30, 6), Op::Load(0, 5)),
        (2, calc(0, 0, Alu::Sub, Value::Reg(1)), loads),
        (2, calc(0, 1, Alu::Add, Value::Reg(0)), loads),
        (2, calc(0, 0, Alu::Add, Value::Reg(0)), loads),
        (2, calc(1, 0, Alu::Add, Value::Reg(1)), loads),
        (2, calc(0, 0, Alu::Add, Value::Int(1)), loads),
        (3, store(31, 7, Value::Reg(1)), loads),
        (3, store(30, 7, Value::Reg(0)), loads),
        (3, store(31, 7, Value::Int(0)), loads),
        (3, Instr::Tick, loads),
    ];
    for (at, other, op) in cases {
        let mut body = sum(7);
        if let Some(changed) = body.get_mut(at) {
            *changed = other;
        }
        assert_eq!(rt; first_op(rt.alloc(), &body, ON)?, Some(op));
    }
    Ok(())
}

#[test]
fn a_number_and_more_cells_are_one_op(rt: HostRuntime) -> Result<(), Fail> {
    let grow = Instr::Salloc(26);
    let number = store(31, 5, Value::Int(7));
    let cases: [(&[Instr], Op); 9] = [
        (&[number, grow], Op::StoreGrow(7, 5, 26)),
        (&[number, Instr::Salloc(0)], Op::StoreGrow(7, 5, 0)),
        (
            &[store(31, 511, Value::Int(-32_768)), grow],
            Op::StoreGrow(-32_768, 511, 26),
        ),
        (
            &[store(31, 5, Value::Int(32_767)), grow],
            Op::StoreGrow(32_767, 5, 26),
        ),
        (
            &[store(31, 5, Value::Int(32_768)), grow],
            Op::StoreInt(5, 32_768),
        ),
        (&[store(31, 5, Value::Reg(7)), grow], Op::StoreReg(7, 5)),
        (&[store(30, 5, Value::Int(7)), grow], Op::Leave),
        (&[number, Instr::Sfree(26)], Op::StoreInt(5, 7)),
        (&[number, Instr::Tick, grow], Op::StoreInt(5, 7)),
    ];
    for (body, op) in cases {
        assert_eq!(rt; first_op(rt.alloc(), body, HALT)?, Some(op));
    }
    Ok(())
}

const fn unmark(base: u8, off: u16) -> Instr {
    Instr::PrmPop { base, off }
}

const fn down(cells: i64) -> Instr {
    calc(31, 31, Alu::Sub, Value::Int(cells))
}

// Register 0 goes to a cell.
const fn gives(off: u16) -> Instr {
    store(31, off, Value::Reg(0))
}

#[test]
fn a_way_back_gives_a_cell_to_a_call(rt: HostRuntime) -> Result<(), Fail> {
    let back = [down(40), unmark(31, 3), gives(5), load(0, 31, 6), gives(45)];
    let alone = Op::BackStore(0, 40, 3, 5);
    let cases = [
        (0, down(40), Op::BackPass(3, 5, 6, 40, 45)),
        (0, down(512), Op::BackPass(3, 5, 6, 512, 45)),
        (0, down(-1), Op::SubInt(31, 31, -1)),
        (1, unmark(31, 255), Op::BackPass(255, 5, 6, 40, 45)),
        (1, unmark(31, 256), Op::BackStore(0, 40, 256, 5)),
        (1, unmark(30, 3), Op::SubInt(31, 31, 40)),
        (2, gives(255), Op::BackPass(3, 255, 6, 40, 45)),
        (2, gives(256), Op::BackStore(0, 40, 3, 256)),
        (2, store(31, 5, Value::Reg(1)), Op::BackStore(1, 40, 3, 5)),
        (3, load(0, 31, 255), Op::BackPass(3, 5, 255, 40, 45)),
        (3, load(0, 31, 256), alone),
        (3, load(1, 31, 6), alone),
        (3, load(0, 30, 6), alone),
        (4, gives(511), Op::BackPass(3, 5, 6, 40, 511)),
        (4, store(31, 45, Value::Reg(1)), alone),
        (4, store(30, 45, Value::Reg(0)), alone),
        (4, store(31, 45, Value::Int(0)), alone),
        (4, Instr::Tick, alone),
    ];
    for (at, other, op) in cases {
        let mut body = back;
        if let Some(changed) = body.get_mut(at) {
            *changed = other;
        }
        assert_eq!(rt; first_op(rt.alloc(), &body, HALT)?, Some(op));
    }
    Ok(())
}
