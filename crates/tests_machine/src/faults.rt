// Each fault that a run comes to, and where it stands among instructions that are one op. No run
// comes to a stack without room: its cells would fill all memory before.

use crate::instructions::{
    MARK, ONE_CELL, TO_HEAD, calc, load, number_at, promoted, set, store, test,
};
use crate::runs::{Found, expect_fault, expect_fault_in};
use std::test::Fail;
use tp_value::Place;
use tpal_machine::Fault;
use tpal_syntax::{Alu, Instr, Term, Value};

const HALT: Term = Term::Halt;

const AT: Place = Place { line: 1, col: 1 };

const ASK: Instr = Instr::JrAlloc { to: 0, target: 3 };

const FETCH: Instr = Instr::Fetch {
    to: 0,
    table: 1,
    row: 0,
    col: 0,
};

const MAKE: Instr = Instr::Make {
    table: 0,
    rows: 0,
    cols: 0,
    place: AT,
};

const fn fork(rec: u8) -> Instr {
    Instr::Fork { rec, child: 4 }
}

// A fault of the first block.
const fn in_main(fault: Fault, at: u32) -> Found {
    (fault, 0, at)
}

#[test]
fn each_fault_has_a_code(rt: HostRuntime) -> Result<(), Fail> {
    let nowhere = Term::Jump(Value::Reg(1));
    let divide = calc(0, 0, Alu::Div, Value::Int(0));
    let bad_target = Instr::JrAlloc { to: 0, target: 0 };
    let unmarks = [ONE_CELL, MARK, Instr::Sfree(1)];
    let marks = [ONE_CELL, MARK, MARK];
    let cases: [(&[Instr], Term, &[Instr], Found); 15] = [
        (&[Instr::Print(1)], HALT, &[], in_main(Fault::NotInt, 0)),
        (&[set(0, 0), divide], HALT, &[], in_main(Fault::DivZero, 1)),
        (&[load(0, 0)], HALT, &[], in_main(Fault::OutOfRange, 0)),
        (&unmarks, HALT, &[], in_main(Fault::MarkedCell, 2)),
        (&marks, HALT, &[], in_main(Fault::MarkOrder, 2)),
        (&[Instr::PrmDrop], HALT, &[], in_main(Fault::NoMark, 0)),
        (&[ASK], HALT, &[], in_main(Fault::Pending, 1)),
        (&[bad_target], HALT, &[], in_main(Fault::BadTarget, 0)),
        (&[fork(0)], HALT, &[], in_main(Fault::NotRec, 0)),
        (&promoted(), TO_HEAD, &[fork(4)], (Fault::WrongRecord, 4, 0)),
        (&[ASK, fork(0)], HALT, &[], in_main(Fault::NoBeat, 1)),
        (&[set(0, 0), FETCH], HALT, &[], in_main(Fault::NotHeld, 1)),
        (&[set(0, 0), MAKE], HALT, &[], in_main(Fault::Made, 1)),
        (&[], nowhere, &[], in_main(Fault::NotLabel, 0)),
        (&promoted(), TO_HEAD, &[], (Fault::NotRoot, 4, 0)),
    ];
    for (main, end, side, wanted) in cases {
        expect_fault(&rt, (main, end), side, wanted)?;
    }
    Ok(())
}

const fn leave(rec: u8, value: u8) -> Term {
    Term::Leave { rec, value }
}

// A record that is the end of the side is in register 4 of it, and a second one, if any, in
// register 0.
#[test]
fn a_leave_is_stuck_by_the_first_cause(rt: HostRuntime) -> Result<(), Fail> {
    let five = set(1, 5);
    let cases: [(&[Instr], Term, &[Instr], Term, Found); 6] = [
        (&[], leave(0, 1), &[], HALT, in_main(Fault::NotRec, 0)),
        (
            &[ASK],
            leave(0, 1),
            &[],
            HALT,
            in_main(Fault::WrongRecord, 1),
        ),
        (
            &promoted(),
            TO_HEAD,
            &[ASK],
            leave(1, 5),
            (Fault::NotRec, 4, 1),
        ),
        (
            &promoted(),
            TO_HEAD,
            &[],
            leave(4, 1),
            (Fault::NotInt, 4, 0),
        ),
        (
            &promoted(),
            TO_HEAD,
            &[ASK],
            leave(4, 1),
            (Fault::NotInt, 4, 1),
        ),
        (
            &promoted(),
            TO_HEAD,
            &[five, ASK],
            leave(4, 1),
            (Fault::Pending, 4, 2),
        ),
    ];
    for (main, end, side, side_end, wanted) in cases {
        expect_fault_in(&rt, (main, end), (side, side_end), wanted)?;
    }
    Ok(())
}

const fn no_number(at: u32) -> Found {
    in_main(Fault::NotInt, at)
}

const fn outside(at: u32) -> Found {
    in_main(Fault::OutOfRange, at)
}

#[test]
fn each_of_several_faults_at_its_place(rt: HostRuntime) -> Result<(), Fail> {
    let (tick, cell, test) = (Instr::Tick, ONE_CELL, test(1));
    let rows = Instr::Rows { to: 1, table: 0 };
    let cols = Instr::Cols { to: 1, table: 0 };
    let size = calc(1, 1, Alu::Le, Value::Reg(9));
    let least = calc(1, 2, Alu::Min, Value::Reg(31));
    let sign = calc(1, 1, Alu::Lt, Value::Int(0));
    let sum = calc(1, 1, Alu::Add, Value::Int(1));
    let behind = calc(1, 31, Alu::Add, Value::Reg(2));
    let further = calc(1, 1, Alu::Add, Value::Reg(31));
    let below = calc(1, 31, Alu::Lt, Value::Reg(2));
    let base = calc(31, 31, Alu::Sub, Value::Int(0));
    let kept = store(0, Value::Reg(1));
    let cases: [([Instr; 4], Found); 15] = [
        ([cell, rows, size, test], no_number(2)),
        ([cell, cols, size, test], no_number(2)),
        ([cell, least, sign, test], no_number(1)),
        ([cell, load(1, 0), load(2, 1), test], outside(2)),
        ([cell, load(1, 0), sum, kept], no_number(2)),
        ([cell, below, test, test], no_number(1)),
        ([cell, tick, load(1, 1), test], outside(2)),
        ([cell, tick, load(1, 0), test], no_number(3)),
        ([cell, number_at(0, 5), number_at(1, 6), test], outside(2)),
        ([Instr::Sfree(0), base, kept, test], outside(2)),
        ([cell, tick, load(1, 1), set(2, 3)], outside(2)),
        ([cell, tick, load(1, 1), load(2, 0)], outside(2)),
        ([cell, tick, load(1, 0), load(2, 1)], outside(3)),
        ([cell, behind, kept, load(1, 0)], no_number(1)),
        ([set(1, 3), further, kept, load(1, 0)], outside(2)),
    ];
    for (main, wanted) in cases {
        expect_fault(&rt, (&main, HALT), &[], wanted)?;
    }
    Ok(())
}
