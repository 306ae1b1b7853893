// Codes whose instructions stand together in ops: what these do, and where they jump.

use crate::instructions::{TO_BOTH, calc, load, mark, number_at, set, store, test, unmark};
use crate::runs::expect_output;
use std::test::Fail;
use tpal_syntax::{Alu, Instr, Term, Value};

// Cells that are stored and loaded, with numbers that go on.
const fn cells() -> [Instr; 15] {
    [
        Instr::Salloc(4),
        number_at(0, 5),
        load(1, 0),
        store(1, Value::Reg(1)),
        load(1, 0),
        calc(1, 1, Alu::Add, Value::Int(3)),
        store(2, Value::Reg(1)),
        load(1, 2),
        calc(1, 1, Alu::Sub, Value::Int(2)),
        store(3, Value::Reg(1)),
        load(1, 3),
        calc(1, 1, Alu::Add, Value::Int(9)),
        store(3, Value::Reg(1)),
        load(1, 1),
        load(2, 3),
    ]
}

// Sums that are stored.
const fn sums() -> [Instr; 9] {
    [
        Instr::Salloc(3),
        set(1, 4),
        set(2, 5),
        calc(1, 1, Alu::Add, Value::Reg(2)),
        store(0, Value::Reg(1)),
        calc(2, 1, Alu::Add, Value::Int(7)),
        store(1, Value::Reg(2)),
        calc(1, 2, Alu::Sub, Value::Int(1)),
        store(2, Value::Reg(1)),
    ]
}

// A loop's next number, in a cell, and its test.
const fn turn() -> [Instr; 8] {
    [
        Instr::Salloc(1),
        set(2, 6),
        number_at(0, 5),
        load(1, 0),
        calc(1, 1, Alu::Add, Value::Int(1)),
        store(0, Value::Reg(1)),
        calc(1, 1, Alu::Lt, Value::Int(7)),
        test(1),
    ]
}

// A loop's next number, in a register, and its test.
const fn step() -> [Instr; 7] {
    [
        set(1, 7),
        set(3, 9),
        calc(1, 1, Alu::Add, Value::Int(1)),
        calc(2, 1, Alu::Lt, Value::Reg(3)),
        test(2),
        calc(1, 1, Alu::Lt, Value::Int(8)),
        test(1),
    ]
}

// Two marks, which go again, and fewer cells.
const fn marks() -> [Instr; 10] {
    [
        Instr::Salloc(2),
        set(1, 7),
        set(2, 8),
        mark(0, 2),
        mark(1, 2),
        unmark(1),
        unmark(0),
        Instr::Sfree(2),
        calc(31, 31, Alu::Sub, Value::Int(2)),
        calc(2, 2, Alu::Add, Value::Int(1)),
    ]
}

// A label to come back to, and the base of an activation.
const fn call() -> [Instr; 5] {
    [
        Instr::Salloc(4),
        set(1, 7),
        set(2, 8),
        store(2, Value::Label(0)),
        calc(31, 31, Alu::Add, Value::Int(2)),
    ]
}

// A number and a label from an activation.
const fn back() -> [Instr; 6] {
    [
        Instr::Salloc(2),
        set(2, 8),
        number_at(0, 7),
        store(1, Value::Label(5)),
        load(1, 0),
        load(3, 1),
    ]
}

#[test]
fn ops_do_what_their_instructions_do(rt: HostRuntime) -> Result<(), Fail> {
    let cases: [(&[Instr], Term, &[u8]); 7] = [
        (&cells(), TO_BOTH, b"5\n15\n1 2\n3 4\n"),
        (&sums(), TO_BOTH, b"15\n16\n1 2\n3 4\n"),
        (&turn(), TO_BOTH, b"1\n6\n1 2\n3 4\n"),
        (&step(), TO_BOTH, b"8\n1\n1 2\n3 4\n"),
        (&marks(), TO_BOTH, b"7\n9\n1 2\n3 4\n"),
        (&call(), TO_BOTH, b"7\n8\n1 2\n3 4\n"),
        (&back(), Term::Jump(Value::Reg(3)), b"7\n8\n1 2\n3 4\n"),
    ];
    for (main, end, wanted) in cases {
        expect_output(&rt, (main, end), &[], wanted)?;
    }
    Ok(())
}

// A comparison of the number in register 1, 7, into that; where it doesn't jump the register gets
// 3.
const fn compares(alu: Alu, right: Value) -> [Instr; 5] {
    [
        set(1, 7),
        set(2, 7),
        calc(1, 1, alu, right),
        test(1),
        set(1, 3),
    ]
}

// The same of a number in a cell.
const fn compares_cell(alu: Alu, number: i64) -> [Instr; 7] {
    [
        Instr::Salloc(1),
        set(2, 7),
        number_at(0, 7),
        load(1, 0),
        calc(1, 1, alu, Value::Int(number)),
        test(1),
        set(1, 3),
    ]
}

#[test]
fn comparisons_jump_where_they_hold(rt: HostRuntime) -> Result<(), Fail> {
    let holds: &[u8] = b"1\n7\n1 2\n3 4\n";
    let fails: &[u8] = b"3\n7\n1 2\n3 4\n";
    let cases: [(&[Instr], &[u8]); 18] = [
        (&compares(Alu::Lt, Value::Reg(2)), fails),
        (&compares(Alu::Le, Value::Reg(2)), holds),
        (&compares(Alu::Eq, Value::Reg(2)), holds),
        (&compares(Alu::Ne, Value::Reg(2)), fails),
        (&compares(Alu::Lt, Value::Int(8)), holds),
        (&compares(Alu::Lt, Value::Int(7)), fails),
        (&compares(Alu::Le, Value::Int(7)), holds),
        (&compares(Alu::Le, Value::Int(6)), fails),
        (&compares(Alu::Eq, Value::Int(7)), holds),
        (&compares(Alu::Eq, Value::Int(8)), fails),
        (&compares(Alu::Ne, Value::Int(8)), holds),
        (&compares(Alu::Ne, Value::Int(7)), fails),
        (&compares_cell(Alu::Lt, 8), holds),
        (&compares_cell(Alu::Lt, 7), fails),
        (&compares_cell(Alu::Le, 7), holds),
        (&compares_cell(Alu::Le, 6), fails),
        (&compares_cell(Alu::Ne, 6), holds),
        (&compares_cell(Alu::Eq, 6), fails),
    ];
    for (main, wanted) in cases {
        expect_output(&rt, (main, TO_BOTH), &[], wanted)?;
    }
    Ok(())
}
