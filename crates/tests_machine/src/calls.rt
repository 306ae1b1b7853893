// What stands round calls as ops: levels, marks, and numbers that are given and got.

use crate::instructions::{
    ONE_CELL, TO_BOTH, TO_SIDE, calc, load, mark, number_at, set, store, test, unmark,
};
use crate::runs::{expect_output, outcome_of};
use std::test::Fail;
use tp_value::Stop;
use tpal_syntax::{Alu, Instr, Term, Value};

// What a call leaves to its callee: the levels in the cell and in register 0, and cells above those
// of the caller.
#[test]
fn calls_go_one_level_down(rt: HostRuntime) -> Result<(), Fail> {
    let from_cell = [
        Instr::Salloc(8),
        number_at(2, 4),
        Instr::Tick,
        load(0, 2),
        calc(0, 0, Alu::Sub, Value::Int(1)),
        store(6, Value::Reg(0)),
        store(4, Value::Label(0)),
        calc(31, 31, Alu::Add, Value::Int(4)),
    ];
    let from_register = [
        Instr::Salloc(8),
        set(0, 4),
        calc(0, 0, Alu::Sub, Value::Int(1)),
        store(6, Value::Reg(0)),
        store(4, Value::Label(0)),
        calc(31, 31, Alu::Add, Value::Int(4)),
    ];
    let in_parts = [
        Instr::Salloc(8),
        number_at(2, 4),
        Instr::Tick,
        load(0, 2),
        calc(1, 0, Alu::Sub, Value::Int(1)),
        store(6, Value::Reg(1)),
        store(4, Value::Label(0)),
        set(0, 3),
        calc(31, 31, Alu::Add, Value::Int(4)),
    ];
    let side = [load(1, 2), calc(2, 0, Alu::Add, Value::Reg(31))];
    let wanted: &[u8] = b"3\n7\n1 2\n3 4\n";
    let cases: [&[Instr]; 3] = [&from_cell, &from_register, &in_parts];
    for main in cases {
        expect_output(&rt, (main, TO_SIDE), &side, wanted)?;
    }
    Ok(())
}

// A tick with the test of a number in a cell; where it doesn't jump register 1 gets 3.
const fn ticks(number: i64) -> [Instr; 7] {
    [
        Instr::Salloc(1),
        set(2, 8),
        number_at(0, number),
        Instr::Tick,
        load(1, 0),
        test(1),
        set(1, 3),
    ]
}

// What stands round calls: the test whether there are levels left, two numbers that a callee
// gets, and the store of what it gives back, with a mark or with cells that are free again.
#[test]
fn calls_give_and_get_numbers(rt: HostRuntime) -> Result<(), Fail> {
    let given = [
        Instr::Salloc(2),
        number_at(0, 5),
        number_at(1, -3),
        load(1, 0),
        load(2, 1),
    ];
    let marked = [
        Instr::Salloc(8),
        set(2, 8),
        mark(0, 4),
        mark(1, 4),
        calc(31, 31, Alu::Add, Value::Int(4)),
        calc(31, 31, Alu::Sub, Value::Int(4)),
        unmark(1),
        store(3, Value::Reg(2)),
        load(1, 3),
    ];
    let free = [
        Instr::Salloc(4),
        set(2, 8),
        calc(31, 31, Alu::Add, Value::Int(2)),
        Instr::Sfree(2),
        calc(31, 31, Alu::Sub, Value::Int(2)),
        store(1, Value::Reg(2)),
        load(1, 1),
    ];
    let cases: [(&[Instr], &[u8]); 5] = [
        (&ticks(6), b"6\n8\n1 2\n3 4\n"),
        (&ticks(0), b"3\n8\n1 2\n3 4\n"),
        (&given, b"5\n-3\n1 2\n3 4\n"),
        (&marked, b"8\n8\n1 2\n3 4\n"),
        (&free, b"8\n8\n1 2\n3 4\n"),
    ];
    for (main, wanted) in cases {
        expect_output(&rt, (main, TO_BOTH), &[], wanted)?;
    }
    Ok(())
}

// A task that comes back to its tick, which has no fuel at the fourth.
#[test]
fn ticks_with_loads_end_without_fuel(rt: HostRuntime) -> Result<(), Fail> {
    let again = Term::Jump(Value::Label(0));
    let one = [ONE_CELL, number_at(0, 6), Instr::Tick, load(1, 0)];
    let two = [
        ONE_CELL,
        number_at(0, 6),
        Instr::Tick,
        load(1, 0),
        load(2, 0),
    ];
    let cases: [&[Instr]; 2] = [&one, &two];
    for main in cases {
        let outcome = outcome_of(&rt, (main, again), &[])?;
        assert_eq!(rt; outcome.stop, Stop::NoFuel);
        assert_eq!(rt; outcome.ticks, 4);
    }
    Ok(())
}
