// Reads and writes of a table's cell with the test of its place, as ops, and loads into registers
// that are kept.

use crate::instructions::{ONE_CELL, TO_BOTH, calc, load, nil, number_at, set, store, test};
use crate::runs::{Found, expect_fault, expect_output};
use std::test::Fail;
use tpal_machine::Fault;
use tpal_syntax::{Alu, Instr, Term, Value};

// A read or a write of the cell whose place registers 3 and 4 have, with the test of that.
const fn access(last: Instr) -> [Instr; 16] {
    [
        set(1, 7),
        set(2, 8),
        set(3, 1),
        set(4, 0),
        set(6, 9),
        Instr::Tick,
        calc(5, 3, Alu::Min, Value::Reg(4)),
        calc(5, 5, Alu::Lt, Value::Int(0)),
        test(5),
        Instr::Rows { to: 5, table: 0 },
        calc(5, 5, Alu::Le, Value::Reg(3)),
        test(5),
        Instr::Cols { to: 5, table: 0 },
        calc(5, 5, Alu::Le, Value::Reg(4)),
        test(5),
        last,
    ]
}

const FETCH: Instr = Instr::Fetch {
    to: 1,
    table: 0,
    row: 3,
    col: 4,
};

const PUT: Instr = Instr::Put {
    table: 0,
    row: 3,
    col: 4,
    value: 6,
};

// A read of the cell whose row register 3 has, 1 at first, and whose column register 4, with the
// test of that, behind two other instructions.
const fn read_behind(given: Instr, first: Instr) -> [Instr; 16] {
    [
        ONE_CELL,
        set(1, 7),
        set(2, 8),
        set(3, 1),
        given,
        first,
        calc(5, 3, Alu::Min, Value::Reg(4)),
        calc(5, 5, Alu::Lt, Value::Int(0)),
        test(5),
        Instr::Rows { to: 5, table: 0 },
        calc(5, 5, Alu::Le, Value::Reg(3)),
        test(5),
        Instr::Cols { to: 5, table: 0 },
        calc(5, 5, Alu::Le, Value::Reg(4)),
        test(5),
        FETCH,
    ]
}

// The same with its column loaded from a cell.
const fn loaded(col: i64) -> [Instr; 16] {
    read_behind(number_at(0, col), load(4, 0))
}

// The same of a cell of the first row.
const fn first(col: i64) -> [Instr; 16] {
    read_behind(set(4, col), set(3, 0))
}

// A place that isn't there leads to both, where register 1 has 7.
#[test]
fn reads_and_writes_do_what_their_instructions_do(rt: HostRuntime) -> Result<(), Fail> {
    let cases: [([Instr; 16], &[u8]); 10] = [
        (access(FETCH), b"3\n8\n1 2\n3 4\n"),
        (access(PUT), b"7\n8\n1 2\n9 4\n"),
        (loaded(0), b"3\n8\n1 2\n3 4\n"),
        (loaded(1), b"4\n8\n1 2\n3 4\n"),
        (loaded(2), b"7\n8\n1 2\n3 4\n"),
        (loaded(-1), b"7\n8\n1 2\n3 4\n"),
        (first(0), b"1\n8\n1 2\n3 4\n"),
        (first(1), b"2\n8\n1 2\n3 4\n"),
        (first(2), b"7\n8\n1 2\n3 4\n"),
        (first(-1), b"7\n8\n1 2\n3 4\n"),
    ];
    for (main, wanted) in cases {
        expect_output(&rt, (&main, TO_BOTH), &[], wanted)?;
    }
    Ok(())
}

#[test]
fn reads_fail_where_a_place_is_no_number(rt: HostRuntime) -> Result<(), Fail> {
    let label = store(0, Value::Label(5));
    let cases: [([Instr; 16], Found); 3] = [
        (read_behind(label, load(4, 0)), (Fault::NotInt, 0, 6)),
        (read_behind(label, load(4, 1)), (Fault::OutOfRange, 0, 5)),
        (read_behind(nil(4), set(3, 0)), (Fault::NotInt, 0, 6)),
    ];
    for (main, wanted) in cases {
        expect_fault(&rt, (&main, Term::Halt), &[], wanted)?;
    }
    Ok(())
}

// Numbers that registers keep, or get behind a tick.
#[test]
fn loads_do_what_their_instructions_do(rt: HostRuntime) -> Result<(), Fail> {
    let keeps = [
        ONE_CELL,
        set(1, 4),
        set(2, 5),
        calc(1, 1, Alu::Add, Value::Reg(2)),
        store(0, Value::Reg(1)),
        load(1, 0),
        load(2, 0),
    ];
    let tick_load = [
        ONE_CELL,
        set(2, 8),
        number_at(0, 6),
        Instr::Tick,
        load(1, 0),
        set(3, 1),
    ];
    let tick_two = [
        Instr::Salloc(2),
        number_at(0, 6),
        number_at(1, 8),
        Instr::Tick,
        load(1, 0),
        load(2, 1),
    ];
    let cases: [(&[Instr], &[u8]); 3] = [
        (&keeps, b"9\n9\n1 2\n3 4\n"),
        (&tick_load, b"6\n8\n1 2\n3 4\n"),
        (&tick_two, b"6\n8\n1 2\n3 4\n"),
    ];
    for (main, wanted) in cases {
        expect_output(&rt, (main, TO_BOTH), &[], wanted)?;
    }
    Ok(())
}
