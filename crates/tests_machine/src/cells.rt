// What compiled code does with cells: ops do what their instructions do one at a time, where
// numbers wrap too, and end at the same faults.

use crate::instructions::{TO_BOTH, TO_SIDE, calc, load, mark, nil, number_at, set, store, unmark};
use crate::runs::{Found, expect_fault, expect_output};
use std::test::Fail;
use tpal_machine::Fault;
use tpal_syntax::{Alu, Instr, Term, Value};

// Two cells and their sum in another, so far from where register 31 points.
const fn sum(first: Instr, second: Instr, off: u16) -> [Instr; 8] {
    [
        Instr::Salloc(3),
        set(2, 8),
        first,
        second,
        load(0, 0),
        load(1, 1),
        calc(0, 0, Alu::Add, Value::Reg(1)),
        store(off, Value::Reg(0)),
    ]
}

// Register 1, and what the sum's cell has.
#[test]
fn cells_are_added(rt: HostRuntime) -> Result<(), Fail> {
    let cases: [(i64, i64, u16, &[u8]); 7] = [
        (5, 6, 2, b"6\n11\n1 2\n3 4\n"),
        (5, 6, 0, b"6\n11\n1 2\n3 4\n"),
        (5, 6, 1, b"6\n11\n1 2\n3 4\n"),
        (-5, 5, 2, b"5\n0\n1 2\n3 4\n"),
        (i64::MAX, 1, 2, b"1\n-9223372036854775808\n1 2\n3 4\n"),
        (i64::MIN, -1, 2, b"-1\n9223372036854775807\n1 2\n3 4\n"),
        (
            i64::MIN,
            i64::MIN,
            0,
            b"-9223372036854775808\n0\n1 2\n3 4\n",
        ),
    ];
    for (left, right, off, wanted) in cases {
        let main = sum(number_at(0, left), number_at(1, right), off);
        let side = [load(2, off)];
        expect_output(&rt, (&main, TO_SIDE), &side, wanted)?;
    }
    Ok(())
}

// The sum with other instructions behind it, which read what it left in registers.
#[test]
fn a_sum_stays_in_its_register(rt: HostRuntime) -> Result<(), Fail> {
    let [cells, other, first, second, left, right, adds, kept] = sum(
        number_at(0, 5),
        number_at(1, 6),
        2,
    );
    let main = [
        cells,
        other,
        first,
        second,
        left,
        right,
        adds,
        kept,
        calc(2, 0, Alu::Add, Value::Int(0)),
    ];
    expect_output(&rt, (&main, TO_BOTH), &[], b"6\n11\n1 2\n3 4\n")?;
    Ok(())
}

#[test]
fn a_number_is_stored_before_more_cells(rt: HostRuntime) -> Result<(), Fail> {
    let cases: [(i64, u16, &[u8]); 3] = [
        (5, 2, b"5\n9\n1 2\n3 4\n"),
        (-32_768, 100, b"-32768\n9\n1 2\n3 4\n"),
        (32_767, 512, b"32767\n9\n1 2\n3 4\n"),
    ];
    for (number, cells, wanted) in cases {
        let main = [
            Instr::Salloc(1),
            number_at(0, number),
            Instr::Salloc(cells),
            number_at(2, 9),
            load(1, 0),
            load(2, 2),
        ];
        expect_output(&rt, (&main, TO_BOTH), &[], wanted)?;
    }
    Ok(())
}

// A way back to the activation at cell 0, with two marks, of which it removes one: what cell 0 has,
// the number of cells that it goes back, the cells of that mark and of the other, which is removed
// behind it, and the cell that is given to a call.
const fn back(given: Instr, size: i64, gone: u16, other: u16, from: u16) -> [Instr; 13] {
    [
        Instr::Salloc(8),
        given,
        mark(1, 5),
        mark(3, 5),
        set(0, 7),
        set(31, 4),
        calc(31, 31, Alu::Sub, Value::Int(size)),
        unmark(gone),
        store(2, Value::Reg(0)),
        load(0, from),
        store(6, Value::Reg(0)),
        unmark(other),
        load(1, 2),
    ]
}

// What register 0 had, and the cell that a call got.
#[test]
fn a_way_back_stores_and_gives(rt: HostRuntime) -> Result<(), Fail> {
    let cases: [(u16, u16, u16, &[u8]); 4] = [
        (3, 1, 0, b"7\n5\n1 2\n3 4\n"),
        (1, 3, 0, b"7\n5\n1 2\n3 4\n"),
        (3, 1, 2, b"7\n7\n1 2\n3 4\n"),
        (1, 3, 2, b"7\n7\n1 2\n3 4\n"),
    ];
    for (gone, other, from, wanted) in cases {
        let main = back(number_at(0, 5), 4, gone, other, from);
        let side = [load(2, 6)];
        expect_output(&rt, (&main, TO_SIDE), &side, wanted)?;
    }
    Ok(())
}

#[test]
fn cells_fail_at_their_places(rt: HostRuntime) -> Result<(), Fail> {
    let (three, five) = (number_at(0, 3), number_at(1, 5));
    let way = store(0, Value::Label(5));
    let none = store(1, Value::Nil);
    let not_int = Fault::NotInt;
    let out = Fault::OutOfRange;
    let beyond = [Instr::Salloc(1), number_at(1, 5), Instr::Salloc(2)];
    let nowhere = [nil(31), number_at(0, 5), Instr::Salloc(2)];
    let cases: [(&[Instr], Found); 10] = [
        (&sum(way, five, 2), (not_int, 0, 6)),
        (&sum(three, none, 2), (not_int, 0, 6)),
        (&sum(three, nil(31), 2), (not_int, 0, 4)),
        (&sum(three, set(31, 3), 2), (out, 0, 4)),
        (&sum(three, set(31, 2), 2), (out, 0, 5)),
        (&sum(three, five, 3), (out, 0, 7)),
        (&beyond, (out, 0, 1)),
        (&nowhere, (not_int, 0, 1)),
        (&back(number_at(0, 5), 4, 3, 1, 8), (out, 0, 9)),
        (&back(number_at(0, 5), 1, 0, 1, 0), (out, 0, 10)),
    ];
    for (main, wanted) in cases {
        expect_fault(&rt, (main, Term::Halt), &[], wanted)?;
    }
    Ok(())
}
