// What compiled loops are made of: ops do what their instructions do one at a time, where numbers
// wrap too, and end at the same faults.

use crate::instructions::{TO_BOTH, TO_SIDE, calc, load, nil, number_at, set, store, test};
use crate::runs::{Found, expect_fault, expect_output};
use std::test::Fail;
use tpal_machine::Fault;
use tpal_syntax::{Alu, Instr, Term, Value};

const MIN: i64 = i64::MIN;

const MAX: i64 = i64::MAX;

// The product of two registers in a third, and the sum of that and a fourth: the numbers of
// registers 1, 2 and 3, the product's register and its left operand, and the sum's register.
const fn product(numbers: [i64; 3], to: u8, left: u8, sum: u8) -> [Instr; 5] {
    [
        set(1, numbers[0]),
        set(2, numbers[1]),
        set(3, numbers[2]),
        calc(to, left, Alu::Mul, Value::Reg(3)),
        calc(sum, sum, Alu::Add, Value::Reg(to)),
    ]
}

// Registers 1 and 2 are printed.
#[test]
fn a_sum_gets_a_product(rt: HostRuntime) -> Result<(), Fail> {
    let cases: [([Instr; 5], &[u8]); 8] = [
        (product([100, 6, 7], 2, 2, 1), b"142\n42\n1 2\n3 4\n"),
        (product([100, 6, 7], 2, 1, 1), b"800\n700\n1 2\n3 4\n"),
        (product([100, 6, 7], 2, 2, 2), b"100\n84\n1 2\n3 4\n"),
        (product([100, 6, 7], 3, 3, 2), b"100\n55\n1 2\n3 4\n"),
        (product([100, 0, 7], 2, 2, 1), b"100\n0\n1 2\n3 4\n"),
        (product([100, MAX, 2], 2, 2, 1), b"98\n-2\n1 2\n3 4\n"),
        (
            product([MAX, 6, 7], 2, 2, 1),
            b"-9223372036854775767\n42\n1 2\n3 4\n",
        ),
        (
            product([MIN, MIN, -1], 2, 2, 1),
            b"0\n-9223372036854775808\n1 2\n3 4\n",
        ),
    ];
    for (main, wanted) in cases {
        expect_output(&rt, (&main, TO_BOTH), &[], wanted)?;
    }
    Ok(())
}

// A comparison with nil of what a register has; where it doesn't jump, register 2 gets 3.
const fn awaits(r: u8, value: Value) -> [Instr; 5] {
    [
        set(2, 8),
        Instr::Move { to: r, value },
        calc(1, r, Alu::Eq, Value::Nil),
        test(1),
        set(2, 3),
    ]
}

#[test]
fn nil_alone_is_nil(rt: HostRuntime) -> Result<(), Fail> {
    let nil: &[u8] = b"1\n8\n1 2\n3 4\n";
    let other: &[u8] = b"0\n3\n1 2\n3 4\n";
    let cases = [
        (awaits(1, Value::Nil), nil),
        (awaits(4, Value::Nil), nil),
        (awaits(1, Value::Reg(9)), nil),
        (awaits(1, Value::Int(0)), other),
        (awaits(4, Value::Int(0)), other),
        (awaits(1, Value::Int(1)), other),
        (awaits(1, Value::Label(0)), other),
        (awaits(4, Value::Label(5)), other),
    ];
    for (main, wanted) in cases {
        expect_output(&rt, (&main, TO_BOTH), &[], wanted)?;
    }
    Ok(())
}

const MOST: i64 = 1_099_511_627_776;

// The size of the range from a number up to another, in register 1, and its tests in register 2,
// which gets 2 more where the first doesn't jump.
const fn range(start: Instr, end: Instr) -> [Instr; 7] {
    [
        start,
        end,
        calc(1, 4, Alu::Sub, Value::Reg(3)),
        calc(2, 1, Alu::Lt, Value::Int(0)),
        test(2),
        calc(2, 1, Alu::Le, Value::Int(MOST)),
        calc(2, 2, Alu::Add, Value::Int(2)),
    ]
}

#[test]
fn ranges_are_tested(rt: HostRuntime) -> Result<(), Fail> {
    let cases: [(i64, i64, &[u8]); 11] = [
        (5, 5, b"0\n3\n1 2\n3 4\n"),
        (-2, 3, b"5\n3\n1 2\n3 4\n"),
        (0, MOST, b"1099511627776\n3\n1 2\n3 4\n"),
        (-1, MOST, b"1099511627777\n2\n1 2\n3 4\n"),
        (0, MOST + 1, b"1099511627777\n2\n1 2\n3 4\n"),
        (0, MAX, b"9223372036854775807\n2\n1 2\n3 4\n"),
        (5, 4, b"-1\n1\n1 2\n3 4\n"),
        (0, MIN, b"-9223372036854775808\n1\n1 2\n3 4\n"),
        (-1, MAX, b"-9223372036854775808\n1\n1 2\n3 4\n"),
        (1, MIN, b"9223372036854775807\n2\n1 2\n3 4\n"),
        (MAX, MIN, b"1\n3\n1 2\n3 4\n"),
    ];
    for (start, end, wanted) in cases {
        let main = range(set(3, start), set(4, end));
        expect_output(&rt, (&main, TO_BOTH), &[], wanted)?;
    }
    Ok(())
}

// The next iteration of a loop whose cursor is in a cell, its end in the cell behind, and its
// variable further on: what these two cells get first, and how far the variable's is. Register 31
// points to cell 2, which is printed where the test doesn't jump to the side.
const fn turn(cursor: Instr, end: Instr, variable: u16) -> [Instr; 13] {
    [
        Instr::Salloc(5),
        calc(31, 31, Alu::Add, Value::Int(2)),
        cursor,
        end,
        load(1, 0),
        load(0, 1),
        calc(3, 1, Alu::Sub, Value::Reg(0)),
        store(variable, Value::Reg(1)),
        calc(1, 1, Alu::Add, Value::Int(1)),
        store(0, Value::Reg(1)),
        calc(2, 3, Alu::Lt, Value::Int(-1)),
        Instr::IfJump { test: 2, label: 4 },
        Instr::Print(31),
    ]
}

// A side that prints the registers 0 to 3, and has the cells of the cursor and of the variable
// printed.
const fn seen() -> [Instr; 6] {
    [
        Instr::Print(0),
        Instr::Print(1),
        Instr::Print(2),
        Instr::Print(3),
        load(1, 0),
        load(2, 2),
    ]
}

#[test]
fn cursors_go_on(rt: HostRuntime) -> Result<(), Fail> {
    let cases: [(i64, i64, &[u8]); 8] = [
        (3, 9, b"9\n4\n1\n-6\n4\n3\n1 2\n3 4\n"),
        (3, 5, b"5\n4\n1\n-2\n4\n3\n1 2\n3 4\n"),
        (3, 4, b"2\n4\n4\n0\n-1\n4\n3\n1 2\n3 4\n"),
        (3, 3, b"2\n3\n4\n0\n0\n4\n3\n1 2\n3 4\n"),
        (3, 2, b"2\n2\n4\n0\n1\n4\n3\n1 2\n3 4\n"),
        (-1, 1, b"1\n0\n1\n-2\n0\n-1\n1 2\n3 4\n"),
        (
            MIN,
            1,
            b"2\n1\n-9223372036854775807\n0\n9223372036854775807\n\
            -9223372036854775807\n-9223372036854775808\n1 2\n3 4\n",
        ),
        (
            MAX,
            MIN,
            b"2\n-9223372036854775808\n-9223372036854775808\n0\n-1\n\
            -9223372036854775808\n9223372036854775807\n1 2\n3 4\n",
        ),
    ];
    for (cursor, end, wanted) in cases {
        let main = turn(number_at(0, cursor), number_at(1, end), 2);
        expect_output(&rt, (&main, TO_SIDE), &seen(), wanted)?;
    }
    Ok(())
}

// A cell that is the variable's too: the cursor's goes on all the same, and the end's was read.
#[test]
fn a_variable_may_share_its_cell(rt: HostRuntime) -> Result<(), Fail> {
    let cases: [(u16, &[u8]); 3] = [
        (0, b"4\n5\n1 2\n3 4\n"),
        (1, b"4\n3\n1 2\n3 4\n"),
        (2, b"4\n5\n1 2\n3 4\n"),
    ];
    let side = [load(1, 0), load(2, 1)];
    for (variable, wanted) in cases {
        let main = turn(number_at(0, 3), number_at(1, 5), variable);
        expect_output(&rt, (&main, TO_SIDE), &side, wanted)?;
    }
    Ok(())
}

const fn label(to: u8) -> Instr {
    Instr::Move {
        to,
        value: Value::Label(5),
    }
}

// A product and its sum behind what two registers get.
const fn product_of(left: Instr, sum: Instr) -> [Instr; 5] {
    [
        left,
        set(3, 7),
        sum,
        calc(2, 2, Alu::Mul, Value::Reg(3)),
        calc(1, 1, Alu::Add, Value::Reg(2)),
    ]
}

#[test]
fn loops_fail_where_there_is_no_number(rt: HostRuntime) -> Result<(), Fail> {
    let (three, five) = (number_at(0, 3), number_at(1, 5));
    let way = store(0, Value::Label(5));
    let none = store(1, Value::Nil);
    let not_int = Fault::NotInt;
    let out = Fault::OutOfRange;
    let cases: [(&[Instr], Found); 14] = [
        (&product_of(nil(2), set(1, 9)), (not_int, 0, 3)),
        (&product_of(label(2), set(1, 9)), (not_int, 0, 3)),
        (&product_of(set(2, 6), nil(3)), (not_int, 0, 3)),
        (&product_of(set(2, 6), nil(1)), (not_int, 0, 4)),
        (&product_of(set(2, 6), label(1)), (not_int, 0, 4)),
        (&range(nil(3), set(4, 5)), (not_int, 0, 2)),
        (&range(set(3, 5), label(4)), (not_int, 0, 2)),
        (&turn(way, five, 2), (not_int, 0, 6)),
        (&turn(three, none, 2), (not_int, 0, 6)),
        (&turn(way, none, 2), (not_int, 0, 6)),
        (&turn(three, nil(31), 2), (not_int, 0, 4)),
        (&turn(three, set(31, 5), 2), (out, 0, 4)),
        (&turn(three, set(31, 4), 2), (out, 0, 5)),
        (&turn(three, five, 3), (out, 0, 7)),
    ];
    for (main, wanted) in cases {
        expect_fault(&rt, (main, Term::Halt), &[], wanted)?;
    }
    Ok(())
}
