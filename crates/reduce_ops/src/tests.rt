// What each operator answers, on numbers worked out by hand.

use crate::{AddOp, AffineOp, MaxOp, MinOp, MulOp, Reducer, combine, unit};
use tp_value::Op;

const LEAST: i64 = i64::MIN;

const GREATEST: i64 = i64::MAX;

#[test]
fn two_numbers_become_one(rt: HostRuntime) {
    let cases = [
        (Op::Add, GREATEST, 1, LEAST),
        (Op::Mul, 4294967296, 4294967296, 0),
        (Op::Min, -3, 2, -3),
        (Op::Max, -3, 2, 2),
        // x becomes 2 * x, and then x + 3
        (Op::Affine, 8589934592, 4294967299, 8589934595),
        // x becomes x + 3, and then 2 * x
        (Op::Affine, 4294967299, 8589934592, 8589934598),
        // x becomes -x - 1 twice, modulo 2^32
        (Op::Affine, -1, -1, 4294967296),
    ];
    for (op, a, b, want) in cases {
        assert_eq!(rt; combine(op, a, b), want);
    }
}

#[test]
fn a_unit_changes_nothing(rt: HostRuntime) {
    let cases = [
        (Op::Add, 0),
        (Op::Mul, 1),
        (Op::Min, 9223372036854775807),
        (Op::Max, -9223372036854775808),
        (Op::Affine, 4294967296),
    ];
    for (op, want) in cases {
        assert_eq!(rt; unit(op), want);
    }
}

// The three numbers as one, from the reducer's unit on.
fn reduced<R: Reducer>(a: i64, b: i64, c: i64) -> i64 {
    R::combine(R::combine(R::combine(R::unit(), a), b), c)
}

#[test]
fn each_type_is_its_operator(rt: HostRuntime) {
    assert_eq!(rt; reduced::<AddOp>(5, -2, 4), 7);
    assert_eq!(rt; reduced::<MulOp>(5, -2, 4), -40);
    assert_eq!(rt; reduced::<MinOp>(5, -2, 4), -2);
    assert_eq!(rt; reduced::<MaxOp>(5, -2, 4), 5);
    // of maps whose multiplier is 0 the last one counts
    assert_eq!(rt; reduced::<AffineOp>(5, 2, 4), 4);
}
