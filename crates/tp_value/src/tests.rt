// Calculations at the ends of the range, and the list type once.

use crate::{Items, add, div, eq, le, lt, mul, ne, rem, sub};
use std::test::Fail;

#[test]
fn calculations_wrap(rt: HostRuntime) {
    let cases = [
        (add(i64::MAX, 1), i64::MIN),
        (sub(i64::MIN, 1), i64::MAX),
        (mul(4_611_686_018_427_387_904, 2), i64::MIN),
        (lt(-1, 0), 1),
        (le(1, 0), 0),
        (eq(7, 7), 1),
        (ne(7, 7), 0),
    ];
    for (found, wanted) in cases {
        assert_eq!(rt; found, wanted);
    }
}

#[test]
fn quotients_truncate(rt: HostRuntime) {
    let cases = [
        (div(i64::MIN, -1), Some(i64::MIN)),
        (rem(i64::MIN, -1), Some(0)),
        (div(-7, 2), Some(-3)),
        (rem(-7, 2), Some(-1)),
        (div(7, 0), None),
        (rem(7, 0), None),
    ];
    for (found, wanted) in cases {
        assert_eq!(rt; found, wanted);
    }
}

#[test]
fn lists_keep_their_items(rt: HostRuntime) -> Result<(), Fail> {
    let list = Items::new([3, 1, 2].to_vec(rt.alloc())?);
    assert_eq!(rt; list.items(), [3, 1, 2].as_slice());
    assert_eq!(rt; list.into_vec().len(), 3);
    Ok(())
}
