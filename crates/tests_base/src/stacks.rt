// A stack of two activations with a mark on each, and its cuts.

use stack_marks::{Mark, Stack, StackFault};
use std::process::Abort;
use std::test::Fail;
use tpal_syntax::{CutKind, Word};

const OUTER: Mark = Mark {
    at: 3,
    base: 2,
    cells: 3,
    split: 7,
};

const INNER: Mark = Mark {
    at: 6,
    base: 5,
    cells: 2,
    split: 9,
};

/// Cells 10, 11, 20, 21, 22, 30, 31 from position 0, and the two marks.
fn two_activations(rt: &HostRuntime) -> Result<Stack, Fail> {
    let mut stack = Stack::new(rt.alloc(), 0);
    stack.push(7)?;
    for (at, number) in [
        (0, 10),
        (1, 11),
        (2, 20),
        (3, 21),
        (4, 22),
        (5, 30),
        (6, 31),
    ] {
        stack.set(at, Word::Int(number))?;
    }
    stack.mark(OUTER)?;
    stack.mark(INNER)?;
    Ok(stack)
}

/// The numbers from a position on, and nothing below and above them.
fn holds(rt: &impl Abort, stack: &Stack, low: u32, numbers: &[i64]) {
    let low = i64::from(low);
    let mut at = low;
    for number in numbers {
        assert_eq!(rt; stack.get(at), Ok(Word::Int(*number)), "at {at}");
        at = at.saturating_add(1);
    }
    assert_eq!(rt; stack.get(at), Err(StackFault::OutOfRange));
    assert_eq!(rt;
        stack.get(low.saturating_sub(1)),
        Err(StackFault::OutOfRange)
    );
}

#[test]
fn a_loop_is_cut(rt: HostRuntime) -> Result<(), Fail> {
    match two_activations(&rt)?.cut(2, 3, CutKind::Loop) {
        Ok(mut cut) => {
            holds(&rt, &cut.rest, 0, &[10, 11, 20, 21, 22]);
            holds(&rt, &cut.child, 2, &[20, 21, 22]);
            holds(&rt, &cut.left, 2, &[20, 21, 22, 30, 31]);
            assert_eq!(rt; cut.rest.oldest(), None);
            assert_eq!(rt; cut.child.oldest(), None);
            assert_eq!(rt; cut.left.drop_oldest(), Some(OUTER));
            assert_eq!(rt; cut.left.drop_oldest(), Some(INNER));
            assert_eq!(rt; cut.left.drop_oldest(), None);
        }
        Err(_) => assert!(rt; false),
    }
    Ok(())
}

#[test]
fn a_call_is_cut(rt: HostRuntime) -> Result<(), Fail> {
    match two_activations(&rt)?.cut(2, 3, CutKind::Call) {
        Ok(mut cut) => {
            holds(&rt, &cut.rest, 0, &[10, 11, 20, 21, 22]);
            holds(&rt, &cut.child, 2, &[20, 21, 22]);
            holds(&rt, &cut.left, 5, &[30, 31]);
            assert_eq!(rt; cut.rest.oldest(), None);
            assert_eq!(rt; cut.child.oldest(), None);
            assert_eq!(rt; cut.left.drop_oldest(), Some(INNER));
            assert_eq!(rt; cut.left.drop_oldest(), None);
        }
        Err(_) => assert!(rt; false),
    }
    Ok(())
}

#[test]
fn calls_are_refused(rt: HostRuntime) -> Result<(), Fail> {
    let mut stack = two_activations(&rt)?;
    let inside = Mark {
        at: 5,
        base: 5,
        cells: 2,
        split: 0,
    };
    assert_eq!(rt; stack.pop(1), Err(StackFault::MarkedCell));
    assert_eq!(rt; stack.get(7), Err(StackFault::OutOfRange));
    assert_eq!(rt; stack.unmark(4), Err(StackFault::NotMarked));
    assert_eq!(rt; stack.mark(inside), Err(StackFault::MarkOrder));
    assert_eq!(rt; stack.unmark(6), Ok(()));
    assert_eq!(rt; stack.pop(1), Ok(()));
    let mut high = Stack::new(rt.alloc(), 4_611_686_018_427_387_903);
    assert_eq!(rt; high.push(2), Err(StackFault::TooLong));
    assert_eq!(rt; high.push(1), Ok(()));
    Ok(())
}

/// A mark on a cell of its own.
fn mark_on(at: u64) -> Mark {
    Mark {
        at,
        base: at,
        cells: 1,
        split: 0,
    }
}

/// Six cells that were marked but for the last, without some of the marks, and then with one on the
/// last cell.
fn marked_but(rt: &HostRuntime, gone: &[i64]) -> Result<Stack, Fail> {
    let mut stack = Stack::new(rt.alloc(), 0);
    stack.push(6)?;
    for at in [0, 1, 2, 3, 4] {
        stack.mark(mark_on(at))?;
    }
    for at in gone {
        stack.unmark(*at)?;
    }
    stack.mark(mark_on(5))?;
    Ok(stack)
}

#[test]
fn neighbours_of_a_mark_that_goes(rt: HostRuntime) -> Result<(), Fail> {
    let cases: [(&[i64], &[u64]); 8] = [
        (&[], &[0, 1, 2, 3, 4, 5]),
        (&[0], &[1, 2, 3, 4, 5]),
        (&[4], &[0, 1, 2, 3, 5]),
        (&[2], &[0, 1, 3, 4, 5]),
        (&[2, 1], &[0, 3, 4, 5]),
        (&[2, 3, 4], &[0, 1, 5]),
        (&[4, 3, 2, 1], &[0, 5]),
        (&[1, 0, 3, 4, 2], &[5]),
    ];
    for (gone, marks) in cases {
        let mut stack = marked_but(&rt, gone)?;
        for at in marks {
            assert_eq!(rt; stack.drop_oldest(), Some(mark_on(*at)), "without {gone:?}");
        }
        assert_eq!(rt; stack.drop_oldest(), None, "without {gone:?}");
    }
    Ok(())
}
