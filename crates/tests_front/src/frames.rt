// Ranges and frames cut in two, and accumulators merged, with answers worked out by hand.

ghost use Rattle.std.specs.Prelude.{◌≡◌, IfOk, List, [], ◌∷◌};
ghost use Rattle.loop_meaning.specs.declared.frame.Frame.TheVariants.{Range};
ghost use Rattle.frame_machine.specs.Splitting.{IsShort};

use frame_machine::{merge_frames, split_frame, split_range};
use loop_meaning::Frame;
use std::alloc::Global;
use std::test::Fail;
use tp_value::{Items, NoMemory, Op};

#[test]
fn a_range_is_cut_at_its_last_half(rt: HostRuntime) {
    assert_eq!(rt; split_range(1, 4), Some(2));
    assert_eq!(rt; split_range(3, 4), Some(3));
    assert_eq!(rt; split_range(4, 4), None);
    assert_eq!(rt; split_range(5, 4), None);
    assert_eq!(rt; split_range(0, 100), Some(50));
    assert_eq!(rt; split_range(-3, 2), Some(-1));
    assert_eq!(rt; split_range(0, 1_099_511_627_776), Some(549_755_813_888));
}

#[test]
fn a_range_is_cut_at_the_ends_of_the_numbers(rt: HostRuntime) {
    assert_eq!(rt;
        split_range(i64::MIN, -9223372036854775806),
        Some(-9223372036854775807)
    );
    assert_eq!(rt;
        split_range(9223372036854775806, i64::MAX),
        Some(9223372036854775806)
    );
    assert_eq!(rt; split_range(i64::MAX, i64::MIN), None);
}

// Whether the frame is that range with one accumulator.
fn is_range(frame: &Frame, next: i64, end: i64, acc: (Op, i64)) -> bool {
    match frame {
        Frame::Range {
            next: from,
            end: to,
            accs,
        } => {
            let accs = accs.items();
            *from == next && *to == end && accs.len() == 1 && accs[0] == acc
        }
        Frame::Pair { .. } => false,
    }
}

// Whether the frame is that pair, taken.
fn is_taken(frame: &Frame, second: &[u8], args: &[i64]) -> bool {
    match frame {
        Frame::Range { .. } => false,
        Frame::Pair {
            second: name,
            args: numbers,
            taken,
        } => *taken && name.items() == second && numbers.items() == args,
    }
}

fn range(g: Global, next: i64, end: i64, op: Op, acc: i64) -> Result<Frame, NoMemory>
    ensures { IfOk result (λ f. f ≡ Range next end ((op, acc) ∷ [])) }
{
    Ok(Frame::Range {
        next,
        end,
        accs: Items::new(vec![in g; (op, acc)]?),
    })
}

#[test]
fn a_frame_of_a_range_is_cut(rt: HostRuntime) -> Result<(), Fail> {
    let g = rt.alloc();
    let parts = split_frame(g, &range(g, 1, 4, Op::Add, 7)?)?;
    match parts {
        Some((lower, upper)) => {
            assert!(rt; is_range(&lower, 1, 2, (Op::Add, 7)));
            assert!(rt; is_range(&upper, 2, 4, (Op::Add, 0)));
        }
        None => assert!(rt; false),
    }
    Ok(())
}

#[test]
fn an_upper_frame_begins_with_its_unit(rt: HostRuntime) -> Result<(), Fail> {
    let g = rt.alloc();
    match split_frame(g, &range(g, 3, 4, Op::Min, 7)?)? {
        Some((lower, upper)) => {
            assert!(rt; is_range(&lower, 3, 3, (Op::Min, 7)));
            assert!(rt; is_range(&upper, 3, 4, (Op::Min, i64::MAX)));
        }
        None => assert!(rt; false),
    }
    Ok(())
}

#[test]
fn an_empty_range_is_not_cut(rt: HostRuntime) -> Result<(), Fail> {
    let g = rt.alloc();
    assert!(rt; split_frame(g, &range(g, 4, 4, Op::Mul, 7)?)?.is_none());
    Ok(())
}

fn pair(g: Global, taken: bool) -> Result<Frame, NoMemory>
    ensures { IfOk result (λ f. IsShort f) }
{
    Ok(Frame::Pair {
        second: Items::new(b"fib".to_vec(g)?),
        args: Items::new(vec![in g; 5, -1]?),
        taken,
    })
}

#[test]
fn a_pair_is_taken_once(rt: HostRuntime) -> Result<(), Fail> {
    let g = rt.alloc();
    match split_frame(g, &pair(g, false)?)? {
        Some((rest, child)) => {
            assert!(rt; is_taken(&rest, b"fib", &[5, -1]));
            assert!(rt; is_taken(&child, b"fib", &[5, -1]));
        }
        None => assert!(rt; false),
    }
    assert!(rt; split_frame(g, &pair(g, true)?)?.is_none());
    Ok(())
}

#[test]
fn accumulators_are_merged_left_first(rt: HostRuntime) -> Result<(), Fail> {
    let g = rt.alloc();
    assert!(rt; merge_frames(g, &[Op::Add], &[8], &[5])?.as_slice() == [13].as_slice());
    assert!(rt; merge_frames(g, &[], &[], &[])?.is_empty());
    // x becomes 2 * x, and then x + 3
    let ops = [Op::Affine, Op::Max, Op::Mul];
    let merged = merge_frames(g, &ops, &[8589934592, -3, 3], &[4294967299, 2, 4])?;
    assert!(rt; merged.as_slice() == [8589934595, 2, 12].as_slice());
    Ok(())
}
