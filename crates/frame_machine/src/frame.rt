// A frame cut in two, and the accumulators of both parts merged.

ghost use Rattle.std.specs.Prelude.{◌≡◌, IfOk, length, true};
ghost use Rattle.loop_meaning.specs.declared.frame.Frame.TheVariants.{Pair};
ghost use Rattle.frame_machine.specs.Splitting.{IsShort, parts_of, with_units, merged};

use crate::range::split_range;
use loop_meaning::Frame;
use reduce_ops::{combine, unit};
use std::alloc::Global;
use tp_value::{Items, NoMemory, Op};

/// The operators of accumulators, each with its unit.
fn with_units(alloc: Global, accs: &[(Op, i64)]) -> Result<Vec<(Op, i64)>, NoMemory>
    ensures { IfOk result (λ v. v.items ≡ with_units accs.now) }
{
    let mut units = Vec::with_capacity(alloc, accs.len())?;
    for acc in accs {
        units.push((acc.0, unit(acc.0)))?;
    }
    Ok(units)
}

/// A taken pair with these calls.
fn taken(alloc: Global, second: &[u8], args: &[i64]) -> Result<Frame, NoMemory>
    ensures { IfOk result (λ f. f ≡ Pair second.now args.now true) }
{
    Ok(Frame::Pair {
        second: Items::new(second.to_vec(alloc)?),
        args: Items::new(args.to_vec(alloc)?),
        taken: true,
    })
}

/// Both parts of a frame, the lower one or the rest first: None exactly where a range has no
/// iteration left or a pair is taken. The lower part of a range keeps its accumulators, and the
/// upper one begins with units; both parts of a pair are that pair, taken.
pub fn split_frame(alloc: Global, frame: &Frame) -> Result<Option<(Frame, Frame)>, NoMemory>
    requires short { IsShort frame.now }
    ensures { IfOk result (λ parts. parts ≡ parts_of frame.now) }
{
    match frame {
        Frame::Range { next, end, accs } => {
            let Some(middle) = split_range(*next, *end) else {
                return Ok(None);
            };
            let lower = Frame::Range {
                next: *next,
                end: middle,
                accs: Items::new(accs.items().to_vec(alloc)?),
            };
            let upper = Frame::Range {
                next: middle,
                end: *end,
                accs: Items::new(with_units(alloc, accs.items())?),
            };
            Ok(Some((lower, upper)))
        }
        Frame::Pair {
            second,
            args,
            taken: gone,
        } => {
            if *gone {
                return Ok(None);
            }
            let rest = taken(alloc, second.items(), args.items())?;
            let child = taken(alloc, second.items(), args.items())?;
            Ok(Some((rest, child)))
        }
    }
}

/// The accumulators of both parts as one list: place by place, the left one first.
pub fn merge_frames(
    alloc: Global,
    ops: &[Op],
    left: &[i64],
    right: &[i64],
) -> Result<Vec<i64>, NoMemory>
    requires left_long { length left.now ≡ length ops.now }
    requires right_long { length right.now ≡ length ops.now }
    ensures { IfOk result (λ v. v.items ≡ merged ops.now left.now right.now) }
{
    let mut both = Vec::with_capacity(alloc, ops.len())?;
    for i in 0..ops.len() {
        both.push(combine(ops[i], left[i], right[i]))?;
    }
    Ok(both)
}
