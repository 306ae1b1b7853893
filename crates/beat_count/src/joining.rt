// How two halves of a run stop together.

ghost use Rattle.std.specs.Prelude.{◌≡◌, ◌+◌, ◌≤◌};
ghost use Rattle.beat_count.specs.Joining.{joined_stop, joined_ticks};

use tp_value::{MAX_FUEL, Stop};

/// The stop and the ticks of two halves, one run after the other: those of the left where it isn't
/// done; else the right's stop and the sum of the ticks, or out of fuel where the sum exceeds the
/// limit.
pub fn join_stops(
    left: Stop,
    left_ticks: u64,
    right: Stop,
    right_ticks: u64,
    limit: u64,
) -> (Stop, u64)
    requires limited { limit ≤ MAX_FUEL }
    requires left_within { left_ticks ≤ limit + 1 }
    requires right_within { right_ticks ≤ limit + 1 }
    ensures stop { result.0 ≡ joined_stop left left_ticks right right_ticks limit }
    ensures ticks { result.1 ≡ joined_ticks left left_ticks right right_ticks limit }
    ensures within { result.1 ≤ limit + 1 }
{
    match left {
        Stop::Left(number) => (Stop::Left(number), left_ticks),
        Stop::Trap(kind, place) => (Stop::Trap(kind, place), left_ticks),
        Stop::NoFuel => (Stop::NoFuel, left_ticks),
        Stop::Done => {
            let sum = left_ticks + right_ticks;
            if sum > limit {
                (Stop::NoFuel, limit + 1)
            } else {
                (right, sum)
            }
        }
    }
}
