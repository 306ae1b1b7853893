// What is left of a `par`, or of a `both`, that one task runs.

use tp_value::{Items, Op};

/// A part of a `par` with its accumulators, or the calls of a `both`.
#[derive(Drop)]
pub enum Frame {
    /// The iterations from `next` to below `end`, with the operator and the value of each reduced
    /// variable, in the order of the reduce list.
    Range {
        /// The number of the next iteration.
        next: i64,
        /// The first number past the last iteration.
        end: i64,
        /// The accumulators.
        accs: Items<(Op, i64)>,
    },
    /// The two calls of a `both`, of which the first is known where the frame stands.
    Pair {
        /// The second call's function.
        second: Items<u8>,
        /// The second call's arguments.
        args: Items<i64>,
        /// Whether another task has the second call.
        taken: bool,
    },
}
