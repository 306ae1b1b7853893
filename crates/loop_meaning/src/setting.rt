// What the evaluator of a statement needs to know.

ghost use Rattle.std.specs.Prelude.{◌≤◌};
ghost use Rattle.tp_value.specs.declared.limits.TheConstants.{MAX_CALL_DEPTH, MAX_FUEL};

use loop_syntax::{Program, Reduce};
use std::alloc::Global;

/// The program that runs, the reduce list of the nearest `par`, the fuel, and the depth of calls.
#[derive(Drop)]
pub struct Setting<'a> {
    /// Where memory comes from.
    pub alloc: Global,
    /// The program.
    pub program: &'a Program,
    /// The reduce list of the nearest `par`, or an empty one.
    pub reduces: &'a [Reduce],
    /// The fuel, in ticks.
    pub fuel: u64,
    /// The depth of calls, where main has depth 0.
    pub depth: u32,
    ghost fuel_in_range: { fuel ≤ MAX_FUEL },
    ghost depth_in_range: { depth ≤ MAX_CALL_DEPTH },
}
