// The reducer of an operator.

ghost use Rattle.std.specs.Prelude.{◌≡◌};
ghost use Rattle.reduce_ops.specs.Reduction as reduction;

use crate::operators::{AddOp, AffineOp, MaxOp, MinOp, MulOp, Reducer};
use tp_value::Op;

/// Both numbers as one by that operator, the first before the second.
pub fn combine(op: Op, a: i64, b: i64) -> i64
    ensures { result ≡ reduction.combine op a b }
{
    match op {
        Op::Add => AddOp::combine(a, b),
        Op::Mul => MulOp::combine(a, b),
        Op::Min => MinOp::combine(a, b),
        Op::Max => MaxOp::combine(a, b),
        Op::Affine => AffineOp::combine(a, b),
    }
}

/// The number that changes nothing by that operator.
pub fn unit(op: Op) -> i64
    ensures { result ≡ reduction.unit op }
{
    match op {
        Op::Add => AddOp::unit(),
        Op::Mul => MulOp::unit(),
        Op::Min => MinOp::unit(),
        Op::Max => MaxOp::unit(),
        Op::Affine => AffineOp::unit(),
    }
}
