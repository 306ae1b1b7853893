// Operators on numbers.

ghost use Rattle.std.specs.Prelude.{◌≡◌, int_div, int_rem};
ghost use Rattle.loop_meaning.specs.Expressions.{calculated, divided};

use crate::value::Answer;
use loop_syntax::BinOp;
use tp_value::{Place, TrapKind, add, div, eq, le, lt, mul, ne, rem, sub};

fn quotient(place: Place, a: i64, b: i64) -> Answer
    ensures { result ≡ (divided int_div place a b).answer }
{
    match div(a, b) {
        Some(n) => Answer::Number(n),
        None => Answer::Traps(TrapKind::Divide, place),
    }
}

fn remainder(place: Place, a: i64, b: i64) -> Answer
    ensures { result ≡ (divided int_rem place a b).answer }
{
    match rem(a, b) {
        Some(n) => Answer::Number(n),
        None => Answer::Traps(TrapKind::Divide, place),
    }
}

/// The number of an operator with two operands, or its trap at that place.
pub fn calculate(op: BinOp, place: Place, a: i64, b: i64) -> Answer
    ensures { result ≡ (calculated op place a b).answer }
{
    match op {
        BinOp::Add => Answer::Number(add(a, b)),
        BinOp::Sub => Answer::Number(sub(a, b)),
        BinOp::Mul => Answer::Number(mul(a, b)),
        BinOp::Div => quotient(place, a, b),
        BinOp::Rem => remainder(place, a, b),
        BinOp::Eq => Answer::Number(eq(a, b)),
        BinOp::Ne => Answer::Number(ne(a, b)),
        BinOp::Lt => Answer::Number(lt(a, b)),
        BinOp::Le => Answer::Number(le(a, b)),
        BinOp::Gt => Answer::Number(lt(b, a)),
        BinOp::Ge => Answer::Number(le(b, a)),
    }
}
