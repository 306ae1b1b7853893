// The `par` loops round a place.

ghost use Rattle.std.specs.Prelude.{◌≡◌, map};
ghost use Rattle.loop_rules.specs.Reductions.{any_loop};
ghost use Rattle.loop_check.specs.Walk.{loop_of, rounds_of, holds, nearest_holds};

use crate::names::{is_in, is_op, item_of};
use loop_syntax::{ParLoop, Reduce, operator_of};

/// A `par`, with the variables that are declared outside its body.
#[derive(Clone, Copy)]
pub struct Round<'a> {
    /// Those variables, in the order of their declarations.
    pub outside: &'a [&'a [u8]],
    /// The loop.
    pub par: &'a ParLoop,
}

/// What is asked of a `par`.
#[derive(Clone, Copy)]
pub enum Test<'a> {
    /// Does it reduce that variable?
    Reduces(&'a [u8]),
    /// Is that variable declared outside its body?
    Outside(&'a [u8]),
    /// Does it carry that table?
    Carries(&'a [u8]),
    /// Does it leave that table out of its carry list?
    Lacks(&'a [u8]),
    /// Does it reduce the target with another operator?
    OtherOperator(&'a Reduce),
    /// Is the target declared outside its body, and not reduced by it with that operator?
    ReducedOtherwise(&'a Reduce),
}

/// The answer of one `par`.
pub fn holds(round: &Round, test: &Test) -> bool
    ensures { result ≡ holds test.now (loop_of round.now) }
{
    match test {
        Test::Reduces(x) => operator_of(&round.par.reduces, x).is_some(),
        Test::Outside(x) => is_in(round.outside, x),
        Test::Carries(t) => item_of(&round.par.carries, t).is_some(),
        Test::Lacks(t) => item_of(&round.par.carries, t).is_none(),
        Test::OtherOperator(q) => {
            let o = operator_of(&round.par.reduces, &q.target.text);
            o.is_some() && !is_op(q.op, o)
        }
        Test::ReducedOtherwise(q) => {
            is_in(round.outside, &q.target.text)
                && !is_op(q.op, operator_of(&round.par.reduces, &q.target.text))
        }
    }
}

/// Whether one of the loops answers yes.
pub fn any_round(rounds: &[Round], test: &Test) -> bool
    ensures { result ≡ any_loop (holds test.now) (rounds_of rounds.now) }
{
    for round in rounds {
        if holds(round, test) {
            return true;
        }
    }
    false
}

/// Whether the nearest one, the first, answers yes.
pub fn nearest(rounds: &[Round], test: &Test) -> bool
    ensures { result ≡ nearest_holds test.now (rounds_of rounds.now) }
{
    match rounds.first() {
        Some(round) => holds(round, test),
        None => false,
    }
}
