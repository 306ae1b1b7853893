// Iterations that are left, and what their `par` makes of it.

ghost use Rattle.std.specs.Prelude.{◌≡◌, [], MatchOption, None, Some};
ghost use Rattle.loop_meaning.specs.Leaving.{left_of, left_list, caught};
ghost use Rattle.loop_meaning.specs.Statements.{given};
ghost use Rattle.loop_meaning.specs.State.{Ran, left_with};
ghost use Rattle.loop_meaning.specs.Ends.{state_of, Ends};

use crate::expression::value_of;
use crate::memory::{Memory, assign};
use crate::value::Answer;
use loop_syntax::{Expr, Name, Stmt};
use tp_value::Stop;

/// `leave x = e;`
pub fn run_leave(memory: &Memory, value: &Expr) -> Stop
    ensures { let s = state_of memory.now in
        Ends (given value.now s (λ n. left_with n s)) result s }
{
    match value_of(memory, value) {
        Answer::Number(n) => Stop::Left(n),
        Answer::Traps(kind, place) => Stop::Trap(kind, place),
    }
}

#[cycle(targets)]
fn left_of(statement: &Stmt) -> Option<&Name>
    ensures { MatchOption result (left_of statement.now ≡ None)
        (λ x. left_of statement.now ≡ Some x.now.text.items) }
{
    match statement {
        Stmt::Leave(x, _) => Some(x),
        Stmt::If(_, body, other) => match left_list(body) {
            Some(x) => Some(x),
            None => left_list(other),
        },
        Stmt::While(_, body) => left_list(body),
        Stmt::Loop(_, _, _, body) => left_list(body),
        _ => None,
    }
}

/// The variable that a `par` with this body sets where one of its iterations is left.
#[cycle(targets)]
fn left_list(body: &[Stmt]) -> Option<&Name>
    ensures { MatchOption result (left_list body.now ≡ None)
        (λ x. left_list body.now ≡ Some x.now.text.items) }
{
    for s in body {
        match left_of(s) {
            Some(x) => return Some(x),
            None => {}
        }
    }
    None
}

/// The end of a `par` with this body, whose iterations ended with that stop.
pub fn caught(memory: &mut Memory, stop: Stop, body: &[Stmt]) -> Stop
    ensures { let r : Ran = record { stop = stop; state = state_of memory.old; notes = [] } in
        Ends (caught (left_list body.now) r) result (state_of memory.new) }
{
    match stop {
        Stop::Left(n) => {
            match left_list(body) {
                Some(x) => assign(memory, x.text.as_slice(), n),
                None => {}
            }
            Stop::Done
        }
        stop => stop,
    }
}
