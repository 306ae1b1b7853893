// Statements without blocks.

ghost use Rattle.std.specs.Prelude.{◌≡◌, ℕ, ◌+◌, ◌<◌, ◌≤◌, length, IfOk, OnOk, [], ◌∷◌, ◌++◌, map};
ghost use Rattle.std.specs.Prelude.{suc, Some, None};
ghost use Rattle.loop_syntax.specs.Tree.{spelled, tree_of, app_of, node_of, NSet, NPut};
ghost use Rattle.loop_parse.specs.Terms.{saw, seen};
ghost use Rattle.loop_parse.specs.Reading.{Gives, let_rest, set_rest, put_rest, assign_rest};
ghost use Rattle.loop_parse.specs.Reading.{fold_rest, call_rest, both_rest, print_rest, emit_rest};
ghost use Rattle.loop_parse.specs.Reading.{leave_rest, within};

use crate::expression::outer;
use crate::lists::app;
use crate::reader::{Unparsed, expect, name, next};
use crate::terminal::{Fixed, Lexeme, Terminal};
use loop_syntax::{Name, Stmt};
use std::alloc::Global;
use tp_value::Place;

/// What stands after `let`.
#[tactic(auto, unfolding(crate::specs::Reading::let_rest))]
pub(crate) fn let_rest<'a>(
    alloc: Global,
    source: &[u8],
    tokens: &'a [Lexeme],
) -> Result<(Stmt, &'a [Lexeme]), Unparsed<'a>>
    ensures reads { (n : ℕ) → length (seen source.now tokens.now) ≤ n →
        Gives source.now (λ x. (node_of x.0, seen source.now x.1.now)) result
        (let_rest within n (seen source.now tokens.now)) }
    ensures shorter { IfOk result (λ x.
        length (seen source.now x.1.now) < length (seen source.now tokens.now)) }
{
    let (target, rest) = name(alloc, source, tokens)?;
    let (_assign, rest) = expect(source, rest, Fixed::Assign)?;
    let (value, rest) = outer(alloc, source, rest)?;
    let (_semi, rest) = expect(source, rest, Fixed::Semi)?;
    Ok((Stmt::Let(target, value), rest))
}

/// What stands after a name that begins a statement.
#[tactic(auto, unfolding(crate::specs::Reading::assign_rest))]
pub(crate) fn assign_rest<'a>(
    alloc: Global,
    source: &[u8],
    target: Name,
    tokens: &'a [Lexeme],
) -> Result<(Stmt, &'a [Lexeme]), Unparsed<'a>>
    ensures reads { (n : ℕ) → length (seen source.now tokens.now) ≤ n →
        Gives source.now (λ x. (node_of x.0, seen source.now x.1.now)) result
        (assign_rest within n (spelled target) (seen source.now tokens.now)) }
    ensures shorter { IfOk result (λ x.
        length (seen source.now x.1.now) < length (seen source.now tokens.now)) }
{
    let Some((first, after)) = next(source, tokens) else {
        return Err(Unparsed::Form(tokens));
    };
    match first.terminal {
        Terminal::Fixed(Fixed::Assign) => set_rest(alloc, source, target, after),
        Terminal::Fixed(Fixed::OpenSquare) => put_rest(alloc, source, target, after),
        _ => Err(Unparsed::Form(tokens)),
    }
}

/// The new value of a variable.
#[tactic(auto, unfolding(crate::specs::Reading::set_rest))]
fn set_rest<'a>(
    alloc: Global,
    source: &[u8],
    target: Name,
    tokens: &'a [Lexeme],
) -> Result<(Stmt, &'a [Lexeme]), Unparsed<'a>>
    ensures reads { (n : ℕ) → length (seen source.now tokens.now) ≤ n →
        Gives source.now (λ x. (node_of x.0, seen source.now x.1.now)) result
        (set_rest within n (spelled target) (seen source.now tokens.now)) }
    ensures shorter { IfOk result (λ x.
        length (seen source.now x.1.now) < length (seen source.now tokens.now)) }
{
    let (value, rest) = outer(alloc, source, tokens)?;
    let (_semi, rest) = expect(source, rest, Fixed::Semi)?;
    Ok((Stmt::Set(target, value), rest))
}

/// The indexes of a cell and its new value.
#[tactic(auto, unfolding(crate::specs::Reading::put_rest))]
fn put_rest<'a>(
    alloc: Global,
    source: &[u8],
    table: Name,
    tokens: &'a [Lexeme],
) -> Result<(Stmt, &'a [Lexeme]), Unparsed<'a>>
    ensures reads { (n : ℕ) → length (seen source.now tokens.now) ≤ n →
        Gives source.now (λ x. (node_of x.0, seen source.now x.1.now)) result
        (put_rest within n (spelled table) (seen source.now tokens.now)) }
    ensures shorter { IfOk result (λ x.
        length (seen source.now x.1.now) < length (seen source.now tokens.now)) }
{
    let (row, rest) = outer(alloc, source, tokens)?;
    let (_closesquare, rest) = expect(source, rest, Fixed::CloseSquare)?;
    let (_opensquare, rest) = expect(source, rest, Fixed::OpenSquare)?;
    let (col, rest) = outer(alloc, source, rest)?;
    let (_closesquare, rest) = expect(source, rest, Fixed::CloseSquare)?;
    let (_assign, rest) = expect(source, rest, Fixed::Assign)?;
    let (value, rest) = outer(alloc, source, rest)?;
    let (_semi, rest) = expect(source, rest, Fixed::Semi)?;
    Ok((Stmt::Put(table, row, col, value), rest))
}

/// What stands after `fold`.
#[tactic(auto, unfolding(crate::specs::Reading::fold_rest))]
pub(crate) fn fold_rest<'a>(
    alloc: Global,
    source: &[u8],
    tokens: &'a [Lexeme],
) -> Result<(Stmt, &'a [Lexeme]), Unparsed<'a>>
    ensures reads { (n : ℕ) → length (seen source.now tokens.now) ≤ n →
        Gives source.now (λ x. (node_of x.0, seen source.now x.1.now)) result
        (fold_rest within n (seen source.now tokens.now)) }
    ensures shorter { IfOk result (λ x.
        length (seen source.now x.1.now) < length (seen source.now tokens.now)) }
{
    let (target, rest) = name(alloc, source, tokens)?;
    let (_with, rest) = expect(source, rest, Fixed::With)?;
    let (value, rest) = outer(alloc, source, rest)?;
    let (_semi, rest) = expect(source, rest, Fixed::Semi)?;
    Ok((Stmt::Fold(target, value), rest))
}

/// What stands after `call`.
#[tactic(auto, unfolding(crate::specs::Reading::call_rest))]
pub(crate) fn call_rest<'a>(
    alloc: Global,
    source: &[u8],
    tokens: &'a [Lexeme],
) -> Result<(Stmt, &'a [Lexeme]), Unparsed<'a>>
    ensures reads { (n : ℕ) → length (seen source.now tokens.now) ≤ n →
        Gives source.now (λ x. (node_of x.0, seen source.now x.1.now)) result
        (call_rest within n (seen source.now tokens.now)) }
    ensures shorter { IfOk result (λ x.
        length (seen source.now x.1.now) < length (seen source.now tokens.now)) }
{
    let (target, rest) = name(alloc, source, tokens)?;
    let (_assign, rest) = expect(source, rest, Fixed::Assign)?;
    let (called, rest) = app(alloc, source, rest)?;
    let (_semi, rest) = expect(source, rest, Fixed::Semi)?;
    Ok((Stmt::Call(target, called), rest))
}

/// What stands after `both`.
#[tactic(auto, unfolding(crate::specs::Reading::both_rest))]
pub(crate) fn both_rest<'a>(
    alloc: Global,
    source: &[u8],
    tokens: &'a [Lexeme],
) -> Result<(Stmt, &'a [Lexeme]), Unparsed<'a>>
    ensures reads { (n : ℕ) → length (seen source.now tokens.now) ≤ n →
        Gives source.now (λ x. (node_of x.0, seen source.now x.1.now)) result
        (both_rest within n (seen source.now tokens.now)) }
    ensures shorter { IfOk result (λ x.
        length (seen source.now x.1.now) < length (seen source.now tokens.now)) }
{
    let (first, rest) = name(alloc, source, tokens)?;
    let (_assign, rest) = expect(source, rest, Fixed::Assign)?;
    let (left, rest) = app(alloc, source, rest)?;
    let (_comma, rest) = expect(source, rest, Fixed::Comma)?;
    let (second, rest) = name(alloc, source, rest)?;
    let (_assign, rest) = expect(source, rest, Fixed::Assign)?;
    let (right, rest) = app(alloc, source, rest)?;
    let (_semi, rest) = expect(source, rest, Fixed::Semi)?;
    Ok((Stmt::Both(first, left, second, right), rest))
}

/// What stands after `print`.
#[tactic(auto, unfolding(crate::specs::Reading::print_rest))]
pub(crate) fn print_rest<'a>(
    alloc: Global,
    source: &[u8],
    place: Place,
    tokens: &'a [Lexeme],
) -> Result<(Stmt, &'a [Lexeme]), Unparsed<'a>>
    ensures reads { (n : ℕ) → length (seen source.now tokens.now) ≤ n →
        Gives source.now (λ x. (node_of x.0, seen source.now x.1.now)) result
        (print_rest within n place (seen source.now tokens.now)) }
    ensures shorter { IfOk result (λ x.
        length (seen source.now x.1.now) < length (seen source.now tokens.now)) }
{
    let (value, rest) = outer(alloc, source, tokens)?;
    let (_semi, rest) = expect(source, rest, Fixed::Semi)?;
    Ok((Stmt::Print(place, value), rest))
}

/// What stands after `emit`.
#[tactic(auto, unfolding(crate::specs::Reading::emit_rest))]
pub(crate) fn emit_rest<'a>(
    alloc: Global,
    source: &[u8],
    place: Place,
    tokens: &'a [Lexeme],
) -> Result<(Stmt, &'a [Lexeme]), Unparsed<'a>>
    ensures reads { Gives source.now (λ x. (node_of x.0, seen source.now x.1.now)) result
        (emit_rest place (seen source.now tokens.now)) }
    ensures shorter { IfOk result (λ x.
        length (seen source.now x.1.now) < length (seen source.now tokens.now)) }
{
    let (table, rest) = name(alloc, source, tokens)?;
    let (_semi, rest) = expect(source, rest, Fixed::Semi)?;
    Ok((Stmt::Emit(place, table), rest))
}

/// What stands after `leave`.
#[tactic(auto, unfolding(crate::specs::Reading::leave_rest))]
pub(crate) fn leave_rest<'a>(
    alloc: Global,
    source: &[u8],
    tokens: &'a [Lexeme],
) -> Result<(Stmt, &'a [Lexeme]), Unparsed<'a>>
    ensures reads { (n : ℕ) → length (seen source.now tokens.now) ≤ n →
        Gives source.now (λ x. (node_of x.0, seen source.now x.1.now)) result
        (leave_rest within n (seen source.now tokens.now)) }
    ensures shorter { IfOk result (λ x.
        length (seen source.now x.1.now) < length (seen source.now tokens.now)) }
{
    let (target, rest) = name(alloc, source, tokens)?;
    let (_assign, rest) = expect(source, rest, Fixed::Assign)?;
    let (value, rest) = outer(alloc, source, rest)?;
    let (_semi, rest) = expect(source, rest, Fixed::Semi)?;
    Ok((Stmt::Leave(target, value), rest))
}
