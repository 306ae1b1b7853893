// Lists with commas between their items, and functions with their arguments.

ghost use Rattle.std.specs.Prelude.{◌≡◌, ℕ, ◌+◌, ◌<◌, ◌≤◌, length, IfOk, OnOk, [], ◌∷◌, ◌++◌, map};
ghost use Rattle.std.specs.Prelude.{suc, Some, None};
ghost use Rattle.loop_syntax.specs.Tree.{spelled, tree_of, app_of};
ghost use Rattle.loop_parse.specs.Terms.{saw, seen};
ghost use Rattle.loop_parse.specs.Reading.{Gives, after_comma, with_front, name, more_names};
ghost use Rattle.loop_parse.specs.Reading.{params, more_args, args, app, outer, within};

use crate::expression::outer;
use crate::reader::{Unparsed, begins_with, expect, name};
use crate::terminal::{Fixed, Lexeme};
use loop_syntax::{App, Expr, Name};
use std::alloc::{AllocError, Global};

/// Parameters, up to the closing bracket.
#[tactic(auto, unfolding(crate::specs::Reading::params))]
pub(crate) fn params<'a>(
    alloc: Global,
    source: &[u8],
    tokens: &'a [Lexeme],
) -> Result<(Vec<Name>, &'a [Lexeme]), Unparsed<'a>>
    ensures reads { (n : ℕ) → length (seen source.now tokens.now) ≤ n →
        Gives source.now (λ x. (map spelled x.0.items, seen source.now x.1.now)) result
        (params n (seen source.now tokens.now)) }
    ensures no_longer { IfOk result (λ x.
        length (seen source.now x.1.now) ≤ length (seen source.now tokens.now)) }
{
    let mut list = Vec::new(alloc);
    if begins_with(source, tokens, Fixed::CloseRound) {
        return Ok((list, tokens));
    }
    let (first, rest) = name(alloc, source, tokens)?;
    push_name(&mut list, first)?;
    more_names(alloc, source, list, rest)
}

/// Further names, each after a comma, behind those that are there.
#[tactic(auto, using(crate::proofs::Many::many_steps), unfolding(crate::specs::Reading::more_names))]
fn more_names<'a>(
    alloc: Global,
    source: &[u8],
    given: Vec<Name>,
    tokens: &'a [Lexeme],
) -> Result<(Vec<Name>, &'a [Lexeme]), Unparsed<'a>>
    ensures reads { (n : ℕ) → length (seen source.now tokens.now) ≤ n →
        Gives source.now (λ x. (map spelled x.0.items, seen source.now x.1.now)) result
        (with_front (map spelled given.items) (more_names n (seen source.now tokens.now))) }
    ensures no_longer { IfOk result (λ x.
        length (seen source.now x.1.now) ≤ length (seen source.now tokens.now)) }
{
    let mut list = given;
    let mut rest = tokens;
    while begins_with(source, rest, Fixed::Comma) {
        let (found, after) = next_name(alloc, source, rest)?;
        push_name(&mut list, found)?;
        rest = after;
    }
    Ok((list, rest))
}

/// A comma and a name.
fn next_name<'a>(
    alloc: Global,
    source: &[u8],
    tokens: &'a [Lexeme],
) -> Result<(Name, &'a [Lexeme]), Unparsed<'a>>
    ensures reads { Gives source.now (λ x. (spelled x.0, seen source.now x.1.now)) result
        (after_comma (name) (seen source.now tokens.now)) }
    ensures shorter { IfOk result (λ x.
        length (seen source.now x.1.now) < length (seen source.now tokens.now)) }
{
    let (_comma, rest) = expect(source, tokens, Fixed::Comma)?;
    name(alloc, source, rest)
}

fn push_name(list: &mut Vec<Name>, found: Name) -> Result<(), AllocError>
    ensures { OnOk result (list.new.items ≡ list.old.items ++ found ∷ []) }
{
    list.push(found)?;
    Ok(())
}

/// A function with its arguments.
#[tactic(auto, unfolding(crate::specs::Reading::app))]
pub(crate) fn app<'a>(
    alloc: Global,
    source: &[u8],
    tokens: &'a [Lexeme],
) -> Result<(App, &'a [Lexeme]), Unparsed<'a>>
    ensures reads { (n : ℕ) → length (seen source.now tokens.now) ≤ n →
        Gives source.now (λ x. (app_of x.0, seen source.now x.1.now)) result
        (app within n (seen source.now tokens.now)) }
    ensures shorter { IfOk result (λ x.
        length (seen source.now x.1.now) < length (seen source.now tokens.now)) }
{
    let (callee, rest) = name(alloc, source, tokens)?;
    let (_open, rest) = expect(source, rest, Fixed::OpenRound)?;
    let (args, rest) = args(alloc, source, rest)?;
    let (_close, rest) = expect(source, rest, Fixed::CloseRound)?;
    Ok((App { callee, args }, rest))
}

/// Arguments, up to the closing bracket.
#[tactic(auto, unfolding(crate::specs::Reading::args))]
fn args<'a>(
    alloc: Global,
    source: &[u8],
    tokens: &'a [Lexeme],
) -> Result<(Vec<Expr>, &'a [Lexeme]), Unparsed<'a>>
    ensures reads { (n : ℕ) → length (seen source.now tokens.now) ≤ n →
        Gives source.now (λ x. (map tree_of x.0.items, seen source.now x.1.now)) result
        (args within n (seen source.now tokens.now)) }
    ensures no_longer { IfOk result (λ x.
        length (seen source.now x.1.now) ≤ length (seen source.now tokens.now)) }
{
    let mut list = Vec::new(alloc);
    if begins_with(source, tokens, Fixed::CloseRound) {
        return Ok((list, tokens));
    }
    let (first, rest) = outer(alloc, source, tokens)?;
    push_argument(&mut list, first)?;
    more_args(alloc, source, list, rest)
}

/// Further arguments, each after a comma, behind those that are there.
#[tactic(auto, using(crate::proofs::Many::many_steps), unfolding(crate::specs::Reading::more_args))]
fn more_args<'a>(
    alloc: Global,
    source: &[u8],
    given: Vec<Expr>,
    tokens: &'a [Lexeme],
) -> Result<(Vec<Expr>, &'a [Lexeme]), Unparsed<'a>>
    ensures reads { (n : ℕ) → length (seen source.now tokens.now) ≤ n →
        Gives source.now (λ x. (map tree_of x.0.items, seen source.now x.1.now)) result
        (with_front (map tree_of given.items) (more_args within n (seen source.now tokens.now))) }
    ensures no_longer { IfOk result (λ x.
        length (seen source.now x.1.now) ≤ length (seen source.now tokens.now)) }
{
    let mut list = given;
    let mut rest = tokens;
    while begins_with(source, rest, Fixed::Comma) {
        let (found, after) = next_argument(alloc, source, rest)?;
        push_argument(&mut list, found)?;
        rest = after;
    }
    Ok((list, rest))
}

/// A comma and an argument.
fn next_argument<'a>(
    alloc: Global,
    source: &[u8],
    tokens: &'a [Lexeme],
) -> Result<(Expr, &'a [Lexeme]), Unparsed<'a>>
    ensures reads { (n : ℕ) → length (seen source.now tokens.now) ≤ n →
        Gives source.now (λ x. (tree_of x.0, seen source.now x.1.now)) result
        (after_comma (outer n) (seen source.now tokens.now)) }
    ensures shorter { IfOk result (λ x.
        length (seen source.now x.1.now) < length (seen source.now tokens.now)) }
{
    let (_comma, rest) = expect(source, tokens, Fixed::Comma)?;
    outer(alloc, source, rest)
}

fn push_argument(list: &mut Vec<Expr>, found: Expr) -> Result<(), AllocError>
    ensures { OnOk result (list.new.items ≡ list.old.items ++ found ∷ []) }
{
    list.push(found)?;
    Ok(())
}
