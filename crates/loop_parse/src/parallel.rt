// The carry list and the reduce list of a parallel loop.

ghost use Rattle.std.specs.Prelude.{◌≡◌, ℕ, ◌+◌, ◌<◌, ◌≤◌, length, IfOk, OnOk, [], ◌∷◌, ◌++◌, map};
ghost use Rattle.std.specs.Prelude.{suc, Some, None};
ghost use Rattle.loop_syntax.specs.Tree.{spelled, tree_of, row_of, carry_of, reduce_of};
ghost use Rattle.loop_parse.specs.Terms.{saw, seen};
ghost use Rattle.loop_parse.specs.Reading.{Gives, after_comma, with_front, begins_with, row};
ghost use Rattle.loop_parse.specs.Reading.{column, carry_rest_of, carry_item, reducer_of, reducer};
ghost use Rattle.loop_parse.specs.Reading.{reduce_item, more_carries, more_reduces, carry_list};
ghost use Rattle.loop_parse.specs.Reading.{reduce_list, within};

use crate::reader::{Unparsed, begins_with, expect, name, name_of, next};
use crate::terminal::{Fixed, Lexeme, Terminal};
use loop_syntax::{Carry, Name, Reduce, RowAt};
use std::alloc::{AllocError, Global};
use tp_value::{Op, Place};

/// The carry list with its place, which is that of `par` where there is none.
#[tactic(auto, unfolding(crate::specs::Reading::carry_list))]
pub(crate) fn carry_list<'a>(
    alloc: Global,
    source: &[u8],
    place: Place,
    tokens: &'a [Lexeme],
) -> Result<((Place, Vec<Carry>), &'a [Lexeme]), Unparsed<'a>>
    ensures reads { (n : ℕ) → length (seen source.now tokens.now) ≤ n →
        Gives source.now (λ x. ((x.0.0, map carry_of x.0.1.items), seen source.now x.1.now)) result
        (carry_list n place (seen source.now tokens.now)) }
    ensures no_longer { IfOk result (λ x.
        length (seen source.now x.1.now) ≤ length (seen source.now tokens.now)) }
{
    let mut list = Vec::new(alloc);
    if !begins_with(source, tokens, Fixed::Carry) {
        return Ok(((place, list), tokens));
    }
    let (at, rest) = expect(source, tokens, Fixed::Carry)?;
    let (first, rest) = carry_item(alloc, source, rest)?;
    push_carry(&mut list, first)?;
    let (all, rest) = more_carries(alloc, source, list, rest)?;
    Ok(((at, all), rest))
}

/// Further carry items, each after a comma, behind those that are there.
#[tactic(auto, using(crate::proofs::Many::many_steps), unfolding(crate::specs::Reading::more_carries))]
fn more_carries<'a>(
    alloc: Global,
    source: &[u8],
    given: Vec<Carry>,
    tokens: &'a [Lexeme],
) -> Result<(Vec<Carry>, &'a [Lexeme]), Unparsed<'a>>
    ensures reads { (n : ℕ) → length (seen source.now tokens.now) ≤ n →
        Gives source.now (λ x. (map carry_of x.0.items, seen source.now x.1.now)) result
        (with_front (map carry_of given.items) (more_carries n (seen source.now tokens.now))) }
    ensures no_longer { IfOk result (λ x.
        length (seen source.now x.1.now) ≤ length (seen source.now tokens.now)) }
{
    let mut list = given;
    let mut rest = tokens;
    while begins_with(source, rest, Fixed::Comma) {
        let (found, after) = next_carry(alloc, source, rest)?;
        push_carry(&mut list, found)?;
        rest = after;
    }
    Ok((list, rest))
}

/// A comma and a carry item.
fn next_carry<'a>(
    alloc: Global,
    source: &[u8],
    tokens: &'a [Lexeme],
) -> Result<(Carry, &'a [Lexeme]), Unparsed<'a>>
    ensures reads { Gives source.now (λ x. (carry_of x.0, seen source.now x.1.now)) result
        (after_comma (carry_item) (seen source.now tokens.now)) }
    ensures shorter { IfOk result (λ x.
        length (seen source.now x.1.now) < length (seen source.now tokens.now)) }
{
    let (_comma, rest) = expect(source, tokens, Fixed::Comma)?;
    carry_item(alloc, source, rest)
}

fn push_carry(list: &mut Vec<Carry>, found: Carry) -> Result<(), AllocError>
    ensures { OnOk result (list.new.items ≡ list.old.items ++ found ∷ []) }
{
    list.push(found)?;
    Ok(())
}

/// A carry item.
#[tactic(auto, unfolding(crate::specs::Reading::carry_item))]
fn carry_item<'a>(
    alloc: Global,
    source: &[u8],
    tokens: &'a [Lexeme],
) -> Result<(Carry, &'a [Lexeme]), Unparsed<'a>>
    ensures reads { Gives source.now (λ x. (carry_of x.0, seen source.now x.1.now)) result
        (carry_item (seen source.now tokens.now)) }
    ensures shorter { IfOk result (λ x.
        length (seen source.now x.1.now) < length (seen source.now tokens.now)) }
{
    let (table, rest) = name(alloc, source, tokens)?;
    let (_opensquare, rest) = expect(source, rest, Fixed::OpenSquare)?;
    let (row, rest) = row(alloc, source, rest)?;
    let (_closesquare, rest) = expect(source, rest, Fixed::CloseSquare)?;
    carry_rest(alloc, source, table, row, rest)
}

/// The row of a carry item.
#[tactic(auto, unfolding(crate::specs::Reading::row))]
fn row<'a>(
    alloc: Global,
    source: &[u8],
    tokens: &'a [Lexeme],
) -> Result<(RowAt, &'a [Lexeme]), Unparsed<'a>>
    ensures reads { Gives source.now (λ x. (row_of x.0, seen source.now x.1.now)) result
        (row (seen source.now tokens.now)) }
    ensures shorter { IfOk result (λ x.
        length (seen source.now x.1.now) < length (seen source.now tokens.now)) }
{
    let Some((first, after)) = next(source, tokens) else {
        return Err(Unparsed::Form(tokens));
    };
    match first.terminal {
        Terminal::Literal(value) => Ok((RowAt::Int(value), after)),
        Terminal::Name => Ok((RowAt::Var(name_of(alloc, source, first)?), after)),
        Terminal::Fixed(_) => Err(Unparsed::Form(tokens)),
    }
}

/// What stands after the first index of a carry item.
fn carry_rest<'a>(
    alloc: Global,
    source: &[u8],
    table: Name,
    row: RowAt,
    tokens: &'a [Lexeme],
) -> Result<(Carry, &'a [Lexeme]), Unparsed<'a>>
    ensures reads { Gives source.now (λ x. (carry_of x.0, seen source.now x.1.now)) result
        (carry_rest_of (spelled table) (row_of row) (seen source.now tokens.now)) }
    ensures no_longer { IfOk result (λ x.
        length (seen source.now x.1.now) ≤ length (seen source.now tokens.now)) }
{
    match row {
        RowAt::Var(var) => {
            if begins_with(source, tokens, Fixed::OpenSquare) {
                column(alloc, source, table, RowAt::Var(var), tokens)
            } else {
                Ok((Carry::Rows(table, var), tokens))
            }
        }
        RowAt::Int(value) => column(alloc, source, table, RowAt::Int(value), tokens),
    }
}

/// The last index of a carry item of cells.
#[tactic(auto, unfolding(crate::specs::Reading::column))]
fn column<'a>(
    alloc: Global,
    source: &[u8],
    table: Name,
    row: RowAt,
    tokens: &'a [Lexeme],
) -> Result<(Carry, &'a [Lexeme]), Unparsed<'a>>
    ensures reads { Gives source.now (λ x. (carry_of x.0, seen source.now x.1.now)) result
        (column (spelled table) (row_of row) (seen source.now tokens.now)) }
    ensures shorter { IfOk result (λ x.
        length (seen source.now x.1.now) < length (seen source.now tokens.now)) }
{
    let (_opensquare, rest) = expect(source, tokens, Fixed::OpenSquare)?;
    let (var, rest) = name(alloc, source, rest)?;
    let (_closesquare, rest) = expect(source, rest, Fixed::CloseSquare)?;
    Ok((Carry::Cells(table, row, var), rest))
}

/// The reduce list.
#[tactic(auto, unfolding(crate::specs::Reading::reduce_list))]
pub(crate) fn reduce_list<'a>(
    alloc: Global,
    source: &[u8],
    tokens: &'a [Lexeme],
) -> Result<(Vec<Reduce>, &'a [Lexeme]), Unparsed<'a>>
    ensures reads { (n : ℕ) → length (seen source.now tokens.now) ≤ n →
        Gives source.now (λ x. (map reduce_of x.0.items, seen source.now x.1.now)) result
        (reduce_list n (seen source.now tokens.now)) }
    ensures no_longer { IfOk result (λ x.
        length (seen source.now x.1.now) ≤ length (seen source.now tokens.now)) }
{
    let mut list = Vec::new(alloc);
    if !begins_with(source, tokens, Fixed::Reduce) {
        return Ok((list, tokens));
    }
    let (_reduce, rest) = expect(source, tokens, Fixed::Reduce)?;
    let (first, rest) = reduce_item(alloc, source, rest)?;
    push_reduce(&mut list, first)?;
    more_reduces(alloc, source, list, rest)
}

/// Further reduced variables, each after a comma, behind those that are there.
#[tactic(auto, using(crate::proofs::Many::many_steps), unfolding(crate::specs::Reading::more_reduces))]
fn more_reduces<'a>(
    alloc: Global,
    source: &[u8],
    given: Vec<Reduce>,
    tokens: &'a [Lexeme],
) -> Result<(Vec<Reduce>, &'a [Lexeme]), Unparsed<'a>>
    ensures reads { (n : ℕ) → length (seen source.now tokens.now) ≤ n →
        Gives source.now (λ x. (map reduce_of x.0.items, seen source.now x.1.now)) result
        (with_front (map reduce_of given.items) (more_reduces n (seen source.now tokens.now))) }
    ensures no_longer { IfOk result (λ x.
        length (seen source.now x.1.now) ≤ length (seen source.now tokens.now)) }
{
    let mut list = given;
    let mut rest = tokens;
    while begins_with(source, rest, Fixed::Comma) {
        let (found, after) = next_reduce(alloc, source, rest)?;
        push_reduce(&mut list, found)?;
        rest = after;
    }
    Ok((list, rest))
}

/// A comma and a reduced variable.
fn next_reduce<'a>(
    alloc: Global,
    source: &[u8],
    tokens: &'a [Lexeme],
) -> Result<(Reduce, &'a [Lexeme]), Unparsed<'a>>
    ensures reads { Gives source.now (λ x. (reduce_of x.0, seen source.now x.1.now)) result
        (after_comma (reduce_item) (seen source.now tokens.now)) }
    ensures shorter { IfOk result (λ x.
        length (seen source.now x.1.now) < length (seen source.now tokens.now)) }
{
    let (_comma, rest) = expect(source, tokens, Fixed::Comma)?;
    reduce_item(alloc, source, rest)
}

fn push_reduce(list: &mut Vec<Reduce>, found: Reduce) -> Result<(), AllocError>
    ensures { OnOk result (list.new.items ≡ list.old.items ++ found ∷ []) }
{
    list.push(found)?;
    Ok(())
}

/// A reduced variable with its operator.
#[tactic(auto, unfolding(crate::specs::Reading::reduce_item))]
fn reduce_item<'a>(
    alloc: Global,
    source: &[u8],
    tokens: &'a [Lexeme],
) -> Result<(Reduce, &'a [Lexeme]), Unparsed<'a>>
    ensures reads { Gives source.now (λ x. (reduce_of x.0, seen source.now x.1.now)) result
        (reduce_item (seen source.now tokens.now)) }
    ensures shorter { IfOk result (λ x.
        length (seen source.now x.1.now) < length (seen source.now tokens.now)) }
{
    let (target, rest) = name(alloc, source, tokens)?;
    let (_by, rest) = expect(source, rest, Fixed::By)?;
    let (op, rest) = reducer(source, rest)?;
    Ok((Reduce { target, op }, rest))
}

/// The name of an operator.
#[tactic(auto, unfolding(crate::specs::Reading::reducer))]
fn reducer<'a>(source: &[u8], tokens: &'a [Lexeme]) -> Result<(Op, &'a [Lexeme]), Unparsed<'a>>
    ensures reads { Gives source.now (λ x. (x.0, seen source.now x.1.now)) result
        (reducer (seen source.now tokens.now)) }
    ensures shorter { IfOk result (λ x.
        length (seen source.now x.1.now) < length (seen source.now tokens.now)) }
{
    let Some((first, after)) = next(source, tokens) else {
        return Err(Unparsed::Form(tokens));
    };
    match op_named(source, first) {
        Some(op) => Ok((op, after)),
        None => Err(Unparsed::Form(tokens)),
    }
}

/// The operator of this name.
fn op_named(source: &[u8], token: Lexeme) -> Option<Op>
    ensures { result ≡ reducer_of (saw source.now token).kind }
{
    match token.terminal {
        Terminal::Fixed(Fixed::Add) => Some(Op::Add),
        Terminal::Fixed(Fixed::Mul) => Some(Op::Mul),
        Terminal::Fixed(Fixed::Min) => Some(Op::Min),
        Terminal::Fixed(Fixed::Max) => Some(Op::Max),
        Terminal::Fixed(Fixed::Affine) => Some(Op::Affine),
        _ => None,
    }
}
