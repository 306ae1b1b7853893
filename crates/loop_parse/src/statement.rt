// Statements and blocks. A level is the number of blocks round a form.

ghost use Rattle.std.specs.Prelude.{◌≡◌, ℕ, ◌+◌, ◌<◌, ◌≤◌, length, IfOk, OnOk, [], ◌∷◌, ◌++◌, map};
ghost use Rattle.std.specs.Prelude.{suc, Some, None};
ghost use Rattle.loop_syntax.specs.Tree.{spelled, tree_of, node_of, nodes_of, NPar, NIf, NWhile};
ghost use Rattle.loop_syntax.specs.Tree.{NLoop};
ghost use Rattle.loop_parse.specs.Terms.{saw, seen};
ghost use Rattle.loop_parse.specs.Reading.{Gives, starts, begins_stmt, open_brace, stmt, if_rest};
ghost use Rattle.loop_parse.specs.Reading.{while_rest, loop_rest, par_rest, par_tail, block};
ghost use Rattle.loop_parse.specs.Reading.{else_block, inner_stmts, stmts, within};

use crate::expression::outer;
use crate::parallel::{carry_list, reduce_list};
use crate::reader::{Unparsed, begins_with, expect, name, name_of, next};
use crate::simple::{
    assign_rest, both_rest, call_rest, emit_rest, fold_rest, leave_rest, let_rest, print_rest,
};
use crate::terminal::{Fixed, Lexeme, Terminal};
use loop_syntax::{Expr, Name, ParLoop, Stmt};
use std::alloc::{AllocError, Global};
use tp_value::{MAX_BLOCK_NESTING, Place};

/// A block.
#[cycle(statement)]
#[tactic(auto, unfolding(crate::specs::Reading::block))]
pub(crate) fn block<'a>(
    alloc: Global,
    source: &[u8],
    level: u32,
    tokens: &'a [Lexeme],
) -> Result<(Vec<Stmt>, &'a [Lexeme]), Unparsed<'a>>
    requires { level ≤ MAX_BLOCK_NESTING }
    ensures reads { (n : ℕ) → length (seen source.now tokens.now) ≤ n →
        Gives source.now (λ x. (nodes_of x.0.items, seen source.now x.1.now)) result
        (block within n level (seen source.now tokens.now)) }
    ensures shorter { IfOk result (λ x.
        length (seen source.now x.1.now) < length (seen source.now tokens.now)) }
{
    let (_open, rest) = open_brace(source, level, tokens)?;
    let (inside, rest) = inner_statements(alloc, source, level + 1, rest)?;
    let (_close, rest) = expect(source, rest, Fixed::CloseBrace)?;
    Ok((inside, rest))
}

/// An opening brace, where this many blocks are open.
#[tactic(auto, unfolding(crate::specs::Reading::open_brace))]
pub(crate) fn open_brace<'a>(
    source: &[u8],
    level: u32,
    tokens: &'a [Lexeme],
) -> Result<(Place, &'a [Lexeme]), Unparsed<'a>>
    ensures reads { Gives source.now (λ x. (x.0, seen source.now x.1.now)) result
        (open_brace within level (seen source.now tokens.now)) }
    ensures shorter { IfOk result (λ x.
        length (seen source.now x.1.now) < length (seen source.now tokens.now)) }
    ensures room { OnOk result (level < MAX_BLOCK_NESTING) }
{
    let (open, rest) = expect(source, tokens, Fixed::OpenBrace)?;
    if level >= MAX_BLOCK_NESTING {
        return Err(Unparsed::Deep(tokens));
    }
    Ok((open, rest))
}

/// The statements of a block inside another form.
#[cycle(statement)]
fn inner_statements<'a>(
    alloc: Global,
    source: &[u8],
    level: u32,
    tokens: &'a [Lexeme],
) -> Result<(Vec<Stmt>, &'a [Lexeme]), Unparsed<'a>>
    requires { level ≤ MAX_BLOCK_NESTING }
    ensures reads { (n : ℕ) → length (seen source.now tokens.now) < n →
        Gives source.now (λ x. (map node_of x.0.items, seen source.now x.1.now)) result
        (inner_stmts within n level (seen source.now tokens.now)) }
    ensures no_longer { IfOk result (λ x.
        length (seen source.now x.1.now) ≤ length (seen source.now tokens.now)) }
{
    statements(alloc, source, level, tokens)
}

/// Statements, as long as one begins.
#[cycle(statement)]
#[tactic(auto, using(crate::proofs::Many::many_steps), unfolding(crate::specs::Reading::stmts))]
pub(crate) fn statements<'a>(
    alloc: Global,
    source: &[u8],
    level: u32,
    tokens: &'a [Lexeme],
) -> Result<(Vec<Stmt>, &'a [Lexeme]), Unparsed<'a>>
    requires { level ≤ MAX_BLOCK_NESTING }
    ensures reads { (n : ℕ) → length (seen source.now tokens.now) ≤ n →
        Gives source.now (λ x. (map node_of x.0.items, seen source.now x.1.now)) result
        (stmts within n level (seen source.now tokens.now)) }
    ensures no_longer { IfOk result (λ x.
        length (seen source.now x.1.now) ≤ length (seen source.now tokens.now)) }
{
    let mut list = Vec::new(alloc);
    let mut rest = tokens;
    while begins_statement(source, rest) {
        let (found, after) = statement(alloc, source, level, rest)?;
        push_statement(&mut list, found)?;
        rest = after;
    }
    Ok((list, rest))
}

/// Whether a statement begins with the first token.
fn begins_statement(source: &[u8], tokens: &[Lexeme]) -> bool
    ensures { result ≡ starts begins_stmt (seen source.now tokens.now) }
{
    let Some((first, _after)) = next(source, tokens) else {
        return false;
    };
    begins_with_token(source, first)
}

fn begins_with_token(source: &[u8], token: Lexeme) -> bool
    ensures { result ≡ begins_stmt (saw source.now token).kind }
{
    match token.terminal {
        Terminal::Name => true,
        Terminal::Fixed(
            Fixed::Let
            | Fixed::If
            | Fixed::While
            | Fixed::Loop
            | Fixed::Par
            | Fixed::Fold
            | Fixed::Call
            | Fixed::Both
            | Fixed::Print
            | Fixed::Emit
            | Fixed::Leave,
        ) => true,
        _ => false,
    }
}

fn push_statement(list: &mut Vec<Stmt>, found: Stmt) -> Result<(), AllocError>
    ensures { OnOk result (list.new.items ≡ list.old.items ++ found ∷ []) }
{
    list.push(found)?;
    Ok(())
}

/// A statement.
#[cycle(statement)]
#[tactic(auto, unfolding(crate::specs::Reading::stmt, crate::specs::Reading::if_rest, crate::specs::Reading::while_rest, crate::specs::Reading::loop_rest, crate::specs::Reading::par_rest))]
fn statement<'a>(
    alloc: Global,
    source: &[u8],
    level: u32,
    tokens: &'a [Lexeme],
) -> Result<(Stmt, &'a [Lexeme]), Unparsed<'a>>
    requires { level ≤ MAX_BLOCK_NESTING }
    ensures reads { (n : ℕ) → length (seen source.now tokens.now) ≤ n →
        Gives source.now (λ x. (node_of x.0, seen source.now x.1.now)) result
        (stmt within n level (seen source.now tokens.now)) }
    ensures shorter { IfOk result (λ x.
        length (seen source.now x.1.now) < length (seen source.now tokens.now)) }
{
    let Some((first, after)) = next(source, tokens) else {
        return Err(Unparsed::Form(tokens));
    };
    match first.terminal {
        Terminal::Name => assign_rest(alloc, source, name_of(alloc, source, first)?, after),
        Terminal::Fixed(Fixed::Let) => let_rest(alloc, source, after),
        Terminal::Fixed(Fixed::If) => if_rest(alloc, source, level, after),
        Terminal::Fixed(Fixed::While) => while_rest(alloc, source, level, after),
        Terminal::Fixed(Fixed::Loop) => loop_rest(alloc, source, level, after),
        Terminal::Fixed(Fixed::Par) => par_rest(alloc, source, level, first.place, after),
        Terminal::Fixed(Fixed::Fold) => fold_rest(alloc, source, after),
        Terminal::Fixed(Fixed::Call) => call_rest(alloc, source, after),
        Terminal::Fixed(Fixed::Both) => both_rest(alloc, source, after),
        Terminal::Fixed(Fixed::Print) => print_rest(alloc, source, first.place, after),
        Terminal::Fixed(Fixed::Emit) => emit_rest(alloc, source, first.place, after),
        Terminal::Fixed(Fixed::Leave) => leave_rest(alloc, source, after),
        _ => Err(Unparsed::Form(tokens)),
    }
}

/// What stands after `if`.
#[cycle(statement)]
#[tactic(auto, unfolding(crate::specs::Reading::if_rest, crate::specs::Reading::block, crate::specs::Reading::else_block))]
fn if_rest<'a>(
    alloc: Global,
    source: &[u8],
    level: u32,
    tokens: &'a [Lexeme],
) -> Result<(Stmt, &'a [Lexeme]), Unparsed<'a>>
    requires { level ≤ MAX_BLOCK_NESTING }
    ensures reads { (n : ℕ) → length (seen source.now tokens.now) ≤ n →
        Gives source.now (λ x. (node_of x.0, seen source.now x.1.now)) result
        (if_rest within n level (seen source.now tokens.now)) }
    ensures shorter { IfOk result (λ x.
        length (seen source.now x.1.now) < length (seen source.now tokens.now)) }
{
    let (test, rest) = outer(alloc, source, tokens)?;
    let (taken, rest) = block(alloc, source, level, rest)?;
    let (other, rest) = else_block(alloc, source, level, rest)?;
    Ok((Stmt::If(test, taken, other), rest))
}

/// The other block of an `if`, or nothing.
#[cycle(statement)]
#[tactic(auto, unfolding(crate::specs::Reading::else_block, crate::specs::Reading::block))]
fn else_block<'a>(
    alloc: Global,
    source: &[u8],
    level: u32,
    tokens: &'a [Lexeme],
) -> Result<(Vec<Stmt>, &'a [Lexeme]), Unparsed<'a>>
    requires { level ≤ MAX_BLOCK_NESTING }
    ensures reads { (n : ℕ) → length (seen source.now tokens.now) ≤ n →
        Gives source.now (λ x. (nodes_of x.0.items, seen source.now x.1.now)) result
        (else_block within n level (seen source.now tokens.now)) }
    ensures no_longer { IfOk result (λ x.
        length (seen source.now x.1.now) ≤ length (seen source.now tokens.now)) }
{
    if !begins_with(source, tokens, Fixed::Else) {
        return Ok((Vec::new(alloc), tokens));
    }
    let (_word, rest) = expect(source, tokens, Fixed::Else)?;
    block(alloc, source, level, rest)
}

/// What stands after `while`.
#[cycle(statement)]
#[tactic(auto, unfolding(crate::specs::Reading::while_rest, crate::specs::Reading::block))]
fn while_rest<'a>(
    alloc: Global,
    source: &[u8],
    level: u32,
    tokens: &'a [Lexeme],
) -> Result<(Stmt, &'a [Lexeme]), Unparsed<'a>>
    requires { level ≤ MAX_BLOCK_NESTING }
    ensures reads { (n : ℕ) → length (seen source.now tokens.now) ≤ n →
        Gives source.now (λ x. (node_of x.0, seen source.now x.1.now)) result
        (while_rest within n level (seen source.now tokens.now)) }
    ensures shorter { IfOk result (λ x.
        length (seen source.now x.1.now) < length (seen source.now tokens.now)) }
{
    let (test, rest) = outer(alloc, source, tokens)?;
    let (inside, rest) = block(alloc, source, level, rest)?;
    Ok((Stmt::While(test, inside), rest))
}

/// What stands after `loop`.
#[cycle(statement)]
#[tactic(auto, unfolding(crate::specs::Reading::loop_rest, crate::specs::Reading::block))]
fn loop_rest<'a>(
    alloc: Global,
    source: &[u8],
    level: u32,
    tokens: &'a [Lexeme],
) -> Result<(Stmt, &'a [Lexeme]), Unparsed<'a>>
    requires { level ≤ MAX_BLOCK_NESTING }
    ensures reads { (n : ℕ) → length (seen source.now tokens.now) ≤ n →
        Gives source.now (λ x. (node_of x.0, seen source.now x.1.now)) result
        (loop_rest within n level (seen source.now tokens.now)) }
    ensures shorter { IfOk result (λ x.
        length (seen source.now x.1.now) < length (seen source.now tokens.now)) }
{
    let (var, rest) = name(alloc, source, tokens)?;
    let (_in, rest) = expect(source, rest, Fixed::In)?;
    let (from, rest) = outer(alloc, source, rest)?;
    let (_dotdot, rest) = expect(source, rest, Fixed::DotDot)?;
    let (to, rest) = outer(alloc, source, rest)?;
    let (inside, rest) = block(alloc, source, level, rest)?;
    Ok((Stmt::Loop(var, from, to, inside), rest))
}

/// What stands after `par`.
#[cycle(statement)]
#[tactic(auto, unfolding(crate::specs::Reading::par_rest, crate::specs::Reading::par_tail))]
fn par_rest<'a>(
    alloc: Global,
    source: &[u8],
    level: u32,
    place: Place,
    tokens: &'a [Lexeme],
) -> Result<(Stmt, &'a [Lexeme]), Unparsed<'a>>
    requires { level ≤ MAX_BLOCK_NESTING }
    ensures reads { (n : ℕ) → length (seen source.now tokens.now) ≤ n →
        Gives source.now (λ x. (node_of x.0, seen source.now x.1.now)) result
        (par_rest within n level place (seen source.now tokens.now)) }
    ensures shorter { IfOk result (λ x.
        length (seen source.now x.1.now) < length (seen source.now tokens.now)) }
{
    let (var, rest) = name(alloc, source, tokens)?;
    let (_in, rest) = expect(source, rest, Fixed::In)?;
    let (from, rest) = outer(alloc, source, rest)?;
    let (_dotdot, rest) = expect(source, rest, Fixed::DotDot)?;
    let (to, rest) = outer(alloc, source, rest)?;
    par_tail(alloc, source, level, place, var, from, to, rest)
}

/// The clauses and the body of a `par`.
#[cycle(statement)]
#[tactic(auto, unfolding(crate::specs::Reading::par_tail, crate::specs::Reading::block))]
fn par_tail<'a>(
    alloc: Global,
    source: &[u8],
    level: u32,
    place: Place,
    var: Name,
    from: Expr,
    to: Expr,
    tokens: &'a [Lexeme],
) -> Result<(Stmt, &'a [Lexeme]), Unparsed<'a>>
    requires { level ≤ MAX_BLOCK_NESTING }
    ensures reads { (n : ℕ) → length (seen source.now tokens.now) ≤ n →
        Gives source.now (λ x. (node_of x.0, seen source.now x.1.now)) result
        (par_tail within n level place (spelled var) (tree_of from) (tree_of to)
        (seen source.now tokens.now)) }
    ensures shorter { IfOk result (λ x.
        length (seen source.now x.1.now) < length (seen source.now tokens.now)) }
{
    let ((carry_place, carries), rest) = carry_list(alloc, source, place, tokens)?;
    let (reduces, rest) = reduce_list(alloc, source, rest)?;
    let (body, rest) = block(alloc, source, level, rest)?;
    Ok((
        Stmt::Par(ParLoop {
            place,
            var,
            from,
            to,
            carry_place,
            carries,
            reduces,
            body,
        }),
        rest,
    ))
}
