// Expressions.

ghost use Rattle.std.specs.Prelude.{◌≡◌, ℕ, ◌+◌, ◌<◌, ◌≤◌, length, IfOk, OnOk, [], ◌∷◌, ◌++◌, take};
ghost use Rattle.std.specs.Prelude.{drop, ◌-◌, ◌&&◌, nat_le, false};
ghost use Rattle.loop_syntax.specs.Tree.{spelled, tree_of, TBin, TNeg, TCell};
ghost use Rattle.loop_parse.specs.Terms.{saw, seen};
ghost use Rattle.loop_parse.specs.Reading.{Gives, is_fixed, expect, name, primary, unary, product};
ghost use Rattle.loop_parse.specs.Reading.{sum, expr, sum_op_of, product_op_of, compare_op_of};
ghost use Rattle.loop_parse.specs.Reading.{nested, name_rest, name_cell, sized, outer, window};
ghost use Rattle.loop_parse.specs.Reading.{is_empty, chain_rest, opens, opposite};

use crate::reader::{Unparsed, expect, is, name, next};
use crate::terminal::{Fixed, Lexeme, Terminal};
use loop_syntax::{BinOp, Expr, Name};
use std::alloc::{AllocError, Global};
use tp_value::{MAX_EXPRESSION_TOKENS, Place};

/// An expression that isn't inside another one. Its 257th token is too deep, where that continues
/// it.
#[tactic(auto, unfolding(crate::specs::Reading::outer))]
pub(crate) fn outer<'a>(
    alloc: Global,
    source: &[u8],
    tokens: &'a [Lexeme],
) -> Result<(Expr, &'a [Lexeme]), Unparsed<'a>>
    ensures reads { (n : ℕ) → length (seen source.now tokens.now) ≤ n →
        Gives source.now (λ x. (tree_of x.0, seen source.now x.1.now)) result
        (outer n (seen source.now tokens.now)) }
    ensures shorter { IfOk result (λ x.
        length (seen source.now x.1.now) < length (seen source.now tokens.now)) }
{
    match expr(alloc, source, looked_at(source, tokens)) {
        Ok((found, left)) => {
            if is_beyond(source, tokens, left) {
                return Err(Unparsed::Deep(last_looked_at(source, tokens)));
            }
            Ok((Box::into_inner(found), widened(source, tokens, left)))
        }
        Err(Unparsed::Form(left)) => {
            if is_beyond(source, tokens, left) {
                return Err(Unparsed::Deep(last_looked_at(source, tokens)));
            }
            Err(Unparsed::Form(widened(source, tokens, left)))
        }
        Err(Unparsed::Deep(left)) => Err(Unparsed::Deep(left)),
        Err(Unparsed::NoMemory) => Err(Unparsed::NoMemory),
    }
}

/// How many tokens of an outermost expression are looked at: one more than it may have.
const WINDOW: usize = MAX_EXPRESSION_TOKENS + 1;

/// Whether all tokens of a full window are taken.
fn is_beyond(source: &[u8], tokens: &[Lexeme], left: &[Lexeme]) -> bool
    ensures { result
        ≡ (nat_le window (length (seen source.now tokens.now))
        && is_empty (seen source.now left.now)) }
{
    tokens.len() >= WINDOW && is_none_left(source, left)
}

fn is_none_left(source: &[u8], left: &[Lexeme]) -> bool
    ensures { result ≡ is_empty (seen source.now left.now) }
{
    match next(source, left) {
        Some((_, _)) => false,
        None => true,
    }
}

/// The first tokens, as many as are looked at.
fn looked_at<'a>(source: &[u8], tokens: &'a [Lexeme]) -> &'a [Lexeme]
    ensures { seen source.now result.now ≡ take window (seen source.now tokens.now) }
{
    if tokens.len() <= WINDOW {
        tokens
    } else {
        &tokens[..WINDOW]
    }
}

/// The tokens that are left, where these are left of those looked at.
fn widened<'a>(source: &[u8], tokens: &'a [Lexeme], left: &[Lexeme]) -> &'a [Lexeme]
    ensures { seen source.now result.now
        ≡ drop
        (length (take window (seen source.now tokens.now)) - length (seen source.now left.now))
        (seen source.now tokens.now) }
{
    let skipped = looked_at(source, tokens).len().saturating_sub(left.len());
    skip(source, tokens, skipped)
}

/// The tokens after the first `count`.
fn skip<'a>(source: &[u8], tokens: &'a [Lexeme], count: usize) -> &'a [Lexeme]
    requires { count ≤ length tokens.now }
    ensures { seen source.now result.now ≡ drop count (seen source.now tokens.now) }
{
    &tokens[count..]
}

/// The last of the tokens looked at, and those after it.
fn last_looked_at<'a>(source: &[u8], tokens: &'a [Lexeme]) -> &'a [Lexeme]
    requires { window ≤ length (seen source.now tokens.now) }
    ensures { seen source.now result.now ≡ drop MAX_EXPRESSION_TOKENS (seen source.now tokens.now) }
{
    skip(source, tokens, WINDOW - 1)
}

/// An expression: sums, compared or not.
#[cycle(expression)]
#[tactic(auto, unfolding(crate::specs::Reading::expr))]
fn expr<'a>(
    alloc: Global,
    source: &[u8],
    tokens: &'a [Lexeme],
) -> Result<(Box<Expr>, &'a [Lexeme]), Unparsed<'a>>
    ensures reads { (n : ℕ) → length (seen source.now tokens.now) ≤ n →
        Gives source.now (λ x. (tree_of x.0.value, seen source.now x.1.now)) result
        (expr n (seen source.now tokens.now)) }
    ensures shorter { IfOk result (λ x.
        length (seen source.now x.1.now) < length (seen source.now tokens.now)) }
{
    let (left, rest) = sum(alloc, source, tokens)?;
    compared(alloc, source, left, rest)
}

/// What stands after a sum: a comparison with another one, or nothing. This and its like below are
/// apart from what reads the first operand: one reader of each level stands on the stack for every
/// bracket that is open.
#[cycle(expression)]
#[inline(never)]
fn compared<'a>(
    alloc: Global,
    source: &[u8],
    left: Box<Expr>,
    tokens: &'a [Lexeme],
) -> Result<(Box<Expr>, &'a [Lexeme]), Unparsed<'a>>
    ensures reads { (n : ℕ) → length (seen source.now tokens.now) ≤ n →
        Gives source.now (λ x. (tree_of x.0.value, seen source.now x.1.now)) result
        (chain_rest (sum n) compare_op_of 1 (tree_of left.value) (seen source.now tokens.now)) }
    ensures shorter { IfOk result (λ x.
        length (seen source.now x.1.now) ≤ length (seen source.now tokens.now)) }
{
    let Some((first, after)) = next(source, tokens) else {
        return Ok((left, tokens));
    };
    let Some(op) = compare_op(source, first) else {
        return Ok((left, tokens));
    };
    let (right, rest) = sum(alloc, source, after)?;
    Ok((binary(alloc, op, first.place, left, right)?, rest))
}

/// An expression inside another one.
#[cycle(expression)]
#[inline(always)]
fn inner<'a>(
    alloc: Global,
    source: &[u8],
    tokens: &'a [Lexeme],
) -> Result<(Box<Expr>, &'a [Lexeme]), Unparsed<'a>>
    ensures reads { (n : ℕ) → length (seen source.now tokens.now) < n →
        Gives source.now (λ x. (tree_of x.0.value, seen source.now x.1.now)) result
        (nested n (seen source.now tokens.now)) }
    ensures shorter { IfOk result (λ x.
        length (seen source.now x.1.now) < length (seen source.now tokens.now)) }
{
    expr(alloc, source, tokens)
}

/// Products, added and subtracted.
#[cycle(expression)]
#[tactic(auto, unfolding(crate::specs::Reading::sum))]
fn sum<'a>(
    alloc: Global,
    source: &[u8],
    tokens: &'a [Lexeme],
) -> Result<(Box<Expr>, &'a [Lexeme]), Unparsed<'a>>
    ensures reads { (n : ℕ) → length (seen source.now tokens.now) ≤ n →
        Gives source.now (λ x. (tree_of x.0.value, seen source.now x.1.now)) result
        (sum n (seen source.now tokens.now)) }
    ensures shorter { IfOk result (λ x.
        length (seen source.now x.1.now) < length (seen source.now tokens.now)) }
{
    let (first, rest) = product(alloc, source, tokens)?;
    terms(alloc, source, first, rest)
}

/// What stands after the first product: products, added and subtracted.
#[cycle(expression)]
#[inline(never)]
#[tactic(auto, using(crate::proofs::Chains::chain_steps))]
fn terms<'a>(
    alloc: Global,
    source: &[u8],
    first: Box<Expr>,
    tokens: &'a [Lexeme],
) -> Result<(Box<Expr>, &'a [Lexeme]), Unparsed<'a>>
    ensures reads { (n m : ℕ) → length (seen source.now tokens.now) ≤ n →
        length (seen source.now tokens.now) ≤ m →
        Gives source.now (λ x. (tree_of x.0.value, seen source.now x.1.now)) result
        (chain_rest (product n) sum_op_of m (tree_of first.value) (seen source.now tokens.now)) }
    ensures shorter { IfOk result (λ x.
        length (seen source.now x.1.now) ≤ length (seen source.now tokens.now)) }
{
    let (mut left, mut rest) = (first, tokens);
    while let Some((token, after)) = next(source, rest) {
        let Some(op) = sum_op(source, token) else {
            break;
        };
        let (right, more) = product(alloc, source, after)?;
        left = binary(alloc, op, token.place, left, right)?;
        rest = more;
    }
    Ok((left, rest))
}

/// Factors, multiplied and divided.
#[cycle(expression)]
#[tactic(auto, unfolding(crate::specs::Reading::product))]
fn product<'a>(
    alloc: Global,
    source: &[u8],
    tokens: &'a [Lexeme],
) -> Result<(Box<Expr>, &'a [Lexeme]), Unparsed<'a>>
    ensures reads { (n : ℕ) → length (seen source.now tokens.now) ≤ n →
        Gives source.now (λ x. (tree_of x.0.value, seen source.now x.1.now)) result
        (product n (seen source.now tokens.now)) }
    ensures shorter { IfOk result (λ x.
        length (seen source.now x.1.now) < length (seen source.now tokens.now)) }
{
    let (first, rest) = unary(alloc, source, tokens)?;
    factors(alloc, source, first, rest)
}

/// What stands after the first factor: factors, multiplied and divided.
#[cycle(expression)]
#[inline(never)]
#[tactic(auto, using(crate::proofs::Chains::chain_steps))]
fn factors<'a>(
    alloc: Global,
    source: &[u8],
    first: Box<Expr>,
    tokens: &'a [Lexeme],
) -> Result<(Box<Expr>, &'a [Lexeme]), Unparsed<'a>>
    ensures reads { (n m : ℕ) → length (seen source.now tokens.now) ≤ n →
        length (seen source.now tokens.now) ≤ m →
        Gives source.now (λ x. (tree_of x.0.value, seen source.now x.1.now)) result
        (chain_rest (unary n) product_op_of m (tree_of first.value) (seen source.now tokens.now)) }
    ensures shorter { IfOk result (λ x.
        length (seen source.now x.1.now) ≤ length (seen source.now tokens.now)) }
{
    let (mut left, mut rest) = (first, tokens);
    while let Some((token, after)) = next(source, rest) {
        let Some(op) = product_op(source, token) else {
            break;
        };
        let (right, more) = unary(alloc, source, after)?;
        left = binary(alloc, op, token.place, left, right)?;
        rest = more;
    }
    Ok((left, rest))
}

/// A factor, negated or not.
#[cycle(expression)]
#[tactic(auto, unfolding(crate::specs::Reading::unary))]
fn unary<'a>(
    alloc: Global,
    source: &[u8],
    tokens: &'a [Lexeme],
) -> Result<(Box<Expr>, &'a [Lexeme]), Unparsed<'a>>
    ensures reads { (n : ℕ) → length (seen source.now tokens.now) ≤ n →
        Gives source.now (λ x. (tree_of x.0.value, seen source.now x.1.now)) result
        (unary n (seen source.now tokens.now)) }
    ensures shorter { IfOk result (λ x.
        length (seen source.now x.1.now) < length (seen source.now tokens.now)) }
{
    let Some((first, after)) = next(source, tokens) else {
        return Err(Unparsed::Form(tokens));
    };
    if is(source, first, Fixed::Minus) {
        return opposite(alloc, source, first.place, after);
    }
    primary(alloc, source, tokens)
}

/// The factor after a minus, negated.
#[cycle(expression)]
#[inline(never)]
fn opposite<'a>(
    alloc: Global,
    source: &[u8],
    place: Place,
    tokens: &'a [Lexeme],
) -> Result<(Box<Expr>, &'a [Lexeme]), Unparsed<'a>>
    ensures reads { (n : ℕ) → length (seen source.now tokens.now) ≤ n →
        Gives source.now (λ x. (tree_of x.0.value, seen source.now x.1.now)) result
        (opposite place (unary n (seen source.now tokens.now))) }
    ensures shorter { IfOk result (λ x.
        length (seen source.now x.1.now) < length (seen source.now tokens.now)) }
{
    let (factor, rest) = unary(alloc, source, tokens)?;
    Ok((negated(alloc, factor, place)?, rest))
}

/// A literal, a variable, a cell, a table's size or an expression in brackets.
#[cycle(expression)]
#[tactic(auto, unfolding(crate::specs::Reading::primary))]
fn primary<'a>(
    alloc: Global,
    source: &[u8],
    tokens: &'a [Lexeme],
) -> Result<(Box<Expr>, &'a [Lexeme]), Unparsed<'a>>
    ensures reads { (n : ℕ) → length (seen source.now tokens.now) ≤ n →
        Gives source.now (λ x. (tree_of x.0.value, seen source.now x.1.now)) result
        (primary n (seen source.now tokens.now)) }
    ensures shorter { IfOk result (λ x.
        length (seen source.now x.1.now) < length (seen source.now tokens.now)) }
{
    let Some((first, after)) = next(source, tokens) else {
        return Err(Unparsed::Form(tokens));
    };
    if !is(source, first, Fixed::OpenRound) {
        return atom(alloc, source, tokens);
    }
    let (found, rest) = inner(alloc, source, after)?;
    let (_close, rest) = expect(source, rest, Fixed::CloseRound)?;
    Ok((found, rest))
}

/// A literal, a variable, a cell or a table's size.
#[cycle(expression)]
#[inline(never)]
#[tactic(auto, unfolding(crate::specs::Reading::primary))]
fn atom<'a>(
    alloc: Global,
    source: &[u8],
    tokens: &'a [Lexeme],
) -> Result<(Box<Expr>, &'a [Lexeme]), Unparsed<'a>>
    ensures reads { (n : ℕ) → length (seen source.now tokens.now) ≤ n →
        opens (seen source.now tokens.now) ≡ false →
        Gives source.now (λ x. (tree_of x.0.value, seen source.now x.1.now)) result
        (primary n (seen source.now tokens.now)) }
    ensures shorter { IfOk result (λ x.
        length (seen source.now x.1.now) < length (seen source.now tokens.now)) }
{
    let Some((first, after)) = next(source, tokens) else {
        return Err(Unparsed::Form(tokens));
    };
    match first.terminal {
        Terminal::Literal(value) => Ok((node(alloc, Expr::Int(value, first.place))?, after)),
        Terminal::Name => cell_or_variable(alloc, source, tokens),
        Terminal::Fixed(Fixed::Rows) => {
            let (table, rest) = sized(alloc, source, after)?;
            Ok((node(alloc, Expr::Rows(table))?, rest))
        }
        Terminal::Fixed(Fixed::Cols) => {
            let (table, rest) = sized(alloc, source, after)?;
            Ok((node(alloc, Expr::Cols(table))?, rest))
        }
        Terminal::Fixed(_) => Err(Unparsed::Form(tokens)),
    }
}

/// A name, with the two indexes of a cell or alone.
#[cycle(expression)]
#[inline(never)]
fn cell_or_variable<'a>(
    alloc: Global,
    source: &[u8],
    tokens: &'a [Lexeme],
) -> Result<(Box<Expr>, &'a [Lexeme]), Unparsed<'a>>
    ensures reads { (n : ℕ) → length (seen source.now tokens.now) ≤ n →
        Gives source.now (λ x. (tree_of x.0.value, seen source.now x.1.now)) result
        (name_cell (nested n) (seen source.now tokens.now)) }
    ensures shorter { IfOk result (λ x.
        length (seen source.now x.1.now) < length (seen source.now tokens.now)) }
{
    let (name, rest) = name(alloc, source, tokens)?;
    name_rest(alloc, source, name, rest)
}

/// What stands after a name: the two indexes of a cell, or nothing.
#[cycle(expression)]
fn name_rest<'a>(
    alloc: Global,
    source: &[u8],
    name: Name,
    tokens: &'a [Lexeme],
) -> Result<(Box<Expr>, &'a [Lexeme]), Unparsed<'a>>
    ensures reads { (n : ℕ) → length (seen source.now tokens.now) < n →
        Gives source.now (λ x. (tree_of x.0.value, seen source.now x.1.now)) result
        (name_rest (nested n) (spelled name) (seen source.now tokens.now)) }
    ensures shorter { IfOk result (λ x.
        length (seen source.now x.1.now) ≤ length (seen source.now tokens.now)) }
{
    let Some((first, after)) = next(source, tokens) else {
        return Ok((node(alloc, Expr::Var(name))?, tokens));
    };
    if !is(source, first, Fixed::OpenSquare) {
        return Ok((node(alloc, Expr::Var(name))?, tokens));
    }
    let (row, rest) = inner(alloc, source, after)?;
    let (_close, rest) = expect(source, rest, Fixed::CloseSquare)?;
    let (_open, rest) = expect(source, rest, Fixed::OpenSquare)?;
    let (col, rest) = inner(alloc, source, rest)?;
    let (_close, rest) = expect(source, rest, Fixed::CloseSquare)?;
    Ok((cell(alloc, name, row, col)?, rest))
}

/// A table's name in brackets.
#[tactic(auto, unfolding(crate::specs::Reading::sized))]
fn sized<'a>(
    alloc: Global,
    source: &[u8],
    tokens: &'a [Lexeme],
) -> Result<(Name, &'a [Lexeme]), Unparsed<'a>>
    ensures reads { Gives source.now (λ x. (spelled x.0, seen source.now x.1.now)) result
        (sized (seen source.now tokens.now)) }
    ensures shorter { IfOk result (λ x.
        length (seen source.now x.1.now) < length (seen source.now tokens.now)) }
{
    let (_open, rest) = expect(source, tokens, Fixed::OpenRound)?;
    let (table, rest) = name(alloc, source, rest)?;
    let (_close, rest) = expect(source, rest, Fixed::CloseRound)?;
    Ok((table, rest))
}

/// The comparison that the token is.
fn compare_op(source: &[u8], token: Lexeme) -> Option<BinOp>
    ensures { result ≡ compare_op_of (saw source.now token).kind }
{
    match token.terminal {
        Terminal::Fixed(Fixed::Same) => Some(BinOp::Eq),
        Terminal::Fixed(Fixed::Differs) => Some(BinOp::Ne),
        Terminal::Fixed(Fixed::Less) => Some(BinOp::Lt),
        Terminal::Fixed(Fixed::AtMost) => Some(BinOp::Le),
        Terminal::Fixed(Fixed::Greater) => Some(BinOp::Gt),
        Terminal::Fixed(Fixed::AtLeast) => Some(BinOp::Ge),
        _ => None,
    }
}

/// The operator between products that the token is.
fn sum_op(source: &[u8], token: Lexeme) -> Option<BinOp>
    ensures { result ≡ sum_op_of (saw source.now token).kind }
{
    match token.terminal {
        Terminal::Fixed(Fixed::Plus) => Some(BinOp::Add),
        Terminal::Fixed(Fixed::Minus) => Some(BinOp::Sub),
        _ => None,
    }
}

/// The operator between factors that the token is.
fn product_op(source: &[u8], token: Lexeme) -> Option<BinOp>
    ensures { result ≡ product_op_of (saw source.now token).kind }
{
    match token.terminal {
        Terminal::Fixed(Fixed::Star) => Some(BinOp::Mul),
        Terminal::Fixed(Fixed::Slash) => Some(BinOp::Div),
        Terminal::Fixed(Fixed::Percent) => Some(BinOp::Rem),
        _ => None,
    }
}

/// A node of a tree. Trees go from reader to reader in boxes: one reader of each level stands on
/// the stack for every bracket that is open.
fn node(alloc: Global, tree: Expr) -> Result<Box<Expr>, AllocError>
    ensures { IfOk result (λ e. tree_of e.value ≡ tree_of tree) }
{
    let tree = Box::new(alloc, tree)?;
    Ok(tree)
}

fn negated(alloc: Global, inner: Box<Expr>, place: Place) -> Result<Box<Expr>, AllocError>
    ensures { IfOk result (λ e. tree_of e.value ≡ TNeg (tree_of inner.value) place) }
{
    node(alloc, Expr::Neg(inner, place))
}

fn cell(alloc: Global, name: Name, row: Box<Expr>, col: Box<Expr>) -> Result<Box<Expr>, AllocError>
    ensures { IfOk result
        (λ e. tree_of e.value ≡ TCell (spelled name) (tree_of row.value) (tree_of col.value)) }
{
    node(alloc, Expr::Cell(name, row, col))
}

fn binary(
    alloc: Global,
    op: BinOp,
    place: Place,
    left: Box<Expr>,
    right: Box<Expr>,
) -> Result<Box<Expr>, AllocError>
    ensures { IfOk result
        (λ e. tree_of e.value ≡ TBin op place (tree_of left.value) (tree_of right.value)) }
{
    node(alloc, Expr::Bin(op, place, left, right))
}
