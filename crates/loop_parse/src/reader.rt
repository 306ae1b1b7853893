// Reading from the front of a list of tokens.

ghost use Rattle.std.specs.Prelude.{◌≡◌, ℕ, ◌+◌, ◌<◌, ◌≤◌, length, take, drop, slice_range, IfOk};
ghost use Rattle.std.specs.Prelude.{MatchOption, OnOk, [], ◌∷◌, ◌++◌};
ghost use Rattle.loop_syntax.specs.Tree.{spelled};
ghost use Rattle.loop_parse.specs.Terms.{saw, seen};
ghost use Rattle.loop_parse.specs.Reading.{Gives, is_fixed, expect, name, begins_with};

use crate::terminal::{Fixed, Lexeme, Terminal};
use loop_syntax::Name;
use std::alloc::{AllocError, AllocFailed, Global};
use tp_value::Place;

/// Why reading stopped, with the tokens that are left: no program continues at the first of them,
/// or it is too deep; or there was no memory.
#[derive(Clone, Copy, Debug)]
pub enum Unparsed<'a> {
    /// No program continues there.
    Form(&'a [Lexeme]),
    /// The first token that is left is too deep.
    Deep(&'a [Lexeme]),
    /// There was no memory.
    NoMemory,
}

impl<'a> From<AllocError> for Unparsed<'a> {
    ghost use Rattle.std.specs.Prelude.{◌≡◌};
    ghost use Rattle.loop_parse.specs.declared.reader.Unparsed.TheVariants.{NoMemory};

    ghost from_gives = { λ _ h. h ≡ NoMemory };

    fn from(_error: AllocError) -> Self {
        Unparsed::NoMemory
    }
}

/// The first token and those after it.
pub(crate) fn next<'a>(source: &[u8], tokens: &'a [Lexeme]) -> Option<(Lexeme, &'a [Lexeme])>
    ensures { MatchOption result (seen source.now tokens.now ≡ [])
        (λ x. seen source.now tokens.now ≡ saw source.now x.0 ∷ seen source.now x.1.now) }
{
    let (first, rest) = tokens.split_first()?;
    Some((*first, rest))
}

/// Whether the token is this word or sign.
pub(crate) fn is(source: &[u8], token: Lexeme, fixed: Fixed) -> bool
    ensures { result ≡ is_fixed fixed (saw source.now token).kind }
{
    match token.terminal {
        Terminal::Fixed(found) => found as u8 == fixed as u8,
        Terminal::Literal(_) => false,
        Terminal::Name => false,
    }
}

/// Whether the list begins with this word or sign.
pub(crate) fn begins_with(source: &[u8], tokens: &[Lexeme], fixed: Fixed) -> bool
    ensures { result ≡ begins_with fixed (seen source.now tokens.now) }
{
    match next(source, tokens) {
        Some((first, _)) => is(source, first, fixed),
        None => false,
    }
}

/// The word or sign at the front, by its place.
#[tactic(auto, unfolding(crate::specs::Reading::expect))]
pub(crate) fn expect<'a>(
    source: &[u8],
    tokens: &'a [Lexeme],
    fixed: Fixed,
) -> Result<(Place, &'a [Lexeme]), Unparsed<'a>>
    ensures reads { Gives source.now (λ x. (x.0, seen source.now x.1.now)) result
        (expect fixed (seen source.now tokens.now)) }
    ensures shorter { IfOk result (λ x.
        length (seen source.now x.1.now) < length (seen source.now tokens.now)) }
{
    let Some((first, rest)) = next(source, tokens) else {
        return Err(Unparsed::Form(tokens));
    };
    if is(source, first, fixed) {
        Ok((first.place, rest))
    } else {
        Err(Unparsed::Form(tokens))
    }
}

/// The bytes after the first `count`.
#[tactic(auto, using(std::proofs::lemmas::List::take_all, std::proofs::lemmas::List::drop_all))]
fn behind(bytes: &[u8], count: usize) -> &[u8]
    ensures { result.now ≡ drop count bytes.now }
{
    let skipped = count.min(bytes.len());
    &bytes[skipped..]
}

/// The first `count` bytes.
#[tactic(auto, using(std::proofs::lemmas::List::take_all))]
fn first(bytes: &[u8], count: usize) -> &[u8]
    ensures { result.now ≡ take count bytes.now }
{
    if bytes.len() <= count {
        return bytes;
    }
    &bytes[..count]
}

/// The bytes of a token.
fn text_of(source: &[u8], token: Lexeme) -> &[u8]
    ensures { result.now ≡ slice_range source.now token.start token.end }
{
    let length = token.end.saturating_sub(token.start);
    first(behind(source, token.start as usize), length as usize)
}

/// The name of a token.
pub(crate) fn name_of(alloc: Global, source: &[u8], token: Lexeme) -> Result<Name, AllocError>
    ensures { IfOk result (λ x.
        spelled x
        ≡
        record {
          text = slice_range source.now token.start token.end;
          place = token.place;
        }) }
{
    let text = text_of(source, token);
    Ok(Name {
        text: Vec::from_slice(alloc, text)?,
        place: token.place,
    })
}

/// A name.
#[tactic(auto, unfolding(crate::specs::Reading::name))]
pub(crate) fn name<'a>(
    alloc: Global,
    source: &[u8],
    tokens: &'a [Lexeme],
) -> Result<(Name, &'a [Lexeme]), Unparsed<'a>>
    ensures reads { Gives source.now (λ x. (spelled x.0, seen source.now x.1.now)) result
        (name (seen source.now tokens.now)) }
    ensures shorter { IfOk result (λ x.
        length (seen source.now x.1.now) < length (seen source.now tokens.now)) }
{
    let Some((first, rest)) = next(source, tokens) else {
        return Err(Unparsed::Form(tokens));
    };
    match first.terminal {
        Terminal::Name => Ok((name_of(alloc, source, first)?, rest)),
        Terminal::Literal(_) => Err(Unparsed::Form(tokens)),
        Terminal::Fixed(_) => Err(Unparsed::Form(tokens)),
    }
}
