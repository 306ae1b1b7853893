// The texts that pieces stand for.

ghost use Rattle.std.specs.Prelude.{◌≤◌, length, IfOk};

use crate::fault::Fault;
use crate::numbers::{number, range_of};
use crate::tokens::Token;
use std::alloc::Global;

/// A text with its name.
pub type Named = (String, Vec<u8>);

// The text of a name. Of two with one name the last counts.
fn find<'a>(names: &'a [Named], name: &[u8]) -> Result<&'a [u8], Fault> {
    match names.iter().rev().find(|named| named.0.as_bytes() == name) {
        Some(named) => Ok(named.1.as_slice()),
        None => Err(Fault::Name),
    }
}

fn push_repeated<'a>(text: &mut Vec<u8>, tokens: &'a [Token]) -> Result<&'a [Token], Fault>
    ensures { IfOk result (λ rest. length rest.now ≤ length tokens.now) }
{
    let [times, Token::Quoted(again), rest @ ..] = tokens else {
        return Err(Fault::Words);
    };
    for _ in 0..number(times)? {
        text.extend_from_slice(again)?;
    }
    Ok(rest)
}

// Adds quoted texts with a number between each two.
fn push_numbered(text: &mut Vec<u8>, number: &str, parts: &[Token]) -> Result<(), Fault> {
    for (place, part) in parts.iter().enumerate() {
        if place > 0 {
            text.extend_from_slice(number.as_bytes())?;
        }
        match part {
            Token::Quoted(bytes) => text.extend_from_slice(bytes)?,
            Token::Word(_) => return Err(Fault::Words),
        }
    }
    Ok(())
}

fn push_counted<'a>(
    alloc: Global,
    text: &mut Vec<u8>,
    tokens: &'a [Token],
) -> Result<&'a [Token], Fault>
    ensures { IfOk result (λ rest. length rest.now ≤ length tokens.now) }
{
    let [numbers, others @ ..] = tokens else {
        return Err(Fault::Words);
    };
    let range = range_of(numbers)?;
    let end = others
        .iter()
        .position(|token| matches!(token, Token::Word(_)))
        .unwrap_or(others.len());
    let (parts, rest) = others.split_at(end);
    for number in range.from..=range.to {
        let shown = format!(in alloc; "{number}")?;
        push_numbered(text, shown.as_str(), parts)?;
    }
    Ok(rest)
}

fn push_piece<'a>(
    alloc: Global,
    text: &mut Vec<u8>,
    names: &[Named],
    first: &Token,
    others: &'a [Token],
) -> Result<&'a [Token], Fault>
    ensures { IfOk result (λ rest. length rest.now ≤ length others.now) }
{
    let word = match first {
        Token::Quoted(bytes) => {
            text.extend_from_slice(bytes)?;
            return Ok(others);
        }
        Token::Word(word) => word.as_slice(),
    };
    if word == b"repeat".as_slice() {
        push_repeated(text, others)
    } else if word == b"count".as_slice() {
        push_counted(alloc, text, others)
    } else {
        text.extend_from_slice(find(names, word)?)?;
        Ok(others)
    }
}

/// Adds what pieces stand for to a text: a quoted text for itself; `repeat`, a number and a quoted
/// text for so many of it; `count`, a range and quoted texts for these, with a number between each
/// two, for each number of the range; and any other word for the text of that name.
pub fn push_pieces(
    alloc: Global,
    text: &mut Vec<u8>,
    names: &[Named],
    pieces: &[Token],
) -> Result<(), Fault> {
    let mut rest = pieces;
    while let Some((first, others)) = rest.split_first() {
        rest = push_piece(alloc, text, names, first, others)?;
    }
    Ok(())
}
