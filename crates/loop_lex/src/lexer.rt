// The lexer.

ghost use Rattle.std.specs.Prelude.{◌≡◌, ◌<◌, ◌≤◌, ◌≢◌, ◌+◌, ◌^◌, ◌∷◌, [], length, slice_index};
ghost use Rattle.std.specs.Prelude.{IfOk, IfErr, OnOk, Ok, Err, ◌++◌, MatchOption, IsTrue, not};
ghost use Rattle.std.specs.Prelude.{◌==◌, true, false, drop, take, ℕ, List};
ghost use Rattle.std.specs.List.{prefix_len, AllPass};
ghost use Rattle.std.specs.Char.{is_ascii_digit};
ghost use Rattle.loop_lex.specs.Bytes.{is_blank, starts_word, continues_word, begins_double};
ghost use Rattle.loop_lex.specs.Lexical.{decimal, greatest, IsPiece, place_after, AreTokensOf};
ghost use Rattle.loop_lex.specs.Lexical.{AreInOrder, IsOnlyReading, EachIsTokenOf, IsCause};
ghost use Rattle.loop_lex.specs.Lexical.{IsReadTo};
ghost use Rattle.loop_lex.specs.declared.token.LexFault.TheVariants.{NoMemory};

use crate::bytes::{continues_word, is_blank, is_double_sign, is_single_sign, starts_word};
use crate::token::{LexFault, Token, TokenKind};
use std::alloc::Global;
use tp_value::Place;

/// The greatest literal.
const GREATEST: u64 = i64::MAX as u64;

/// What stands at the front of a text that has a byte, with the number of its bytes.
#[derive(Clone, Copy)]
pub(crate) enum Piece {
    /// A byte that separates tokens.
    Blank,
    Comment(usize),
    Token(TokenKind, usize),
    /// A byte that begins nothing.
    Bad,
    /// A literal above the greatest number.
    TooLarge,
}

/// The tokens of the text. The fault is the first of the text: `Byte` where a byte outside a
/// comment begins no token, `Range` at the first digit of a literal above 9223372036854775807.
/// The time is linear in the text.
pub fn lex(alloc: Global, source: &[u8]) -> Result<Vec<Token>, LexFault>
    requires { length source.now ≤ 1048576 }
    ensures tokens { IfOk result (λ v. AreTokensOf source.now v.items) }
    ensures no_other { IfOk result (λ v. IsOnlyReading source.now (Ok v.items)) }
    ensures each { IfOk result (λ v. EachIsTokenOf source.now v.items) }
    ensures in_order { IfOk result (λ v. AreInOrder 0 (length source.now) v.items) }
    ensures cause { IfErr result (IsCause source.now) }
    ensures no_other_cause { IfErr result (λ e. e ≢ NoMemory → IsOnlyReading source.now (Err e)) }
{
    let mut tokens = Vec::new(alloc);
    let mut at = 0;
    let mut place = Place { line: 1, col: 1 };
    while at < source.len() {
        let (next, behind) = step(source, at, place, &mut tokens)?;
        at = next;
        place = behind;
    }
    Ok(tokens)
}

/// Reads what stands at the byte `at`, which is at `place`; answers the next byte and its place.
#[tactic(auto, using(crate::proofs::Steps::step_facts))]
fn step(
    source: &[u8],
    at: usize,
    place: Place,
    tokens: &mut Vec<Token>,
) -> Result<(usize, Place), LexFault>
    requires small { length source.now ≤ 1048576 }
    requires some { at < length source.now }
    requires so_far { IsReadTo source.now at place tokens.old.items }
    ensures reads { IfOk result (λ x. IsReadTo source.now x.0 x.1 tokens.new.items) }
    ensures further { IfOk result (λ x. at < x.0) }
    ensures cause { IfErr result (IsCause source.now) }
{
    let text = rest_of(source, at);
    match next_piece(text) {
        Piece::Blank => Ok((at + 1, place_behind(place, text[0]))),
        Piece::Comment(length) => Ok((at + length, place_right(place, length as u32))),
        Piece::Token(kind, length) => {
            let token = Token {
                kind,
                start: at as u32,
                end: (at + length) as u32,
                place,
            };
            push_token(tokens, token)?;
            Ok((at + length, place_right(place, length as u32)))
        }
        Piece::Bad => Err(LexFault::Byte(place)),
        Piece::TooLarge => Err(LexFault::Range(place)),
    }
}

/// The text from the byte `at` on.
fn rest_of(source: &[u8], at: usize) -> &[u8]
    requires { at ≤ length source.now }
    ensures { result.now ≡ drop at source.now }
{
    &source[at..]
}

/// The place behind the byte at `place`.
fn place_behind(place: Place, byte: u8) -> Place
    requires line { place.line + 1 < 2 ^ 32 }
    requires col { place.col + 1 < 2 ^ 32 }
    ensures { result ≡ place_after place (byte ∷ []) }
{
    if byte == b'\n' {
        Place {
            line: place.line + 1,
            col: 1,
        }
    } else {
        Place {
            line: place.line,
            col: place.col + 1,
        }
    }
}

/// The place this many bytes to the right.
fn place_right(place: Place, length: u32) -> Place
    requires { place.col + length < 2 ^ 32 }
    ensures { result ≡ record { line = place.line; col = place.col + length } }
{
    Place {
        line: place.line,
        col: place.col + length,
    }
}

fn push_token(tokens: &mut Vec<Token>, token: Token) -> Result<(), LexFault>
    ensures pushed { OnOk result (tokens.new.items ≡ tokens.old.items ++ token ∷ []) }
    ensures cause { IfErr result (λ e. e ≡ NoMemory) }
{
    tokens.push(token)?;
    Ok(())
}

/// What stands at the front of the text.
#[tactic(auto, using(crate::proofs::Pieces::piece_facts))]
fn next_piece(text: &[u8]) -> Piece
    requires { 0 < length text.now }
    ensures { IsPiece text.now result }
{
    let first = text[0];
    if is_blank(first) {
        Piece::Blank
    } else if first == b'#' {
        Piece::Comment(comment_length(text))
    } else if starts_word(first) {
        Piece::Token(TokenKind::Word, word_length(text))
    } else if first.is_ascii_digit() {
        literal(text)
    } else {
        sign(text)
    }
}

/// How many bytes at the front are in the first line.
fn comment_length(text: &[u8]) -> usize
    ensures { result ≡ prefix_len (λ c. not (c == 10)) text.now }
{
    text.iter().take_while(|byte| **byte != b'\n').count()
}

/// How many bytes at the front a word takes.
fn word_length(text: &[u8]) -> usize
    ensures { result ≡ prefix_len continues_word text.now }
{
    text.iter()
        .take_while(|byte| continues_word(**byte))
        .count()
}

/// How many bytes at the front are digits.
fn literal_length(text: &[u8]) -> usize
    ensures { result ≡ prefix_len is_ascii_digit text.now }
{
    text.iter().take_while(|byte| byte.is_ascii_digit()).count()
}

/// The literal at the front of the text.
#[tactic(auto, using(crate::proofs::Pieces::literal_facts))]
fn literal(text: &[u8]) -> Piece
    requires { is_ascii_digit (slice_index text.now 0) ≡ true }
    ensures { IsPiece text.now result }
{
    let length = literal_length(text);
    match decimal(&text[..length]) {
        Some(value) => Piece::Token(TokenKind::Int(value as i64), length),
        None => Piece::TooLarge,
    }
}

/// The number that digits write; None where it is above the greatest literal.
fn decimal(digits: &[u8]) -> Option<u64>
    requires { AllPass is_ascii_digit digits.now }
    ensures { MatchOption result (greatest < decimal digits.now)
        (λ n. (n ≡ decimal digits.now) × (n ≤ greatest)) }
{
    let mut value: u64 = 0;
    for byte in digits {
        let digit = u64::from(*byte - b'0');
        if value > (GREATEST - digit) / 10 {
            return None;
        }
        value = value * 10 + digit;
    }
    Some(value)
}

/// The sign at the front of the text, or a byte that begins nothing.
#[tactic(auto, using(crate::proofs::Pieces::sign_facts))]
fn sign(text: &[u8]) -> Piece
    requires some { 0 < length text.now }
    requires no_blank { is_blank (slice_index text.now 0) ≡ false }
    requires no_comment { slice_index text.now 0 ≢ 35 }
    requires no_word { starts_word (slice_index text.now 0) ≡ false }
    requires no_literal { is_ascii_digit (slice_index text.now 0) ≡ false }
    ensures { IsPiece text.now result }
{
    if begins_double(text) {
        Piece::Token(TokenKind::Sign, 2)
    } else if is_single_sign(text[0]) {
        Piece::Token(TokenKind::Sign, 1)
    } else {
        Piece::Bad
    }
}

/// Whether a sign of two bytes stands at the front.
fn begins_double(text: &[u8]) -> bool
    ensures { result ≡ begins_double text.now }
{
    if text.len() < 2 {
        return false;
    }
    is_double_sign(text[0], text[1])
}
