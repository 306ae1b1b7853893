// The parser's call.

ghost use Rattle.std.specs.Prelude.{◌≡◌, ◌≤◌, ℕ, length, IfOk, IfErr};
ghost use Rattle.tp_value.specs.declared.limits.TheConstants.{MAX_SOURCE_BYTES};
ghost use Rattle.loop_lex.specs.Lexical.{AreTokensOf, EachIsTokenOf, place_of, place_after};
ghost use Rattle.loop_syntax.specs.Tree.{program_of};
ghost use Rattle.loop_parse.specs.Terms.{seen, tokens_of};
ghost use Rattle.loop_parse.specs.Text.{Reads, TextFault, FirstTextFault, IsOnlyTree, IsCause};
ghost use Rattle.loop_parse.specs.Text.{IsOnlyCause, place_at};
ghost use Rattle.loop_parse.specs.Parsing.{Finishes, IsPlaced};

use crate::declaration::program;
use crate::reader::{Unparsed, next};
use crate::terminal::{Lexeme, classify};
use loop_lex::Token;
use loop_syntax::Program;
use std::alloc::{AllocError, AllocFailed, Global};
use tp_value::Place;

/// Why a text has no tree, or none could be given.
#[derive(Clone, Copy, PartialEq, Eq, Debug)]
pub enum ParseFault {
    /// E3: the place of the first token at which no program continues, or of the byte after the
    /// text's last byte.
    Form(Place),
    /// E14: the place of the brace of a block inside `MAX_BLOCK_NESTING` others, or of the token of
    /// an expression behind `MAX_EXPRESSION_TOKENS` others.
    Deep(Place),
    /// There was no memory.
    NoMemory,
}

impl From<AllocError> for ParseFault {
    ghost use Rattle.std.specs.Prelude.{◌≡◌};
    ghost use Rattle.loop_parse.specs.declared.parser.ParseFault.TheVariants.{NoMemory};

    ghost from_gives = { λ _ fault. fault ≡ NoMemory };

    fn from(_error: AllocError) -> Self {
        ParseFault::NoMemory
    }
}

impl<T: Drop> From<AllocFailed<T>> for ParseFault {
    ghost use Rattle.std.specs.Prelude.{◌≡◌};
    ghost use Rattle.loop_parse.specs.declared.parser.ParseFault.TheVariants.{NoMemory};

    ghost from_gives = { λ _ fault. fault ≡ NoMemory };

    fn from(_failed: AllocFailed<T>) -> Self {
        ParseFault::NoMemory
    }
}

/// The tree of a text, from its tokens. The fault is the first of the text: `Form` where no program
/// continues, `Deep` where a block or an expression is too large. The time is linear in the text,
/// and calls go no deeper than the limits on blocks and on tokens of an expression ask for.
pub fn parse(alloc: Global, source: &[u8], tokens: &[Token]) -> Result<Program, ParseFault>
    requires small { length source.now ≤ MAX_SOURCE_BYTES }
    requires lexed { AreTokensOf source.now tokens.now }
    ensures tree { IfOk result (λ p. Reads source.now (program_of p)) }
    ensures no_other { IfOk result (λ p. IsOnlyTree source.now (program_of p)) }
    ensures no_fault { IfOk result (λ p.
        (fault : TextFault) → FirstTextFault source.now fault → ⊥) }
    ensures cause { IfErr result (IsCause source.now) }
    ensures no_other_cause { IfErr result (IsOnlyCause source.now) }
{
    let lexemes = lexemes(alloc, source, tokens)?;
    match program(alloc, source, &lexemes) {
        Ok((found, rest)) => finish(source, found, rest),
        Err(halt) => Err(fault_at(source, halt)),
    }
}

/// The tokens as the parser sees them.
fn lexemes(alloc: Global, source: &[u8], tokens: &[Token]) -> Result<Vec<Lexeme>, AllocError>
    requires { EachIsTokenOf source.now tokens.now }
    ensures { IfOk result (λ v. seen source.now v.items ≡ tokens_of source.now tokens.now) }
{
    let mut lexemes = Vec::with_capacity(alloc, tokens.len())?;
    for token in tokens {
        lexemes.push(Lexeme {
            terminal: classify(source, token),
            start: token.start,
            end: token.end,
            place: token.place,
        })?;
    }
    Ok(lexemes)
}

/// The program, where nothing stands after it.
fn finish(source: &[u8], found: Program, rest: &[Lexeme]) -> Result<Program, ParseFault>
    ensures { Finishes (program_of found) (seen source.now rest.now) result }
{
    match next(source, rest) {
        None => Ok(found),
        Some((first, _after)) => Err(ParseFault::Form(first.place)),
    }
}

/// The fault with its place.
fn fault_at(source: &[u8], halt: Unparsed) -> ParseFault
    requires { length source.now ≤ MAX_SOURCE_BYTES }
    ensures { IsPlaced source.now halt.entry result }
{
    match halt {
        Unparsed::Form(rest) => ParseFault::Form(place_at(source, rest)),
        Unparsed::Deep(rest) => ParseFault::Deep(place_at(source, rest)),
        Unparsed::NoMemory => ParseFault::NoMemory,
    }
}

/// The place where these tokens begin, or of the byte after the text's last.
fn place_at(source: &[u8], rest: &[Lexeme]) -> Place
    requires { length source.now ≤ MAX_SOURCE_BYTES }
    ensures { result ≡ place_at source.now (seen source.now rest.now) }
{
    match next(source, rest) {
        Some((first, _after)) => first.place,
        None => end_of(source),
    }
}

/// The place of the byte after the text's last.
fn end_of(source: &[u8]) -> Place
    requires { length source.now ≤ MAX_SOURCE_BYTES }
    ensures { result ≡ place_of source.now }
{
    let mut place = Place { line: 1, col: 1 };
    for byte in source {
        if *byte == b'\n' {
            place.line += 1;
            place.col = 1;
        } else {
            place.col += 1;
        }
    }
    place
}
