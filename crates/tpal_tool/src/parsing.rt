// From a source text to its tree, or its first fault.

ghost use Rattle.std.specs.Prelude.{◌≤◌, IfErr, IfOk, length};
ghost use Rattle.loop_lex.specs.Lexical.{AreTokensOf};
ghost use Rattle.tpal_tool.specs.Answering.{IsFaultOf, RefusesSource};
ghost use Rattle.tpal_tool.specs.Parsing.{ParsesAs};

use crate::refusal::{CallFault, Refusal, SourceFault};
use loop_lex::{LexFault, Token, lex};
use loop_parse::{ParseFault, parse};
use loop_syntax::Program;
use std::alloc::Global;
use tp_value::MAX_SOURCE_BYTES;

/// The tokens of a source text.
fn tokens_of(alloc: Global, source: &[u8]) -> Result<Vec<Token>, CallFault>
    requires { length source.now ≤ MAX_SOURCE_BYTES }
    ensures tokens { IfOk result (λ tokens. AreTokensOf source.now tokens.items) }
    ensures fault { IfErr result (IsFaultOf (RefusesSource source.now) ⊥) }
{
    match lex(alloc, source) {
        Ok(tokens) => Ok(tokens),
        Err(LexFault::Byte(place)) => {
            Err(CallFault::Refused(Refusal::Source(SourceFault::Byte(place))))
        }
        Err(LexFault::Range(place)) => {
            Err(CallFault::Refused(Refusal::Source(SourceFault::Range(place))))
        }
        Err(LexFault::NoMemory) => Err(CallFault::NoMemory),
    }
}

/// Reads a source text: first its tokens, then their tree.
pub fn parse_source(alloc: Global, source: &[u8]) -> Result<Program, CallFault>
    requires { length source.now ≤ MAX_SOURCE_BYTES }
    ensures parses { IfOk result (ParsesAs source.now) }
    ensures fault { IfErr result (IsFaultOf (RefusesSource source.now) ⊥) }
{
    let tokens = tokens_of(alloc, source)?;
    match parse(alloc, source, &tokens) {
        Ok(program) => Ok(program),
        Err(ParseFault::Form(place)) => {
            Err(CallFault::Refused(Refusal::Source(SourceFault::Form(place))))
        }
        Err(ParseFault::Deep(place)) => {
            Err(CallFault::Refused(Refusal::Source(SourceFault::Deep(place))))
        }
        Err(ParseFault::NoMemory) => Err(CallFault::NoMemory),
    }
}
