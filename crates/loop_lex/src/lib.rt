//! The tokens of a source text: words, literals and signs, each with its span and its place.
//! It stands on `tp_value`. Start with `lex` in `lexer`; `token` has the types, and `bytes` tells
//! the bytes of the alphabet apart. `specs/Lexical` says what the tokens of a whole text are.
#![tactic(auto)]

mod bytes;
mod lexer;
mod token;

pub use lexer::lex;
pub use token::{LexFault, Token, TokenKind};
