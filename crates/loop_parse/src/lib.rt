//! The parser: from the tokens of a text to its one tree, or the first place where the text isn't
//! of the form or is too deep. It stands on `loop_lex`, `loop_syntax` and `tp_value`. Start with
//! `parse`; `specs/Grammar` is the grammar, and `specs/Text` says what a whole text is.
#![tactic(auto)]

mod declaration;
mod expression;
mod lists;
mod parallel;
mod parser;
mod reader;
mod simple;
mod statement;
mod terminal;

pub use parser::{ParseFault, parse};
