// Tokens and the faults of a text.

use std::alloc::{AllocError, AllocFailed};
use tp_value::Place;

/// What a token is.
#[derive(Clone, Copy, PartialEq, Eq, Debug)]
pub enum TokenKind {
    /// A literal, with its value, from 0 up.
    Int(i64),
    /// A reserved word or a name.
    Word,
    /// A sign of one or two bytes.
    Sign,
}

/// A token of a text.
#[derive(Clone, Copy, PartialEq, Eq, Debug)]
pub struct Token {
    /// What it is.
    pub kind: TokenKind,
    /// The number of its first byte in the text, from 0.
    pub start: u32,
    /// The number of the byte after its last.
    pub end: u32,
    /// The place of its first byte.
    pub place: Place,
}

/// Why a text has no tokens, or none could be given.
#[derive(Clone, Copy, PartialEq, Eq, Debug)]
pub enum LexFault {
    /// E1: at this place stands a byte outside a comment that can begin no token.
    Byte(Place),
    /// E2: at this place begins a literal above the greatest number.
    Range(Place),
    /// There was no memory.
    NoMemory,
}

impl From<AllocError> for LexFault {
    ghost use Rattle.std.specs.Prelude.{◌≡◌};
    ghost use Rattle.loop_lex.specs.declared.token.LexFault.TheVariants.{NoMemory};

    ghost from_gives = { λ _ fault. fault ≡ NoMemory };

    fn from(_error: AllocError) -> Self {
        LexFault::NoMemory
    }
}

impl<T: Drop> From<AllocFailed<T>> for LexFault {
    ghost use Rattle.std.specs.Prelude.{◌≡◌};
    ghost use Rattle.loop_lex.specs.declared.token.LexFault.TheVariants.{NoMemory};

    ghost from_gives = { λ _ fault. fault ≡ NoMemory };

    fn from(_failed: AllocFailed<T>) -> Self {
        LexFault::NoMemory
    }
}
