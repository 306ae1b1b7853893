// Visible variables, and what an expression answers.

use tp_value::{Items, Place, TrapKind};

/// A visible variable.
#[derive(Drop)]
pub struct Variable {
    /// The name's bytes.
    pub name: Items<u8>,
    /// Its value.
    pub value: i64,
}

/// The number of an expression, or its trap.
#[derive(Clone, Copy, PartialEq, Eq, Debug)]
pub enum Answer {
    /// The number.
    Number(i64),
    /// The kind of the trap, and its place.
    Traps(TrapKind, Place),
}
