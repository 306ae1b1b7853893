// The registers that the code of expressions uses. Those of values come first, as many as an
// expression may be high.

use tp_value::MAX_EXPRESSION_HEIGHT;

/// How many registers hold values of expressions, from 0 on.
pub const VALUES: u8 = MAX_EXPRESSION_HEIGHT as u8;

/// The last register in which a left operand may be: the right one's is the next, and the last of
/// those of values.
pub const LAST_LEFT: u8 = VALUES - 2;

/// The registers of an operator or of the read of a cell: the one for its value, and those where
/// its two operands, or its row and its column, stand.
#[derive(Clone, Copy)]
pub struct Places {
    pub to: u8,
    pub left: u8,
    pub right: u8,
}

/// The register with the position of the activation that runs.
pub const BASE: u8 = 31;
