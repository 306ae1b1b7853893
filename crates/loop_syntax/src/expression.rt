// Names and expressions.

use tp_value::Place;

/// A name where it stands in the text.
#[derive(Drop)]
pub struct Name {
    /// The name's bytes.
    pub text: Vec<u8>,
    /// Its first byte.
    pub place: Place,
}

/// An operator between two expressions.
#[derive(Clone, Copy, PartialEq, Eq, Debug)]
pub enum BinOp {
    /// `+`, wrapped.
    Add,
    /// `-`, wrapped.
    Sub,
    /// `*`, wrapped.
    Mul,
    /// `/`, truncated toward zero.
    Div,
    /// `%`, the remainder of `/`.
    Rem,
    /// `==`, 1 or 0.
    Eq,
    /// `!=`, 1 or 0.
    Ne,
    /// `<`, 1 or 0.
    Lt,
    /// `<=`, 1 or 0.
    Le,
    /// `>`, 1 or 0.
    Gt,
    /// `>=`, 1 or 0.
    Ge,
}

/// An expression.
#[derive(Drop)]
pub enum Expr {
    /// A literal, at its first digit.
    Int(i64, Place),
    /// A variable.
    Var(Name),
    /// A cell: the table, the row and the column.
    Cell(Name, Box<Expr>, Box<Expr>),
    /// The number of rows of a table, at the table's name.
    Rows(Name),
    /// The number of columns of a table, at the table's name.
    Cols(Name),
    /// A negated expression, at the sign.
    Neg(Box<Expr>, Place),
    /// Two expressions with an operator, at the operator.
    Bin(BinOp, Place, Box<Expr>, Box<Expr>),
}
