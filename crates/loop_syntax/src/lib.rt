//! The tree of a source text: programs, declarations, functions, statements and expressions, with
//! the places that faults and traps name. It stands on `tp_value`. Start with `program`; brackets
//! leave no node, and a bracketed expression is the one inside.
#![tactic(auto)]

mod expression;
mod program;
mod statement;

pub use expression::{BinOp, Expr, Name};
pub use program::{Func, Program, TableDecl};
pub use statement::{App, Carry, ParLoop, Reduce, RowAt, Stmt, operator_of};
