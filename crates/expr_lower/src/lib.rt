//! The code of expressions: the blocks that leave an expression's value in a register, or trap as
//! the serial meaning traps. It stands on the trees of `loop_syntax` and on the code types of
//! `tpal_syntax`. Contracts speak of the steps of `tpal_machine` and of the values of
//! `loop_meaning`. Start with `expression`; `operators` and `cells` have the instructions behind
//! those of operands.
#![tactic(auto)]

mod cells;
mod expression;
mod operators;
mod registers;
mod scope;
mod sizes;
mod traps;

pub use cells::push_range_tests;
pub use expression::{Operation, Site, lower_expr, push_binary, push_expr};
pub use operators::literal;
pub use registers::{BASE, LAST_LEFT, VALUES};
pub use scope::{Scope, home_of, offset_of, register_of, table_number};
pub use sizes::trap_count;
pub use traps::{name_of, push_trap};
