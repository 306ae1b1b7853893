//! The five operators of a reduction: how each combines two numbers, and the unit that changes
//! nothing. Their laws, that they are associative, that the unit is neutral on both sides and that
//! numbers of 64 bits stay so, are what allows a loop to be cut anywhere and joined again.
//! It stands on tp_value alone, and nothing in it takes memory. Start with `operators`;
//! `by_operator` chooses among them.
#![tactic(auto)]

mod by_operator;
mod operators;
#[cfg(test)]
mod tests;

pub use by_operator::{combine, unit};
pub use operators::{AddOp, AffineOp, MaxOp, MinOp, MulOp, Reducer};
