//! The serial meaning of the loop language, as definitions that every theorem of the toolchain
//! speaks of, and a plain evaluator that is proved to be that meaning.
//! It stands on `loop_rules`. Start with `specs/Meaning.antt` and `specs/Statements.antt`; the
//! evaluator's entry is `plain_run`, which tests alone call.
#![tactic(auto)]

mod argument;
mod expression;
mod frame;
pub mod laws;
mod left;
mod memory;
mod number;
mod plain;
mod run;
mod setting;
mod simple;
mod value;

pub use frame::Frame;
pub use plain::plain_run;
pub use value::{Answer, Variable};
