//! The rules of the loop language, each as the set of the places where a program breaks it, and
//! `resolve`, which finds the first broken rule on names, limits and loop variables.
//! It stands on `loop_syntax`. Start with `specs/Broken.antt`; `specs/Sites.antt` is the walk that
//! all rules share.
#![tactic(auto)]

mod declaration;
mod declared;
mod expression;
mod fault;
mod function;
pub mod laws;
mod part;
mod resolved;
mod rule;
mod scope;
mod spot;
mod statement;
mod whole;

pub use fault::{Fault, note_if};
pub use part::Part;
pub use resolved::{Resolved, RuleFault, resolve};
pub use rule::Rule;
