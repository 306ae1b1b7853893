//! Stacks of a task: cells of words, and marks on cells where work may be cut off. A stack is seen
//! as its base, the list of its cells and the list of its marks, the oldest first. It stands on
//! `tp_value` and `tpal_syntax`. Start with `cells`, which has the type; `marks` has the calls on
//! marks, `links` the links between marked cells by which they are found, and `cuts` cuts a stack
//! at an activation.
#![tactic(auto)]

mod cells;
mod cuts;
mod links;
mod mark;
mod marks;

pub use cells::Stack;
pub use cuts::{Cut, in_order};
pub use mark::{Mark, StackFault};
