//! The rules on tables and variables in parallel loops, and the law that they give: no iteration
//! writes a cell that another one touches. It stands on `loop_rules` and `loop_meaning`.
//! Start with `laws`.
#![tactic(auto)]

mod checked;
mod clauses;
mod expression;
pub mod laws;
mod leaves;
mod names;
mod reader;
mod readers;
mod round;
mod shape;
mod spot;
mod statement;
mod usage;
mod whole;

pub use checked::{Checked, check};
