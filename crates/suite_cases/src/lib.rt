//! The cases of the conformance suite as values, and how they are read from the lines of a file,
//! whose form docs/TESTING.md describes. It knows what an assembler answers, and makes no call:
//! `tests_conformance` tries what is read here. Start with `case`, and with `reading`, which makes
//! cases of lines.
#![tactic(auto)]

mod case;
mod fault;
mod keywords;
mod numbers;
mod reading;
mod texts;
mod tokens;

pub use case::{Assembled, Case, Counts, Failing, Fronts, Output, Owed};
pub use fault::Fault;
pub use numbers::Range;
pub use reading::Reader;
