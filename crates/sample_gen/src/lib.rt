//! Large samples: a source that sums, folds and squares the cells of one table, and a tables text
//! whose cells follow from a seed by a generator of 32 bits.
//! It stands on tp_value, on table_text for the lines of rows, and on itoa for digits. Start with
//! `sampling`; `generator` has the states and cells, `texts` both texts. `laws` says that samples
//! keep within the limits of texts.
#![tactic(auto)]

mod generator;
pub mod laws;
mod sampling;
#[cfg(test)]
mod tests;
mod texts;

pub use sampling::{MAX_SAMPLE_CELLS, sample, sample_of};
pub use texts::Sample;
