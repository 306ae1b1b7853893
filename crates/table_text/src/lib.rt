//! The text of tables: reading it into tables, and writing a row of numbers as a line.
//! It stands on tp_value, and on itoa for digits. Start with `reading`, which goes from the text to
//! its tables; `word` has the tokens, `head` the first tokens of a table, `number` and `cells` its
//! numbers. `laws` says that a text is read in one way only.
#![tactic(auto)]

mod cells;
mod fault;
mod head;
/// Laws of tables texts.
pub mod laws;
mod names;
mod number;
mod reading;
mod row_text;
#[cfg(test)]
mod tests;
mod word;

pub use fault::TableFault;
pub use reading::read_tables;
pub use row_text::push_row_text;
