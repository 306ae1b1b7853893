//! The printer: the text of a code, in version 2 or in version 1. It stands on `tpal_syntax`, which
//! says what these texts are. Start with `print_code`. `headers` writes the first line of a text,
//! the lines of tables and the first lines of blocks, `instructions` their other lines, `parts` the
//! numbers, registers and operands in them. `laws` says that a text has at most one code; its proof
//! reads each text back.
#![tactic(auto)]

mod headers;
mod instructions;
mod laws;
mod parts;
mod printing;

pub use laws::one_code_a_text;
pub use printing::{print_code, print_code_1};

#[cfg(test)]
mod tests;
