//! The assembler: from a code text to its code, or to its first fault. It stands on `tpal_syntax`,
//! which says what the text of a code is, and on `tpal_print`, whose laws read a text back.
//! Start with `assemble`, which takes two passes over the lines: `labels` gathers the names of the
//! blocks, and `steps` goes from what the lines so far say (`drafts`) to the next draft, or to what
//! is wrong with the line (`fault`). `lines` cuts the text; `parts`, `instructions` and `notes`
//! read one line. `specs/Faults.antt` says what the first fault of a text is.
#![tactic(auto)]

mod assembling;
mod drafts;
mod fault;
mod instructions;
mod labels;
mod laws;
mod lines;
mod notes;
mod parts;
mod steps;

pub use assembling::assemble;
pub use fault::AsmFault;
pub use laws::text_is_read_one_way;
