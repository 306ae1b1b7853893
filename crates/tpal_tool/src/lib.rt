//! The program's top call, and the outside that it works on: the words of a call, texts that are
//! fetched by name from a shelf, bytes that are written to a sink, refusals and statuses. Shelf and
//! sink are traits whose ghost members are their meaning: texts and bytes where they are told, and
//! a count of faults, without which neither may fail. It stands on the front of the compiler, the
//! machine and the meaning. Start with `tool`, whose contract says what a call writes and answers;
//! `specs/Owed.antt` has the definitions that it cites.
//!
//! `tool` leads a call down one road, and each of its modules names only those before it: `words`,
//! `fetching`, `parsing`, `judging`, `inputs`, `preparing`, which calls these, `running`, `texts`
//! and `writing`. A run of a code goes by `code_judging`, `code_inputs` and `exec_preparing` where
//! that of a program goes by `judging`, `inputs` and `preparing`. What they hand on stands in
//! modules of types alone: `request`, `refusal`, `prepared`, `answer` and `status`. `laws` has what
//! holds of all runs of a code.
#![tactic(auto)]

mod answer;
mod code_inputs;
mod code_judging;
mod exec_preparing;
mod exec_text;
mod fetching;
mod files;
mod inputs;
mod judging;
mod laws;
mod lines;
mod outcome_text;
mod parsing;
mod prepared;
mod preparing;
mod refusal;
mod request;
mod running;
mod shelf;
mod shelves;
mod sink;
mod sinks;
mod standard_output;
mod status;
mod texts;
mod tool;
mod words;
mod writing;

pub use files::FileShelf;
pub use laws::a_code_comes_to_one_report;
pub use shelf::{Shelf, ShelfFault};
pub use shelves::{MemShelf, SureShelf};
pub use sink::{Sink, SinkFault};
pub use sinks::MemSink;
pub use standard_output::OutSink;
pub use status::Status;
pub use tool::{asks_for_many, tpal, tpal_alone};

#[cfg(test)]
mod input_tests;
#[cfg(test)]
mod writing_tests;
