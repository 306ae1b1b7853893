//! The types of a code: words, instructions, blocks with their notes, whole codes, and the sites of
//! loops and calls from which handlers and joins are made. It stands on `tp_value`.
//! A `Code` meets all conditions on codes: `Code::new` is the only way to one. `specs/` says what
//! these conditions are, and what the one text of a code is in each version. A code has its
//! instructions a second time as `ops`, which the machine reads. Start with `instructions` and
//! `blocks`.
#![tactic(auto)]

// The types of a code.
mod blocks;
mod codes;
mod instructions;
mod notes;
mod sites;
mod versions;
mod words;

// Whether lists of tables and blocks are a code.
mod conditions;
mod names;
mod parts;

// The fast road: the instructions of a code a second time, as ops.
mod ops;

pub use blocks::{Block, CodeTable};
pub use codes::Code;
pub use conditions::is_target;
pub use instructions::{Alu, Instr, Term, Value};
pub use notes::{CarryAt, CutKind, Note, Target};
pub use ops::{Flat, Op, OpRange};
pub use parts::{is_instr, is_term};
pub use sites::{CallSite, LeafSite, LoopSite};
pub use versions::Version;
pub use words::Word;
