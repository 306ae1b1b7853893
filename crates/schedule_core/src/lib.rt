//! The core of all interleavings: what the workers of a run may do, one event at a time, as a pure
//! machine. It stands on `tpal_machine`, which runs one task, and takes from it what a step, an
//! answer and a merge give. Start with `specs/Core.antt`, the table of events, and
//! `specs/Sound.antt`, what holds between them.
#![tactic(auto)]

mod applying;
mod config;
mod enabled;
mod ends;
mod event;
mod first;
mod job;
mod lanes;
pub mod laws;
mod records;
mod seats;
mod solo;
pub mod solo_laws;
mod stepping;

pub use applying::apply;
pub use config::Config;
pub use event::{ApplyFault, Event};
pub use job::{Job, Report};
pub use lanes::{Opened, SoloState, Tally};
pub use solo::{go_on, in_range, solo_run, turned};
