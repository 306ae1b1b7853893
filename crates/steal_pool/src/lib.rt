//! The pool: 1 to 16 workers run the tasks of a code, and each that has nothing takes over a part
//! of what another does. It stands on `tpal_machine`, which runs one task, on `join_records`, where
//! the two sides of a fork meet, and on deques through which the numbers of open records are handed
//! on.
//! Which worker runs what is chance; the outcome isn't. Start with `pool`, then `turn`, what a
//! worker does at a time; `specs/Has.antt` says what a worker has between two turns.
#![tactic(auto)]

mod crew;
mod deques;
mod desk;
mod gate;
mod gather;
mod idling;
mod load;
mod other;
mod plan;
mod pool;
mod settling;
mod source;
mod turn;

pub use gate::{Gate, GateEvent, NoGate};
pub use pool::pool_run;
