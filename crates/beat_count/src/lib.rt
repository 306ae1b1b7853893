//! How often a task may be diverted and how long a run may go on: `Beat` counts instructions
//! between diversions, `Fuel` counts ticks against a limit, and `join_stops` says how two halves
//! of a run stop together.
//! It stands on tp_value alone, and nothing in it takes memory. Start with `heartbeat`.
#![tactic(auto)]

mod heartbeat;
mod joining;
#[cfg(test)]
mod tests;
mod ticks;

pub use heartbeat::Beat;
pub use joining::join_stops;
pub use ticks::Fuel;
