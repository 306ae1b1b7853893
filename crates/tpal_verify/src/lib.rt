//! A verifier of code that was written by hand: `verify` accepts a flat code, or names the first
//! rule that it breaks. It stands on `tpal_syntax`, `tpal_machine` and `schedule_core`. `specs/`
//! has the definitions: kinds and shapes, the rules, one walk over a block, rounds up to the least
//! assignment of shapes, the first rule that a code breaks, and what a task holds where it fits its
//! shape. `laws` says how these hang together, and `safe_laws` that accepted code never goes wrong,
//! whatever the interleaving. `exec_run` runs accepted code by one worker, `specs/Exec.antt` says
//! what it comes to, and `exec_laws` what is so of each run. Start with `kinds`, `shape` and
//! `rules`; `walk` and `blocks` walk over a block, `rounds` finds the least assignment, `breaks`
//! what it breaks.
#![tactic(auto)]

mod agreement;
mod blocks;
mod board;
mod breaks;
mod combs;
mod exec;
mod exec_laws;
#[cfg(test)]
mod exec_tests;
mod fault;
mod flat;
mod kinds;
mod laws;
mod phases;
mod report;
mod rounds;
mod rules;
mod safe;
mod safe_laws;
mod shape;
#[cfg(test)]
mod tests;
mod trace;
mod walk;

pub use exec::exec_run;
pub use exec_laws::{exec_samples, runs_are_told};
pub use fault::VerifyFault;
pub use kinds::{EndFact, Kind, MarkFact};
pub use laws::{
    accepted_where_rules_are_met, flows_come_in_any_order, joins_are_least, least_assignment,
    samples,
};
pub use phases::Phase;
pub use report::{ExecEnd, ExecReport, MAX_STEPS};
pub use safe::{SafeCode, verify};
pub use safe_laws::{first_task_knows, no_step_goes_wrong, stays_sound, stuck_by_allowed};
pub use shape::Shape;
pub use trace::Trace;
