//! Join records: the two sides of each fork meet at a record, by single atomic steps on its word.
//! No call locks or waits, and none but `Records::new` takes memory. It stands on `atomic_table`,
//! whose rule holds between any two steps of any number of threads, and takes ends and sides from
//! `tpal_machine`. What lies in a record is any `Load`. `specs/Rule.antt` is the rule,
//! `specs/Steps.antt` what each kind of step tells, and `specs/Answers.antt` what the calls answer.
//! Start with `load`, then `table`; each call has a module.
#![tactic(auto)]

mod arrive_side;
mod claim_child;
mod close_table;
mod find_record;
mod free_record;
mod load;
mod make_table;
mod open_record;
mod rule;
mod slot;
mod table;
mod views;
mod word;

pub use load::Load;
pub use slot::Item;
pub use table::{Arrival, Closed, Met, Pass, Records, Taken};
pub use views::{CallState, Grip, Holding, View};

#[cfg(test)]
mod stress;
#[cfg(test)]
mod tests;
