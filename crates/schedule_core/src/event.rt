// What may happen in a configuration.

use crate::config::Config;
use tpal_machine::Fault;

/// An event. The first number is the worker's, from 0; that of a claim names the record too.
#[derive(Clone, Copy, PartialEq, Eq, Debug)]
pub enum Event {
    /// The worker's task executes one instruction.
    Step(u32),
    /// The worker, whose task has just forked, opens the record.
    Open(u32),
    /// The worker, which has nothing, takes the child of an open record.
    Claim(u32, u32),
    /// The worker's task, which ended at a record, arrives there.
    Arrive(u32),
    /// The worker frees the record that both sides have met.
    Free(u32),
    /// The worker's task, which ended the run, gives its outcome.
    Finish(u32),
}

/// Why an event gives no configuration.
#[derive(Drop)]
pub enum ApplyFault {
    /// The event can't happen in this configuration, which comes back unchanged.
    NotEnabled(Config),
    /// The next instruction of the worker's task is stuck.
    Stuck(Fault),
    /// Memory is wanting; the configuration is gone.
    NoMemory,
}
