// The parts of a fork.

use crate::rest::Kept;
use crate::task::Machine;

/// The task that goes on, the rest and the new task.
#[derive(Drop)]
pub(crate) struct ForkParts {
    pub(crate) left: Box<Machine>,
    pub(crate) rest: Kept,
    pub(crate) child: Box<Machine>,
}
