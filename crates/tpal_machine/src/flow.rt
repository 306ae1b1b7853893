// What one instruction comes to, before the turn acts on it.

use crate::faults::Fault;
use std::alloc::{AllocError, AllocFailed};
use tp_value::{NoMemory, Stop};

/// Why an instruction that takes memory wasn't executed.
#[derive(Clone, Copy, PartialEq, Eq, Debug)]
pub enum Trouble {
    /// The task is stuck.
    Stuck(Fault),
    /// Memory is wanting.
    NoMemory,
}

impl From<NoMemory> for Trouble {
    ghost use Rattle.std.specs.Prelude.{◌≡◌};
    ghost use Rattle.tpal_machine.specs.declared.flow.Trouble.TheVariants as trouble;

    ghost from_gives = { λ _ r. r ≡ trouble.NoMemory };

    fn from(_error: NoMemory) -> Self {
        Trouble::NoMemory
    }
}

impl From<AllocError> for Trouble {
    ghost use Rattle.std.specs.Prelude.{◌≡◌};
    ghost use Rattle.tpal_machine.specs.declared.flow.Trouble.TheVariants as trouble;

    ghost from_gives = { λ _ r. r ≡ trouble.NoMemory };

    fn from(_error: AllocError) -> Self {
        Trouble::NoMemory
    }
}

impl<T: Drop> From<AllocFailed<T>> for Trouble {
    ghost use Rattle.std.specs.Prelude.{◌≡◌};
    ghost use Rattle.tpal_machine.specs.declared.flow.Trouble.TheVariants as trouble;

    ghost from_gives = { λ _ r. r ≡ trouble.NoMemory };

    fn from(_error: AllocFailed<T>) -> Self {
        Trouble::NoMemory
    }
}

impl From<Fault> for Trouble {
    ghost use Rattle.std.specs.Prelude.{◌≡◌};
    ghost use Rattle.tpal_machine.specs.declared.flow.Trouble.TheVariants as trouble;

    ghost from_gives = { λ fault r. r ≡ trouble.Stuck fault };

    fn from(fault: Fault) -> Self {
        Trouble::Stuck(fault)
    }
}

/// What an instruction that may stop the task came to.
#[derive(Clone, Copy, PartialEq, Eq, Debug)]
pub enum Progress {
    /// The task goes on.
    Goes,
    /// The task ends by this stop.
    Stops(Stop),
    /// The task is stuck.
    Fails(Fault),
    /// Memory is wanting.
    NoMemory,
}

/// What a step came to.
#[derive(Clone, Copy, PartialEq, Eq, Debug)]
pub enum Flow {
    /// The task goes on.
    Goes,
    /// The task was diverted, and goes on.
    Beats,
    /// The task ends by this stop.
    Stops(Stop),
    /// The task waits for a join record.
    Asks,
    /// The task is at a fork under the record in a register, with the child's first block.
    Forks { rec: u8, child: u32 },
    /// The task is stuck.
    Stuck(Fault),
    /// Memory is wanting.
    NoMemory,
}
