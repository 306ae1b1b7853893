// Why a text has no code.

ghost use Rattle.std.specs.Prelude.{◌≡◌};
ghost use Rattle.tpal_asm.specs.Faults.{fault_at};

use std::alloc::{AllocError, AllocFailed};
use tp_value::NoMemory;

/// Why a text is no code text, with the line, from 1, at which that shows first. Where a line has
/// two faults, the one that stands first here is named.
#[derive(Clone, Copy, PartialEq, Eq, Debug)]
pub enum AsmFault {
    /// A line that isn't of the grammar where it stands, breaks a condition on notes, repeats the
    /// name of an input or names a table that the text doesn't have; or a line or its end is
    /// missing.
    Form(u32),
    /// A block's name that stood before, or a label that is no block's name.
    Label(u32),
    /// The 65,537th block or the 17th table.
    Limit(u32),
    /// Memory was wanting.
    NoMemory,
}

impl From<NoMemory> for AsmFault {
    ghost use Rattle.std.specs.Prelude.{◌≡◌};
    ghost use Rattle.tpal_asm.specs.declared.fault.AsmFault.TheVariants as faults;

    ghost from_gives = { λ _ fault. fault ≡ faults.NoMemory };

    fn from(_error: NoMemory) -> AsmFault {
        AsmFault::NoMemory
    }
}

/// What is wrong with a line.
#[derive(Clone, Copy, PartialEq, Eq, Debug)]
pub enum Wrong {
    Form,
    Label,
    Limit,
    NoMemory,
}

impl From<NoMemory> for Wrong {
    ghost use Rattle.std.specs.Prelude.{◌≡◌};
    ghost use Rattle.tpal_asm.specs.declared.fault.Wrong.TheVariants as wrongs;

    ghost from_gives = { λ _ wrong. wrong ≡ wrongs.NoMemory };

    fn from(_error: NoMemory) -> Wrong {
        Wrong::NoMemory
    }
}

impl From<AllocError> for Wrong {
    ghost use Rattle.std.specs.Prelude.{◌≡◌};
    ghost use Rattle.tpal_asm.specs.declared.fault.Wrong.TheVariants as wrongs;

    ghost from_gives = { λ _ wrong. wrong ≡ wrongs.NoMemory };

    fn from(_error: AllocError) -> Wrong {
        Wrong::NoMemory
    }
}

impl<T: Drop> From<AllocFailed<T>> for Wrong {
    ghost use Rattle.std.specs.Prelude.{◌≡◌};
    ghost use Rattle.tpal_asm.specs.declared.fault.Wrong.TheVariants as wrongs;

    ghost from_gives = { λ _ wrong. wrong ≡ wrongs.NoMemory };

    fn from(_error: AllocFailed<T>) -> Wrong {
        Wrong::NoMemory
    }
}

/// The fault of the line of that number.
pub fn at_line(wrong: Wrong, line: u32) -> AsmFault
    ensures { result ≡ fault_at wrong line }
{
    match wrong {
        Wrong::Form => AsmFault::Form(line),
        Wrong::Label => AsmFault::Label(line),
        Wrong::Limit => AsmFault::Limit(line),
        Wrong::NoMemory => AsmFault::NoMemory,
    }
}
