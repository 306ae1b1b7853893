// What is wrong with a tables text.

use std::alloc::{AllocError, AllocFailed};

/// Why a tables text has no tables, with the byte, from 0, at which that shows.
#[derive(Clone, Copy, PartialEq, Eq, Debug)]
pub enum TableFault {
    /// The first token that doesn't fit, or the text's length where a token is missing.
    Form(u64),
    /// A number of rows or columns that is too great, or that of the columns with which all tables
    /// together would have too many cells.
    Cells(u64),
    /// A name that stood before.
    Repeated(u64),
    /// Memory was wanting.
    NoMemory,
}

impl From<AllocError> for TableFault {
    ghost use Rattle.std.specs.Prelude.{◌≡◌};
    ghost use Rattle.table_text.specs.declared.fault.TableFault.TheVariants.{NoMemory};

    ghost from_gives = { λ _ fault. fault ≡ NoMemory };

    fn from(_error: AllocError) -> TableFault {
        TableFault::NoMemory
    }
}

impl<T: Drop> From<AllocFailed<T>> for TableFault {
    ghost use Rattle.std.specs.Prelude.{◌≡◌};
    ghost use Rattle.table_text.specs.declared.fault.TableFault.TheVariants.{NoMemory};

    ghost from_gives = { λ _ fault. fault ≡ NoMemory };

    fn from(_error: AllocFailed<T>) -> TableFault {
        TableFault::NoMemory
    }
}
