// What is refused, and why a call has nothing else to write.

ghost use Rattle.std.specs.Prelude.{◌≡◌};

use std::alloc::AllocError;
use table_text::TableFault;
use tp_value::{NoMemory, Place};
use tpal_asm::AsmFault;

/// The first fault of a source text, with its place.
#[derive(Clone, Copy, PartialEq, Eq, Debug)]
pub enum SourceFault {
    /// A byte outside the alphabet.
    Byte(Place),
    /// A literal above the greatest number.
    Range(Place),
    /// The first token at which no form of the grammar continues, or the place behind the text.
    Form(Place),
    /// A block or an expression that is too deep.
    Deep(Place),
}

/// What is refused.
#[derive(Drop)]
pub enum Refusal {
    /// Words that are not of the form.
    Words,
    /// A file above its limit, with its name.
    TooLong(String),
    /// A source text, for its first fault.
    Source(SourceFault),
    /// A program, for its first broken rule on names, limits, output and variables of loops.
    Rule {
        /// The rule's number.
        rule: u8,
        /// Where it is broken.
        place: Place,
    },
    /// A program that breaks none of these, for its first broken rule on parallel loops.
    Parallel {
        /// The rule's number.
        rule: u8,
        /// Where it is broken.
        place: Place,
    },
    /// A program with a statement for which there is no code yet.
    NotBuilt,
    /// A program whose code may have so many blocks, which are too many.
    Blocks(u64),
    /// A code text, for its first fault.
    Assembly(AsmFault),
    /// A code, for the first rule that it breaks.
    Break {
        /// The name of the block in which that is.
        name: Vec<u8>,
        /// The position there.
        at: u32,
        /// The rule's number.
        rule: u8,
    },
    /// A tables text, for its first fault.
    Tables(TableFault),
    /// A tables text without a table for the declared input of that name.
    Missing(Vec<u8>),
}

/// Why a call doesn't come to what its words ask for.
#[derive(Drop)]
pub enum CallFault {
    /// Something is refused.
    Refused(Refusal),
    /// A text could not be read, and the count of its name's faults rose.
    ReadFailed,
    /// There was no memory.
    NoMemory,
}

impl From<NoMemory> for CallFault {
    ghost use Rattle.std.specs.Prelude.{◌≡◌};
    ghost use Rattle.tpal_tool.specs.declared.refusal.CallFault.TheVariants.{NoMemory};

    ghost from_gives = { λ _ fault. fault ≡ NoMemory };

    fn from(_error: NoMemory) -> Self {
        CallFault::NoMemory
    }
}

impl From<AllocError> for CallFault {
    ghost use Rattle.std.specs.Prelude.{◌≡◌};
    ghost use Rattle.tpal_tool.specs.declared.refusal.CallFault.TheVariants.{NoMemory};

    ghost from_gives = { λ _ fault. fault ≡ NoMemory };

    fn from(_error: AllocError) -> Self {
        CallFault::NoMemory
    }
}
