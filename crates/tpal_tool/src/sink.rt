// Where bytes go.

ghost use Rattle.std.specs.Prelude.{◌≡◌, ◌≤◌, ℕ, List, [], Option, OnOk, IsErrOf};
ghost use Rattle.tpal_tool.specs.Shelf.{HasRisen};
ghost use Rattle.tpal_tool.specs.Sink.{Appended, PrefixAppended};
ghost use Rattle.tpal_tool.specs.declared.sink.SinkFault.TheVariants.{NoMemory};

use std::alloc::AllocError;

/// Why a write doesn't take all its bytes.
#[derive(Clone, Copy, PartialEq, Eq, Debug)]
pub enum SinkFault {
    /// Some of the bytes could not be written, and the count of faults rose.
    Failed,
    /// There was no memory for them, and none was written.
    NoMemory,
}

impl From<AllocError> for SinkFault {
    ghost from_gives = { λ _ fault. fault ≡ NoMemory };

    fn from(_error: AllocError) -> Self {
        SinkFault::NoMemory
    }
}

/// A place that bytes are written to, one piece after another.
pub trait Sink {
    /// The bytes written so far, where the sink tells them. `None` claims nothing.
    ghost written: { Self → Option (List ℕ) };

    /// How many writes have failed.
    ghost faults: { Self → ℕ };

    /// Writes a piece. A sink that tells its bytes goes on telling them, whatever it answers.
    fn write(&mut self, piece: &[u8]) -> Result<(), SinkFault>
        ensures appended { OnOk result (Appended (written self.old) (written self.new) piece.now) }

        ensures failed { IsErrOf result SinkFault.Failed
            → HasRisen (faults self.old) (faults self.new) }
        ensures prefix { IsErrOf result SinkFault.Failed
            → PrefixAppended (written self.old) (written self.new) piece.now }
        ensures no_memory { IsErrOf result SinkFault.NoMemory
            → Appended (written self.old) (written self.new) [] }

        ensures count { faults self.old ≤ faults self.new };
}
