// Where texts come from.

ghost use Rattle.std.specs.Prelude.{◌≡◌, ◌<◌, ◌≤◌, ℕ, List, Option, length, IfOk, IfSome, IsErrOf};
ghost use Rattle.tpal_tool.specs.Shelf.{HasRisen};
ghost use Rattle.tpal_tool.specs.declared.shelf.ShelfFault.TheVariants.{NoMemory};

use std::alloc::{AllocError, Global};

/// Why a fetch gives no text.
#[derive(Clone, Copy, PartialEq, Eq, Debug)]
pub enum ShelfFault {
    /// The text could not be had, and the count of the name's faults rose.
    Failed,
    /// The text has more bytes than the limit.
    Long,
    /// There was no memory for the text.
    NoMemory,
}

impl From<AllocError> for ShelfFault {
    ghost from_gives = { λ _ fault. fault ≡ NoMemory };

    fn from(_error: AllocError) -> Self {
        ShelfFault::NoMemory
    }
}

/// A place that texts are fetched from by name.
pub trait Shelf {
    /// The text of a name, where the shelf tells it. `None` claims nothing.
    ghost text: { Self → List ℕ → Option (List ℕ) };

    /// How many fetches of a name have failed.
    ghost faults: { Self → List ℕ → ℕ };

    /// The text of a name, of at most `limit` bytes.
    fn fetch(&mut self, alloc: Global, name: &str, limit: u32) -> Result<Vec<u8>, ShelfFault>
        ensures told { IfOk result
            (λ bytes. IfSome (text self.old name.now) (λ told. bytes.items ≡ told)) }
        ensures within { IfOk result (λ bytes. length bytes.items ≤ limit) }

        ensures failed { IsErrOf result ShelfFault.Failed
            → HasRisen (faults self.old name.now) (faults self.new name.now) }
        ensures long { IsErrOf result ShelfFault.Long
            → IfSome (text self.old name.now) (λ told. limit < length told) }

        ensures texts { (other : List ℕ) → text self.new other ≡ text self.old other }
        ensures counts { (other : List ℕ) → faults self.old other ≤ faults self.new other };
}
