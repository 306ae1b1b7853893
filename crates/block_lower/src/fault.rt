// Why a program has no code.

use tp_value::NoMemory;

/// Why a program has no code.
#[derive(Clone, Copy, PartialEq, Eq, Debug)]
pub enum LowerFault {
    /// It may have this many blocks, which is more than the 65,536 that a code can have.
    Blocks(u64),
    /// Memory is wanting.
    NoMemory,
}

impl From<NoMemory> for LowerFault {
    ghost use Rattle.std.specs.Prelude.{◌≡◌};
    ghost use Rattle.block_lower.specs.declared.fault.LowerFault.TheVariants.{NoMemory};

    ghost from_gives = { λ _ fault. fault ≡ NoMemory };

    fn from(_error: NoMemory) -> Self {
        LowerFault::NoMemory
    }
}
