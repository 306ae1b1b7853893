// The word of a record. Bit 0 is taken, bit 1 open, bit 2 claimed, bit 3 left arrived and bit 4
// right arrived. From bit 8 on stands the end that the rest keeps, as its code. A free word is 0.

ghost use Rattle.std.specs.Prelude.{◌≡◌, ◌<◌, ◌^◌, ◌%◌, ◌/◌, ◌==◌};
ghost use Rattle.join_records.specs.Ends.{code_of};

use tpal_machine::{End, SideName};

/// The word of a record that was taken and isn't open.
pub(crate) const TAKEN: u64 = 1;

/// What the word of an open record has, beside the end that its rest keeps.
pub(crate) const OPENED: u64 = 3;

/// The bit of a child that was claimed.
pub(crate) const CLAIMED: u64 = 4;

/// The bit of a left side that arrived.
pub(crate) const LEFT_ARRIVED: u64 = 8;

/// The bit of a right side that arrived.
pub(crate) const RIGHT_ARRIVED: u64 = 16;

/// What one more in the code of an end adds to a word.
pub(crate) const END_STEP: u64 = 256;

/// The number that stands for an end in a word: 0 for Root, else 1 + 2 * record, and one more for
/// the right end.
pub(crate) fn end_code(end: End) -> u64
    ensures code { result ≡ code_of end }
    ensures small { result < 2 ^ 34 }
{
    match end {
        End::Root => 0,
        End::At {
            rec,
            side: SideName::Left,
        } => 1 + 2 * u64::from(rec),
        End::At {
            rec,
            side: SideName::Right,
        } => 2 + 2 * u64::from(rec),
    }
}

/// Whether the record of a word is open and its child unclaimed.
pub(crate) fn is_claimable(word: u64) -> bool
    ensures { result ≡ (word % 8 == 3) }
{
    word % 8 == 3
}

/// Whether the right side has yet to arrive.
pub(crate) fn lacks_right(word: u64) -> bool
    ensures { result ≡ (word / 16 % 2 == 0) }
{
    word / RIGHT_ARRIVED % 2 == 0
}

/// Whether the left side has yet to arrive.
pub(crate) fn lacks_left(word: u64) -> bool
    ensures { result ≡ (word / 8 % 2 == 0) }
{
    word / LEFT_ARRIVED % 2 == 0
}
