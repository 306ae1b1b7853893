// The registers behind those of values, which the blocks round a cut use.

/// The register of the record: that of a cut, and that of a side where it ends.
pub const RECORD: u8 = 24;

/// The register of the place of a cut.
pub const MIDDLE: u8 = 25;

/// The register of the right side's record where both sides have met.
pub const OTHER_RECORD: u8 = 25;

/// The register of the next iteration that isn't begun.
pub const NEXT: u8 = 26;

/// The register with the next iteration of a leaf loop: while one runs, its number.
pub const LEAF_CURSOR: u8 = 24;

/// The register with the end of a leaf loop.
pub const LEAF_BOUND: u8 = 25;

/// The register with the first accumulator of a leaf loop.
pub const LEAF_FIRST_ACC: u8 = 26;

/// The register of a test.
pub const TEST: u8 = 27;

/// The register with the position of the activation that is cut.
pub const CUT: u8 = 28;

/// The register with the label of the handler of the oldest mark.
pub const SPLIT: u8 = 29;

/// The register with the label of the block that a beat interrupted.
pub const BACK: u8 = 30;
