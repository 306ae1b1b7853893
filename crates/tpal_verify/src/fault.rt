// Why a code is not accepted.

/// Why a code isn't accepted.
#[derive(Clone, Copy, PartialEq, Eq, Debug)]
pub enum VerifyFault {
    /// The first break: of the rule with this number, 1 to 7, in this block, at this position. The
    /// position of an instruction is its place in the body, that of the block's end the number of
    /// instructions, and that of the note 0.
    Broken {
        /// The rule.
        rule: u8,
        /// The block.
        block: u32,
        /// The position.
        at: u32,
    },
    /// No memory, or a body whose positions don't fit into 32 bits.
    NoMemory,
}
