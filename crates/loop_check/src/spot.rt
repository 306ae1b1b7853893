// Where a walk stands.

use crate::round::Round;

/// What is visible at a place, and what is round it.
#[derive(Drop)]
pub struct Spot<'a, 'b> {
    /// The visible variables, in the order of their declarations.
    pub scope: Vec<&'a [u8]>,
    /// Those of them that are a loop's.
    pub loops: Vec<&'a [u8]>,
    /// The `par` loops round, nearest first.
    pub rounds: &'b [Round<'b>],
}
