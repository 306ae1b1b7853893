// What a walk over a block finds, besides what flows from it.

use crate::kinds::Kind;
use crate::shape::Shape;
use tp_value::Items;

/// What a walk over a block finds, besides what flows from it.
#[derive(Drop)]
pub struct Trace {
    /// The position and the rule of the instruction or end that is broken, if any.
    pub broken: Option<(u32, u8)>,
    /// The kinds of the registers where the block ends by a join of a side's record.
    pub join: Option<Items<Kind>>,
    /// The forks, each with its join target and the shape before it.
    pub forks: Items<(u32, Shape)>,
}
