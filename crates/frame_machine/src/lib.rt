//! How a `par` or a `both` that is partly done is cut in two, and how the two parts are merged.
//! Nothing is lost by it: the lower part, then the upper part from units, merged, is what the
//! whole would have been. It stands on loop_meaning, whose `Frame` it cuts. Start with `range`;
//! `laws` has what follows from the definitions alone.
#![tactic(auto)]

mod frame;
pub mod laws;
mod range;
pub mod rules;

pub use frame::{merge_frames, split_frame};
pub use range::split_range;
