//! The blocks where the two sides of a cut loop or of a cut pair of calls end, meet and are
//! combined. They stand on the code types of `tpal_syntax`, and behind the blocks of `handler_gen`,
//! whose `labels` says where; contracts speak of the steps of `tpal_machine`, and the sides are
//! merged as `frame_machine` merges frames. Start with `loops`.
#![tactic(auto)]

mod calls;
mod leaves;
mod loops;

pub use calls::call_join;
pub use leaves::leaf_join;
pub use loops::{alu_of, loop_join};
