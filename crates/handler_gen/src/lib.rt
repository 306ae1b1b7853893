//! The blocks that cut a parallel loop or a pair of calls in two when a beat comes: `dispatch`,
//! where each beat comes, and the handler of each site. They stand on the code types of
//! `tpal_syntax`; contracts speak of the steps of `tpal_machine`, and the place of a cut is that of
//! `frame_machine`. Start with `loops`. `labels` says where the blocks of a site stand, and those
//! round them to which they go on; `laws` that frames are cut as `split_frame` cuts them.
#![tactic(auto)]

mod blocks;
mod calls;
mod labels;
mod laws;
mod leaves;
mod loops;
mod registers;

pub use blocks::{block_of, dispatch};
pub use calls::call_handler;
pub use labels::{
    back_label, child_end_label, child_label, comb_label, first_label, joined_label,
    left_end_label, none_label, over_label, prep_label, side_label, split_label, target_label,
};
pub use laws::{cuts_frame, cuts_pair, shows_alike};
pub use leaves::{
    head_label, leaf_handler, leaf_start, push_leaf_stores, start_label, stored_loop,
};
pub use loops::loop_handler;
pub use registers::{
    BACK, CUT, LEAF_BOUND, LEAF_CURSOR, LEAF_FIRST_ACC, MIDDLE, NEXT, OTHER_RECORD, RECORD, SPLIT,
    TEST,
};
