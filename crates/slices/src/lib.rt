//! Tables whose cells are cut out, handed to another task and put together again. It stands on
//! `tp_value`. A `Held` is seen as a size and a finite map from (row, column) to a number; inside,
//! its cells stand in a few spans: flat in a table that was never cut, and in boxes of 256 after,
//! so that a cut and an append move boxes. Start with `table`, which has every public call; `store`
//! says who owns the cells, `pieces` keeps the spans, `spans` is one of them, which is one of
//! `stretches` or `chunks`, and `boxes` are what the latter are made of. Boxes that have all cells
//! of a table are in `full`, without a span.
#![tactic(auto)]

mod boxes;
mod chunks;
mod full;
mod laws;
mod pieces;
mod spans;
mod store;
mod stretches;
mod table;

pub use laws::{cells_join_again, rows_join_again};
pub use table::{Held, HeldFault};
