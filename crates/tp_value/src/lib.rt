//! The values that every other crate speaks of: 64-bit numbers and their arithmetic, places of a
//! source text, how a run stops, tables, outcomes, lists, and the limits of the product.
//! It stands on std alone. Start with `values`; `arithmetic` has the calculations.
#![tactic(auto)]

mod arithmetic;
mod limits;
mod list;
mod values;

pub use arithmetic::{add, div, eq, le, lt, mul, ne, rem, sub};
pub use limits::{
    MAX_ACTIVATION_CELLS, MAX_BEAT, MAX_BLOCK_NESTING, MAX_BLOCKS, MAX_CALL_DEPTH, MAX_CARRIES,
    MAX_CODE_BYTES, MAX_DECLARED_VARIABLES, MAX_EXPRESSION_HEIGHT, MAX_EXPRESSION_TOKENS,
    MAX_FORKS, MAX_FUEL, MAX_FUNCTIONS, MAX_PAR_LENGTH, MAX_PAR_NESTING, MAX_PARAMETERS,
    MAX_REDUCTIONS, MAX_SIDE, MAX_SOURCE_BYTES, MAX_STACK_POSITION, MAX_TABLE_CELLS, MAX_TABLES,
    MAX_TABLES_BYTES, MAX_WORKERS, RECORDS_PER_WORKER, REGISTERS,
};
pub use list::Items;
pub use values::{NoMemory, Op, Outcome, Place, Stop, Table, TrapKind};

#[cfg(test)]
mod tests;
