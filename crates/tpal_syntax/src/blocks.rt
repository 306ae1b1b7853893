// Blocks, and the tables of a code.

use crate::instructions::{Instr, Term};
use crate::notes::Note;
use tp_value::Items;

/// A block: a name, a note, instructions, and the one end.
#[derive(Drop)]
pub struct Block {
    /// The name's bytes.
    pub name: Items<u8>,
    /// What the block is marked as.
    pub note: Note,
    /// Its instructions, in order.
    pub body: Items<Instr>,
    /// How it ends.
    pub term: Term,
}

/// Where a table of a code comes from.
#[derive(Drop)]
pub enum CodeTable {
    /// The input of this name.
    Input(Items<u8>),
    /// Made by the code itself.
    Made,
}
