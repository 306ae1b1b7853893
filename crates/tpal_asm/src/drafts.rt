// What the lines so far say.

use tpal_syntax::{Block, CodeTable, Instr, Note};

/// What the lines so far say: tables and whole blocks, and perhaps the beginning of one more block.
#[derive(Drop)]
pub struct Draft {
    pub tables: Vec<CodeTable>,
    pub blocks: Vec<Block>,
    pub begun: Option<Begun>,
}

/// A block without its end.
#[derive(Drop)]
pub struct Begun {
    pub name: tp_value::Items<u8>,
    pub note: Note,
    pub body: Vec<Instr>,
}
