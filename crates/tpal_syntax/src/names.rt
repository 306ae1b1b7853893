// Whether the names of a code differ.

ghost use Rattle.std.specs.Prelude.{◌≡◌, ◌↔◌, IsTrue, IfOk, map};
ghost use Rattle.tpal_syntax.specs.Conditions.{block_names, input_names, AreDistinct};

use crate::blocks::{Block, CodeTable};
use std::alloc::Global;
use std::collections::HashSet;
use tp_value::NoMemory;

/// Whether no two names are the same.
pub fn are_distinct(alloc: Global, names: &[&[u8]]) -> Result<bool, NoMemory>
    ensures { IfOk result (λ differ. IsTrue differ ↔ AreDistinct (map (λ n. n.now) names.now)) }
{
    let mut seen = HashSet::new(alloc);
    for name in names {
        if !seen.insert(*name)? {
            return Ok(false);
        }
    }
    Ok(true)
}

/// The names of the blocks, by their labels.
pub fn block_names(alloc: Global, blocks: &[Block]) -> Result<Vec<&[u8]>, NoMemory>
    ensures { IfOk result (λ names. map (λ n. n.now) names.items ≡ block_names blocks.now) }
{
    let mut names = Vec::new(alloc);
    for block in blocks {
        names.push(block.name.items())?;
    }
    Ok(names)
}

/// The names of the inputs among the tables, in order.
pub fn input_names(alloc: Global, tables: &[CodeTable]) -> Result<Vec<&[u8]>, NoMemory>
    ensures { IfOk result (λ names. map (λ n. n.now) names.items ≡ input_names tables.now) }
{
    let mut names = Vec::new(alloc);
    for table in tables {
        match table {
            CodeTable::Input(name) => names.push(name.items())?,
            CodeTable::Made => {}
        }
    }
    Ok(names)
}
