// Whether lists of tables and blocks meet the conditions on codes.

ghost use Rattle.std.specs.Prelude.{◌≡◌, ◌<◌, ◌≤◌, ◌↔◌, ◌^◌, ◌&&◌, ◌==◌, not, length, map, IsTrue};
ghost use Rattle.std.specs.Prelude.{IfOk};
ghost use Rattle.std.specs.List.{list_all, AllByRecursion};
ghost use Rattle.tpal_syntax.specs.Parts.{is_word, is_instr, is_carry, table_of};
ghost use Rattle.tpal_syntax.specs.Conditions.{is_renamed, are_apart, are_distinct_names};
ghost use Rattle.tpal_syntax.specs.Conditions.{are_distinct_tables, IsTarget, is_ready, IsNote};
ghost use Rattle.tpal_syntax.specs.Conditions.{IsBlock, AreInputs, IsCode};

use crate::blocks::{Block, CodeTable};
use crate::instructions::Instr;
use crate::names::{are_distinct, block_names, input_names};
use crate::notes::{CarryAt, Note, Target};
use crate::parts::{is_carry, is_instr, is_term, is_word};
use std::alloc::Global;
use tp_value::{MAX_BLOCKS, MAX_CARRIES, MAX_TABLES, NoMemory};

fn is_renamed(r: u8) -> bool
    ensures { result ≡ is_renamed r }
{
    r < 30
}

fn are_renamed(renames: &[(u8, u8)]) -> bool
    ensures { result ≡ list_all (λ p. is_renamed p.0 && is_renamed p.1) renames.now }
{
    renames.iter().all(|p| is_renamed(p.0) && is_renamed(p.1))
}

fn is_apart(p: (u8, u8), others: &[(u8, u8)]) -> bool
    ensures { result ≡ list_all (are_apart p) others.now }
{
    others
        .iter()
        .all(|q| p.0 != q.0 && p.1 != q.1 && p.0 != q.1 && p.1 != q.0)
}

fn are_distinct_names(renames: &[(u8, u8)]) -> bool
    ensures { result ≡ are_distinct_names renames.now }
{
    let mut rest = renames;
    while let Some((first, others)) = rest.split_first() {
        if first.0 == first.1 || !is_apart(*first, others) {
            return false;
        }
        rest = others;
    }
    true
}

fn table_of(item: CarryAt) -> u8
    ensures { result ≡ table_of item }
{
    match item {
        CarryAt::Rows { table, at: _ } => table,
        CarryAt::Cells {
            table,
            row: _,
            at: _,
        } => table,
    }
}

fn is_other_table(item: CarryAt, others: &[CarryAt]) -> bool
    ensures { result ≡ list_all (λ d. not (table_of item == table_of d)) others.now }
{
    let table = table_of(item);
    others.iter().all(|d| table != table_of(*d))
}

fn are_distinct_tables(items: &[CarryAt]) -> bool
    ensures { result ≡ are_distinct_tables items.now }
{
    let mut rest = items;
    while let Some((first, others)) = rest.split_first() {
        if !is_other_table(*first, others) {
            return false;
        }
        rest = others;
    }
    true
}

fn are_carries(tables: u8, items: &[CarryAt]) -> bool
    ensures { result ≡ list_all (is_carry tables) items.now }
{
    items.iter().all(|item| is_carry(tables, *item))
}

/// Whether a join target is one of a code with so many tables and blocks.
pub fn is_target(tables: u8, blocks: u32, target: &Target) -> bool
    ensures { IsTrue result ↔ IsTarget tables blocks target.now }
{
    let renames = target.renames.items();
    let carries = target.carries.items();
    are_renamed(renames)
        && are_distinct_names(renames)
        && target.comb < blocks
        && carries.len() <= MAX_CARRIES
        && are_carries(tables, carries)
        && are_distinct_tables(carries)
}

fn is_ready(note: &Note) -> bool
    ensures { result ≡ is_ready note.now }
{
    match note {
        Note::Plain => false,
        Note::Ready(_) => true,
        Note::Target(_) => false,
    }
}

fn is_note(tables: &[CodeTable], blocks: &[Block], note: &Note) -> bool
    requires few_blocks { length blocks.now < 2 ^ 32 }
    requires few_tables { length tables.now ≤ 16 }
    ensures { IsTrue result ↔ IsNote tables.now blocks.now note.now }
{
    match note {
        Note::Plain => true,
        Note::Ready(handler) => match blocks.get(*handler as usize) {
            None => false,
            Some(block) => !is_ready(&block.note),
        },
        Note::Target(target) => is_target(tables.len() as u8, blocks.len() as u32, target),
    }
}

fn is_body(tables: u8, blocks: u32, body: &[Instr]) -> bool
    ensures { result ≡ list_all (is_instr tables blocks) body.now }
{
    body.iter().all(|instr| is_instr(tables, blocks, *instr))
}

fn is_block(tables: &[CodeTable], blocks: &[Block], block: &Block) -> bool
    requires few_blocks { length blocks.now < 2 ^ 32 }
    requires few_tables { length tables.now ≤ 16 }
    ensures { IsTrue result ↔ IsBlock tables.now blocks.now block.now }
{
    let table_count = tables.len() as u8;
    let block_count = blocks.len() as u32;
    is_word(block.name.items())
        && is_note(tables, blocks, &block.note)
        && is_body(table_count, block_count, block.body.items())
        && is_term(block_count, block.term)
}

fn are_blocks(tables: &[CodeTable], blocks: &[Block]) -> bool
    requires few_blocks { length blocks.now < 2 ^ 32 }
    requires few_tables { length tables.now ≤ 16 }
    ensures { IsTrue result ↔ AllByRecursion (IsBlock tables.now blocks.now) blocks.now }
{
    let mut rest = blocks;
    while let Some((first, others)) = rest.split_first() {
        if !is_block(tables, blocks, first) {
            return false;
        }
        rest = others;
    }
    true
}

fn are_words(names: &[&[u8]]) -> bool
    ensures { result ≡ list_all is_word (map (λ n. n.now) names.now) }
{
    for name in names {
        if !is_word(name) {
            return false;
        }
    }
    true
}

fn are_inputs(alloc: Global, tables: &[CodeTable]) -> Result<bool, NoMemory>
    ensures { IfOk result (λ right. IsTrue right ↔ AreInputs tables.now) }
{
    let names = input_names(alloc, tables)?;
    Ok(are_words(&names) && are_distinct(alloc, &names)?)
}

/// Whether tables and blocks are those of a code.
pub fn is_code(alloc: Global, tables: &[CodeTable], blocks: &[Block]) -> Result<bool, NoMemory>
    ensures { IfOk result (λ right. IsTrue right ↔ IsCode tables.now blocks.now) }
{
    if blocks.is_empty() || blocks.len() > MAX_BLOCKS as usize || tables.len() > MAX_TABLES {
        return Ok(false);
    }
    if !are_inputs(alloc, tables)? {
        return Ok(false);
    }
    let names = block_names(alloc, blocks)?;
    Ok(are_distinct(alloc, &names)? && are_blocks(tables, blocks))
}
