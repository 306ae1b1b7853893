// Whole codes.

ghost use Rattle.std.specs.Prelude.{◌≡◌, ◌++◌, OnOk, IfOk, IfSome, IfNone, false, codes};
ghost use Rattle.std.specs.List.{flat_map};
ghost use Rattle.tpal_syntax.specs.declared.versions.Version.TheVariants.{One, Two};
ghost use Rattle.tpal_syntax.specs.Conditions.{block_names};
ghost use Rattle.tpal_syntax.specs.Text.{◌+++◌, line, instr_text, term_text, block_text};
ghost use Rattle.tpal_syntax.specs.Text.{tables_text, blocks_text, text_of, stands_in};
ghost use Rattle.tpal_syntax.specs.Text.{all_stand_in, CodeTextIn};

use crate::headers::{push_first_line, push_header, push_table_line};
use crate::instructions::{push_instr, push_term};
use crate::parts::push_bytes;
use std::alloc::Global;
use tp_value::NoMemory;
use tpal_syntax::{Block, Code, CodeTable, Instr, Term, Version};

/// The one text of a code in version 2. It ends with a LF.
pub fn print_code(alloc: Global, code: &Code) -> Result<Vec<u8>, NoMemory>
    ensures spelled { IfOk result (λ text.
        text.items ≡ text_of Two code.now.tables code.now.blocks) }
    ensures code_text { IfOk result (λ text.
        CodeTextIn Two text.items code.now.tables code.now.blocks) }
{
    let _blocks = code.blocks();
    print_in(alloc, Version::Two, code)
}

/// The one text of a code in version 1; None exactly where a block of the code is left.
pub fn print_code_1(alloc: Global, code: &Code) -> Result<Option<Vec<u8>>, NoMemory>
    ensures code_text { IfOk result (λ printed. IfSome printed (λ text.
        CodeTextIn One text.items code.now.tables code.now.blocks)) }
    ensures none { IfOk result (λ printed. IfNone printed
        (all_stand_in One code.now.blocks ≡ false)) }
{
    if !all_stand(code.blocks()) {
        return Ok(None);
    }
    Ok(Some(print_in(alloc, Version::One, code)?))
}

/// Whether the end of a block stands in texts of version 1.
fn stands(term: Term) -> bool
    ensures { result ≡ stands_in One term }
{
    match term {
        Term::Jump(_) | Term::Halt | Term::Join(_) => true,
        Term::Leave { rec: _, value: _ } => false,
    }
}

fn all_stand(blocks: &[Block]) -> bool
    ensures { result ≡ all_stand_in One blocks.now }
{
    blocks.iter().all(|block| stands(block.term))
}

fn print_in(alloc: Global, version: Version, code: &Code) -> Result<Vec<u8>, NoMemory>
    ensures { IfOk result (λ text.
        text.items ≡ text_of version code.now.tables code.now.blocks) }
{
    let mut text = Vec::new(alloc);
    push_first_line(&mut text, version)?;
    push_tables(&mut text, code.tables())?;
    push_blocks(&mut text, version, code.blocks())?;
    Ok(text)
}

fn push_tables(out: &mut Vec<u8>, tables: &[CodeTable]) -> Result<(), NoMemory>
    ensures { OnOk result (out.new.items ≡ out.old.items ++ tables_text 0 tables.now) }
{
    let mut number = 0;
    for table in tables {
        push_table_line(out, number, table)?;
        number += 1;
    }
    Ok(())
}

fn push_blocks(out: &mut Vec<u8>, version: Version, blocks: &[Block]) -> Result<(), NoMemory>
    ensures { OnOk result (out.new.items ≡ out.old.items
        ++ blocks_text version (block_names blocks.now) 0 blocks.now) }
{
    let mut number = 0;
    for block in blocks {
        push_block(out, version, blocks, number, block)?;
        number += 1;
    }
    Ok(())
}

fn push_block(
    out: &mut Vec<u8>,
    version: Version,
    blocks: &[Block],
    number: u64,
    block: &Block,
) -> Result<(), NoMemory>
    ensures { OnOk result (out.new.items ≡ out.old.items
        ++ block_text version (block_names blocks.now) number block.now) }
{
    push_header(out, version, blocks, number, block)?;
    push_body(out, blocks, block.body.items())?;
    push_end(out, blocks, block.term)?;
    Ok(())
}

fn push_body(out: &mut Vec<u8>, blocks: &[Block], body: &[Instr]) -> Result<(), NoMemory>
    ensures { OnOk result (out.new.items ≡ out.old.items ++ flat_map (λ instr. line (codes "  "
        +++ instr_text (block_names blocks.now) instr)) body.now) }
{
    for instr in body {
        push_line(out, blocks, instr)?;
    }
    Ok(())
}

fn push_line(out: &mut Vec<u8>, blocks: &[Block], instr: &Instr) -> Result<(), NoMemory>
    ensures { OnOk result (out.new.items ≡ out.old.items ++ line (codes "  "
        +++ instr_text (block_names blocks.now) instr.now)) }
{
    push_bytes(out, b"  ")?;
    push_instr(out, blocks, instr)?;
    out.push(b'\n')?;
    Ok(())
}

fn push_end(out: &mut Vec<u8>, blocks: &[Block], term: Term) -> Result<(), NoMemory>
    ensures { OnOk result (out.new.items ≡ out.old.items ++ line (codes "  "
        +++ term_text (block_names blocks.now) term)) }
{
    push_bytes(out, b"  ")?;
    push_term(out, blocks, term)?;
    out.push(b'\n')?;
    Ok(())
}
