// Notes, the first lines of texts and of blocks, and the lines of tables, each appended to a text.

ghost use Rattle.std.specs.Prelude.{◌≡◌, ◌++◌, OnOk, codes};
ghost use Rattle.std.specs.List.{flat_map, join_by};
ghost use Rattle.std.specs.Fmt.{decimal};
ghost use Rattle.tpal_syntax.specs.Conditions.{block_names};
ghost use Rattle.tpal_syntax.specs.Text.{◌+++◌, line, label_text, rename_text, carry_text};
ghost use Rattle.tpal_syntax.specs.Text.{carries_text, policy_text, kind_text, target_text};
ghost use Rattle.tpal_syntax.specs.Text.{note_text, number_text, header_text, table_line};
ghost use Rattle.tpal_syntax.specs.Text.{first_line};

use crate::parts::{push_bytes, push_label, push_number, push_register, push_table};
use tp_value::NoMemory;
use tpal_syntax::{Block, CarryAt, CodeTable, CutKind, Note, Target, Version};

fn push_rename(out: &mut Vec<u8>, rename: (u8, u8)) -> Result<(), NoMemory>
    ensures { OnOk result (out.new.items ≡ out.old.items ++ rename_text rename) }
{
    push_register(out, rename.0)?;
    push_bytes(out, b" -> ")?;
    push_register(out, rename.1)?;
    Ok(())
}

fn push_more_renames(out: &mut Vec<u8>, renames: &[(u8, u8)]) -> Result<(), NoMemory>
    ensures { OnOk result (out.new.items ≡ out.old.items ++ flat_map (λ p. codes ", "
        ++ rename_text p) renames.now) }
{
    for rename in renames {
        push_bytes(out, b", ")?;
        push_rename(out, *rename)?;
    }
    Ok(())
}

fn push_renames(out: &mut Vec<u8>, renames: &[(u8, u8)]) -> Result<(), NoMemory>
    ensures { OnOk result (out.new.items ≡ out.old.items
        ++ join_by rename_text (codes ", ") renames.now) }
{
    match renames.split_first() {
        None => Ok(()),
        Some((first, others)) => {
            push_rename(out, *first)?;
            push_more_renames(out, others)?;
            Ok(())
        }
    }
}

fn push_carry(out: &mut Vec<u8>, item: CarryAt) -> Result<(), NoMemory>
    ensures { OnOk result (out.new.items ≡ out.old.items ++ carry_text item) }
{
    match item {
        CarryAt::Rows { table, at } => push_rows(out, table, at),
        CarryAt::Cells { table, row, at } => push_cells(out, table, row, at),
    }
}

fn push_rows(out: &mut Vec<u8>, table: u8, at: u8) -> Result<(), NoMemory>
    ensures { OnOk result (out.new.items ≡ out.old.items ++ carry_text (CarryAt.Rows table at)) }
{
    push_table(out, table)?;
    push_bytes(out, b" rows ")?;
    push_register(out, at)?;
    Ok(())
}

fn push_cells(out: &mut Vec<u8>, table: u8, row: u8, at: u8) -> Result<(), NoMemory>
    ensures { OnOk result (out.new.items ≡ out.old.items
        ++ carry_text (CarryAt.Cells table row at)) }
{
    push_table(out, table)?;
    push_bytes(out, b" cells ")?;
    push_register(out, row)?;
    push_bytes(out, b" ")?;
    push_register(out, at)?;
    Ok(())
}

fn push_more_carries(out: &mut Vec<u8>, items: &[CarryAt]) -> Result<(), NoMemory>
    ensures { OnOk result (out.new.items ≡ out.old.items ++ flat_map (λ c. codes ", "
        ++ carry_text c) items.now) }
{
    for item in items {
        push_bytes(out, b", ")?;
        push_carry(out, *item)?;
    }
    Ok(())
}

fn push_carries(out: &mut Vec<u8>, items: &[CarryAt]) -> Result<(), NoMemory>
    ensures { OnOk result (out.new.items ≡ out.old.items ++ carries_text items.now) }
{
    match items.split_first() {
        None => push_bytes(out, b"none"),
        Some((first, others)) => {
            push_carry(out, *first)?;
            push_more_carries(out, others)?;
            Ok(())
        }
    }
}

fn push_policy(out: &mut Vec<u8>, comm: bool) -> Result<(), NoMemory>
    ensures { OnOk result (out.new.items ≡ out.old.items ++ policy_text comm) }
{
    if comm {
        push_bytes(out, b"assoc-comm")
    } else {
        push_bytes(out, b"assoc")
    }
}

fn push_kind(out: &mut Vec<u8>, kind: CutKind) -> Result<(), NoMemory>
    ensures { OnOk result (out.new.items ≡ out.old.items ++ kind_text kind) }
{
    match kind {
        CutKind::Loop => push_bytes(out, b"loop"),
        CutKind::Call => push_bytes(out, b"call"),
    }
}

fn push_cut(out: &mut Vec<u8>, kind: CutKind, carries: &[CarryAt]) -> Result<(), NoMemory>
    ensures { OnOk result (out.new.items ≡ out.old.items ++ (codes "; " +++ kind_text kind
        +++ codes "; carry " +++ carries_text carries.now)) }
{
    push_bytes(out, b"; ")?;
    push_kind(out, kind)?;
    push_bytes(out, b"; carry ")?;
    push_carries(out, carries)?;
    Ok(())
}

fn push_target(out: &mut Vec<u8>, blocks: &[Block], target: &Target) -> Result<(), NoMemory>
    ensures { OnOk result (out.new.items ≡ out.old.items
        ++ target_text (block_names blocks.now) target.now) }
{
    push_bytes(out, b"jtppt ")?;
    push_policy(out, target.comm)?;
    push_bytes(out, b"; {")?;
    push_renames(out, target.renames.items())?;
    push_bytes(out, b"}; ")?;
    push_label(out, blocks, target.comb)?;
    push_cut(out, target.kind, target.carries.items())?;
    Ok(())
}

fn push_ready(out: &mut Vec<u8>, blocks: &[Block], handler: u32) -> Result<(), NoMemory>
    ensures { OnOk result (out.new.items ≡ out.old.items ++ (codes "prppt "
        +++ label_text (block_names blocks.now) handler)) }
{
    push_bytes(out, b"prppt ")?;
    push_label(out, blocks, handler)?;
    Ok(())
}

fn push_note(out: &mut Vec<u8>, blocks: &[Block], note: &Note) -> Result<(), NoMemory>
    ensures { OnOk result (out.new.items ≡ out.old.items
        ++ note_text (block_names blocks.now) note.now) }
{
    match note {
        Note::Plain => push_bytes(out, b"plain"),
        Note::Ready(handler) => push_ready(out, blocks, *handler),
        Note::Target(target) => push_target(out, blocks, target),
    }
}

fn push_block_number(out: &mut Vec<u8>, version: Version, number: u64) -> Result<(), NoMemory>
    ensures { OnOk result (out.new.items ≡ out.old.items ++ number_text version number) }
{
    match version {
        Version::One => Ok(()),
        Version::Two => {
            push_bytes(out, b" #")?;
            push_number(out, number)?;
            Ok(())
        }
    }
}

/// Appends the first line of the block of this number.
pub fn push_header(
    out: &mut Vec<u8>,
    version: Version,
    blocks: &[Block],
    number: u64,
    block: &Block,
) -> Result<(), NoMemory>
    ensures { OnOk result (out.new.items ≡ out.old.items
        ++ line (header_text version (block_names blocks.now) number block.now.name
        block.now.note)) }
{
    push_bytes(out, block.name.items())?;
    push_block_number(out, version, number)?;
    push_bytes(out, b": ")?;
    push_note(out, blocks, &block.note)?;
    out.push(b'\n')?;
    Ok(())
}

/// Appends the first line of a text, where the version has one.
pub fn push_first_line(out: &mut Vec<u8>, version: Version) -> Result<(), NoMemory>
    ensures { OnOk result (out.new.items ≡ out.old.items ++ first_line version) }
{
    match version {
        Version::One => Ok(()),
        Version::Two => {
            push_bytes(out, b"tpal 2")?;
            out.push(b'\n')?;
            Ok(())
        }
    }
}

fn push_input(out: &mut Vec<u8>, number: u64, name: &[u8]) -> Result<(), NoMemory>
    ensures { OnOk result (out.new.items ≡ out.old.items ++ (codes "table t" +++ decimal number
        +++ codes " input " +++ name.now)) }
{
    push_bytes(out, b"table t")?;
    push_number(out, number)?;
    push_bytes(out, b" input ")?;
    push_bytes(out, name)?;
    Ok(())
}

fn push_made(out: &mut Vec<u8>, number: u64) -> Result<(), NoMemory>
    ensures { OnOk result (out.new.items ≡ out.old.items ++ (codes "table t" +++ decimal number
        +++ codes " made")) }
{
    push_bytes(out, b"table t")?;
    push_number(out, number)?;
    push_bytes(out, b" made")?;
    Ok(())
}

fn push_table_text(out: &mut Vec<u8>, number: u64, table: &CodeTable) -> Result<(), NoMemory>
    ensures { OnOk result (out.new.items ≡ out.old.items ++ table_line number table.now) }
{
    match table {
        CodeTable::Input(name) => push_input(out, number, name.items()),
        CodeTable::Made => push_made(out, number),
    }
}

/// Appends the line of the table of this number.
pub fn push_table_line(out: &mut Vec<u8>, number: u64, table: &CodeTable) -> Result<(), NoMemory>
    ensures { OnOk result (out.new.items ≡ out.old.items ++ line (table_line number table.now)) }
{
    push_table_text(out, number, table)?;
    out.push(b'\n')?;
    Ok(())
}
