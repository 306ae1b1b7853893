// Instructions and the ends of blocks, each appended to a text.

ghost use Rattle.std.specs.Prelude.{◌≡◌, ◌++◌, OnOk, codes};
ghost use Rattle.std.specs.Fmt.{decimal};
ghost use Rattle.tpal_syntax.specs.Conditions.{block_names};
ghost use Rattle.tpal_syntax.specs.Text.{◌+++◌, register_text, table_text, label_text, cell_text};
ghost use Rattle.tpal_syntax.specs.Text.{place_text, value_text, alu_text, trap_text, instr_text};
ghost use Rattle.tpal_syntax.specs.Text.{term_text};

use crate::parts::{
    push_alu, push_bytes, push_cell, push_label, push_number, push_place, push_register,
    push_table, push_trap, push_value,
};
use tp_value::{NoMemory, Place, TrapKind};
use tpal_syntax::{Alu, Block, Instr, Term, Value};

/// Appends an instruction.
pub fn push_instr(out: &mut Vec<u8>, blocks: &[Block], instr: &Instr) -> Result<(), NoMemory>
    ensures { OnOk result (out.new.items ≡ out.old.items
        ++ instr_text (block_names blocks.now) instr.now) }
{
    match *instr {
        Instr::Move { to, value } => push_move(out, blocks, to, value),
        Instr::Calc {
            to,
            left,
            alu,
            right,
        } => push_calc(out, blocks, to, left, alu, right),
        Instr::IfJump { test, label } => push_to_label(out, blocks, b"if-jump ", test, label),
        Instr::Load { to, base, off } => push_load(out, to, base, off),
        Instr::Store { base, off, value } => push_store(out, blocks, base, off, value),
        Instr::Salloc(n) => push_size(out, b"salloc ", n),
        Instr::Sfree(n) => push_size(out, b"sfree ", n),
        Instr::PrmPush {
            base,
            off,
            cells,
            split,
        } => { push_mark(out, blocks, base, off, cells, split) }
        Instr::PrmPop { base, off } => push_unmark(out, base, off),
        Instr::PrmDrop => push_bytes(out, b"prmdrop"),
        Instr::PrmEmpty(r) => push_of_register(out, b"prmempty ", r),
        Instr::PrmSplit { base, split } => push_split(out, base, split),
        Instr::JrAlloc { to, target } => push_from_label(out, blocks, to, b" := jralloc ", target),
        Instr::Fork { rec, child } => push_to_label(out, blocks, b"fork ", rec, child),
        Instr::Fetch {
            to,
            table,
            row,
            col,
        } => push_fetch(out, to, table, row, col),
        Instr::Put {
            table,
            row,
            col,
            value,
        } => push_put(out, table, row, col, value),
        Instr::Rows { to, table } => push_from_table(out, to, b" := rows ", table),
        Instr::Cols { to, table } => push_from_table(out, to, b" := cols ", table),
        Instr::Make {
            table,
            rows,
            cols,
            place,
        } => push_make(out, table, rows, cols, place),
        Instr::Tick => push_bytes(out, b"tick"),
        Instr::Trap { kind, place } => push_stop(out, kind, place),
        Instr::Print(r) => push_of_register(out, b"print ", r),
        Instr::Emit(table) => push_of_table(out, b"emit ", table),
    }
}

/// Appends the end of a block.
pub fn push_term(out: &mut Vec<u8>, blocks: &[Block], term: Term) -> Result<(), NoMemory>
    ensures { OnOk result (out.new.items ≡ out.old.items
        ++ term_text (block_names blocks.now) term) }
{
    match term {
        Term::Jump(value) => push_jump(out, blocks, value),
        Term::Halt => push_bytes(out, b"halt"),
        Term::Join(r) => push_of_register(out, b"join ", r),
        Term::Leave { rec, value } => push_leave(out, rec, value),
    }
}

fn push_leave(out: &mut Vec<u8>, rec: u8, value: u8) -> Result<(), NoMemory>
    ensures { OnOk result (out.new.items ≡ out.old.items ++ (codes "leave " +++ register_text rec
        +++ codes ", " +++ register_text value)) }
{
    push_bytes(out, b"leave ")?;
    push_register(out, rec)?;
    push_bytes(out, b", ")?;
    push_register(out, value)?;
    Ok(())
}

fn push_jump(out: &mut Vec<u8>, blocks: &[Block], value: Value) -> Result<(), NoMemory>
    ensures { OnOk result (out.new.items ≡ out.old.items
        ++ (codes "jump " +++ value_text (block_names blocks.now) value)) }
{
    push_bytes(out, b"jump ")?;
    push_value(out, blocks, value)?;
    Ok(())
}

fn push_move(out: &mut Vec<u8>, blocks: &[Block], to: u8, value: Value) -> Result<(), NoMemory>
    ensures { OnOk result (out.new.items ≡ out.old.items ++ (register_text to +++ codes " := "
        +++ value_text (block_names blocks.now) value)) }
{
    push_register(out, to)?;
    push_bytes(out, b" := ")?;
    push_value(out, blocks, value)?;
    Ok(())
}

fn push_calc(
    out: &mut Vec<u8>,
    blocks: &[Block],
    to: u8,
    left: u8,
    alu: Alu,
    right: Value,
) -> Result<(), NoMemory>
    ensures { OnOk result (out.new.items ≡ out.old.items ++ (register_text to +++ codes " := "
        +++ register_text left +++ codes " " +++ alu_text alu +++ codes " "
        +++ value_text (block_names blocks.now) right)) }
{
    push_register(out, to)?;
    push_bytes(out, b" := ")?;
    push_register(out, left)?;
    push_bytes(out, b" ")?;
    push_alu(out, alu)?;
    push_bytes(out, b" ")?;
    push_value(out, blocks, right)?;
    Ok(())
}

fn push_to_label(
    out: &mut Vec<u8>,
    blocks: &[Block],
    name: &[u8],
    r: u8,
    label: u32,
) -> Result<(), NoMemory>
    ensures { OnOk result (out.new.items ≡ out.old.items ++ (name.now +++ register_text r
        +++ codes ", " +++ label_text (block_names blocks.now) label)) }
{
    push_bytes(out, name)?;
    push_register(out, r)?;
    push_bytes(out, b", ")?;
    push_label(out, blocks, label)?;
    Ok(())
}

fn push_load(out: &mut Vec<u8>, to: u8, base: u8, off: u16) -> Result<(), NoMemory>
    ensures { OnOk result (out.new.items ≡ out.old.items ++ (register_text to +++ codes " := "
        +++ cell_text base off)) }
{
    push_register(out, to)?;
    push_bytes(out, b" := ")?;
    push_cell(out, base, off)?;
    Ok(())
}

fn push_store(
    out: &mut Vec<u8>,
    blocks: &[Block],
    base: u8,
    off: u16,
    value: Value,
) -> Result<(), NoMemory>
    ensures { OnOk result (out.new.items ≡ out.old.items ++ (cell_text base off +++ codes " := "
        +++ value_text (block_names blocks.now) value)) }
{
    push_cell(out, base, off)?;
    push_bytes(out, b" := ")?;
    push_value(out, blocks, value)?;
    Ok(())
}

fn push_size(out: &mut Vec<u8>, name: &[u8], n: u16) -> Result<(), NoMemory>
    ensures { OnOk result (out.new.items ≡ out.old.items ++ (name.now +++ decimal n)) }
{
    push_bytes(out, name)?;
    push_number(out, u64::from(n))?;
    Ok(())
}

fn push_mark(
    out: &mut Vec<u8>,
    blocks: &[Block],
    base: u8,
    off: u16,
    cells: u16,
    split: u32,
) -> Result<(), NoMemory>
    ensures { OnOk result (out.new.items ≡ out.old.items ++ (codes "prmpush "
        +++ cell_text base off +++ codes ", " +++ decimal cells +++ codes ", "
        +++ label_text (block_names blocks.now) split)) }
{
    push_bytes(out, b"prmpush ")?;
    push_cell(out, base, off)?;
    push_bytes(out, b", ")?;
    push_number(out, u64::from(cells))?;
    push_bytes(out, b", ")?;
    push_label(out, blocks, split)?;
    Ok(())
}

fn push_unmark(out: &mut Vec<u8>, base: u8, off: u16) -> Result<(), NoMemory>
    ensures { OnOk result (out.new.items ≡ out.old.items ++ (codes "prmpop "
        +++ cell_text base off)) }
{
    push_bytes(out, b"prmpop ")?;
    push_cell(out, base, off)?;
    Ok(())
}

fn push_of_register(out: &mut Vec<u8>, name: &[u8], r: u8) -> Result<(), NoMemory>
    ensures { OnOk result (out.new.items ≡ out.old.items ++ (name.now +++ register_text r)) }
{
    push_bytes(out, name)?;
    push_register(out, r)?;
    Ok(())
}

fn push_of_table(out: &mut Vec<u8>, name: &[u8], table: u8) -> Result<(), NoMemory>
    ensures { OnOk result (out.new.items ≡ out.old.items ++ (name.now +++ table_text table)) }
{
    push_bytes(out, name)?;
    push_table(out, table)?;
    Ok(())
}

fn push_split(out: &mut Vec<u8>, base: u8, split: u8) -> Result<(), NoMemory>
    ensures { OnOk result (out.new.items ≡ out.old.items ++ (codes "prmsplit "
        +++ register_text base +++ codes ", " +++ register_text split)) }
{
    push_bytes(out, b"prmsplit ")?;
    push_register(out, base)?;
    push_bytes(out, b", ")?;
    push_register(out, split)?;
    Ok(())
}

fn push_from_label(
    out: &mut Vec<u8>,
    blocks: &[Block],
    to: u8,
    name: &[u8],
    label: u32,
) -> Result<(), NoMemory>
    ensures { OnOk result (out.new.items ≡ out.old.items ++ (register_text to +++ name.now
        +++ label_text (block_names blocks.now) label)) }
{
    push_register(out, to)?;
    push_bytes(out, name)?;
    push_label(out, blocks, label)?;
    Ok(())
}

fn push_fetch(out: &mut Vec<u8>, to: u8, table: u8, row: u8, col: u8) -> Result<(), NoMemory>
    ensures { OnOk result (out.new.items ≡ out.old.items ++ (register_text to
        +++ codes " := fetch " +++ table_text table +++ codes ", " +++ register_text row
        +++ codes ", " +++ register_text col)) }
{
    push_from_table(out, to, b" := fetch ", table)?;
    push_bytes(out, b", ")?;
    push_register(out, row)?;
    push_bytes(out, b", ")?;
    push_register(out, col)?;
    Ok(())
}

fn push_put(out: &mut Vec<u8>, table: u8, row: u8, col: u8, value: u8) -> Result<(), NoMemory>
    ensures { OnOk result (out.new.items ≡ out.old.items ++ (codes "put " +++ table_text table
        +++ codes ", " +++ register_text row +++ codes ", " +++ register_text col +++ codes ", "
        +++ register_text value)) }
{
    push_of_table(out, b"put ", table)?;
    push_bytes(out, b", ")?;
    push_register(out, row)?;
    push_bytes(out, b", ")?;
    push_register(out, col)?;
    push_bytes(out, b", ")?;
    push_register(out, value)?;
    Ok(())
}

fn push_from_table(out: &mut Vec<u8>, to: u8, name: &[u8], table: u8) -> Result<(), NoMemory>
    ensures { OnOk result (out.new.items ≡ out.old.items ++ (register_text to +++ name.now
        +++ table_text table)) }
{
    push_register(out, to)?;
    push_bytes(out, name)?;
    push_table(out, table)?;
    Ok(())
}

fn push_make(out: &mut Vec<u8>, table: u8, rows: u8, cols: u8, place: Place) -> Result<(), NoMemory>
    ensures { OnOk result (out.new.items ≡ out.old.items ++ (codes "make " +++ table_text table
        +++ codes ", " +++ register_text rows +++ codes ", " +++ register_text cols +++ codes ", "
        +++ place_text place)) }
{
    push_of_table(out, b"make ", table)?;
    push_bytes(out, b", ")?;
    push_register(out, rows)?;
    push_bytes(out, b", ")?;
    push_register(out, cols)?;
    push_bytes(out, b", ")?;
    push_place(out, place)?;
    Ok(())
}

fn push_stop(out: &mut Vec<u8>, kind: TrapKind, place: Place) -> Result<(), NoMemory>
    ensures { OnOk result (out.new.items ≡ out.old.items ++ (codes "trap " +++ trap_text kind
        +++ codes ", " +++ place_text place)) }
{
    push_bytes(out, b"trap ")?;
    push_trap(out, kind)?;
    push_bytes(out, b", ")?;
    push_place(out, place)?;
    Ok(())
}
