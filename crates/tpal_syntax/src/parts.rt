// Whether the parts of a code are in their ranges.

ghost use Rattle.std.specs.Prelude.{◌≡◌};
ghost use Rattle.std.specs.List.{list_all};
ghost use Rattle.tpal_syntax.specs.Parts.{is_letter, is_word_byte, is_word, is_register, is_offset};
ghost use Rattle.tpal_syntax.specs.Parts.{is_size, is_place, is_value, is_instr, is_term, is_carry};

use crate::instructions::{Instr, Term, Value};
use crate::notes::CarryAt;
use tp_value::{MAX_ACTIVATION_CELLS, Place, REGISTERS};

fn is_letter(b: u8) -> bool
    ensures { result ≡ is_letter b }
{
    (65 <= b && b <= 90) || (97 <= b && b <= 122) || b == 95
}

fn is_word_byte(b: u8) -> bool
    ensures { result ≡ is_word_byte b }
{
    is_letter(b) || (48 <= b && b <= 57)
}

fn are_word_bytes(bytes: &[u8]) -> bool
    ensures { result ≡ list_all is_word_byte bytes.now }
{
    bytes.iter().all(|b| is_word_byte(*b))
}

/// Whether a name has the form of a word.
pub fn is_word(name: &[u8]) -> bool
    ensures { result ≡ is_word name.now }
{
    match name.split_first() {
        None => false,
        Some((first, rest)) => is_letter(*first) && are_word_bytes(rest),
    }
}

fn is_register(r: u8) -> bool
    ensures { result ≡ is_register r }
{
    r < REGISTERS
}

fn is_offset(n: u16) -> bool
    ensures { result ≡ is_offset n }
{
    n < MAX_ACTIVATION_CELLS
}

fn is_size(n: u16) -> bool
    ensures { result ≡ is_size n }
{
    n <= MAX_ACTIVATION_CELLS
}

fn is_place(place: Place) -> bool
    ensures { result ≡ is_place place }
{
    place.line >= 1 && place.col >= 1
}

fn is_value(blocks: u32, value: Value) -> bool
    ensures { result ≡ is_value blocks value }
{
    match value {
        Value::Reg(r) => is_register(r),
        Value::Int(_) => true,
        Value::Label(l) => l < blocks,
        Value::Nil => true,
    }
}

/// Whether an instruction is one of a code with so many tables and blocks.
pub fn is_instr(tables: u8, blocks: u32, instr: Instr) -> bool
    ensures { result ≡ is_instr tables blocks instr }
{
    match instr {
        Instr::Move { to, value } => is_register(to) && is_value(blocks, value),
        Instr::Calc {
            to,
            left,
            alu: _,
            right,
        } => { is_register(to) && is_register(left) && is_value(blocks, right) }
        Instr::IfJump { test, label } => is_register(test) && label < blocks,
        Instr::Load { to, base, off } => is_register(to) && is_register(base) && is_offset(off),
        Instr::Store { base, off, value } => {
            is_register(base) && is_offset(off) && is_value(blocks, value)
        }
        Instr::Salloc(n) => is_size(n),
        Instr::Sfree(n) => is_size(n),
        Instr::PrmPush {
            base,
            off,
            cells,
            split,
        } => { is_register(base) && is_offset(off) && is_size(cells) && split < blocks }
        Instr::PrmPop { base, off } => is_register(base) && is_offset(off),
        Instr::PrmDrop => true,
        Instr::PrmEmpty(r) => is_register(r),
        Instr::PrmSplit { base, split } => is_register(base) && is_register(split),
        Instr::JrAlloc { to, target } => is_register(to) && target < blocks,
        Instr::Fork { rec, child } => is_register(rec) && child < blocks,
        Instr::Fetch {
            to,
            table,
            row,
            col,
        } => { is_register(to) && table < tables && is_register(row) && is_register(col) }
        Instr::Put {
            table,
            row,
            col,
            value,
        } => { table < tables && is_register(row) && is_register(col) && is_register(value) }
        Instr::Rows { to, table } => is_register(to) && table < tables,
        Instr::Cols { to, table } => is_register(to) && table < tables,
        Instr::Make {
            table,
            rows,
            cols,
            place,
        } => { table < tables && is_register(rows) && is_register(cols) && is_place(place) }
        Instr::Tick => true,
        Instr::Trap { kind: _, place } => is_place(place),
        Instr::Print(r) => is_register(r),
        Instr::Emit(table) => table < tables,
    }
}

/// Whether this ends a block of a code with so many blocks.
pub fn is_term(blocks: u32, term: Term) -> bool
    ensures { result ≡ is_term blocks term }
{
    match term {
        Term::Jump(value) => is_value(blocks, value),
        Term::Halt => true,
        Term::Join(r) => is_register(r),
        Term::Leave { rec, value } => is_register(rec) && is_register(value),
    }
}

/// Whether an item of a carry list is one of a code with so many tables.
pub fn is_carry(tables: u8, item: CarryAt) -> bool
    ensures { result ≡ is_carry tables item }
{
    match item {
        CarryAt::Rows { table, at } => table < tables && is_register(at),
        CarryAt::Cells { table, row, at } => {
            table < tables && is_register(row) && is_register(at)
        }
    }
}
