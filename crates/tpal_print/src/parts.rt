// Numbers, registers, labels and operands, each appended to a text.

ghost use Rattle.std.specs.Prelude.{◌≡◌, ◌++◌, OnOk, codes, map};
ghost use Rattle.std.specs.Fmt.{decimal, signed_decimal};
ghost use Rattle.tpal_syntax.specs.Conditions.{block_names};
ghost use Rattle.tpal_syntax.specs.Text.{register_text, table_text, label_text, cell_text};
ghost use Rattle.tpal_syntax.specs.Text.{place_text, value_text, alu_text, trap_text};

use tp_value::{NoMemory, Place, TrapKind};
use tpal_syntax::{Alu, Block, Value};

/// Appends bytes.
pub fn push_bytes(out: &mut Vec<u8>, bytes: &[u8]) -> Result<(), NoMemory>
    ensures { OnOk result (out.new.items ≡ out.old.items ++ bytes.now) }
{
    out.extend_from_slice(bytes)?;
    Ok(())
}

/// Appends a number's digits.
pub fn push_number(out: &mut Vec<u8>, n: u64) -> Result<(), NoMemory>
    ensures { OnOk result (out.new.items ≡ out.old.items ++ decimal n) }
{
    if n >= 10 {
        push_number(out, n / 10)?;
    }
    out.push(b'0' + (n % 10) as u8)?;
    Ok(())
}

/// Appends a number's digits, behind a sign where it is negative.
pub fn push_signed(out: &mut Vec<u8>, n: i64) -> Result<(), NoMemory>
    ensures { OnOk result (out.new.items ≡ out.old.items ++ signed_decimal n) }
{
    if n < 0 {
        out.push(b'-')?;
    }
    push_number(out, n.unsigned_abs())
}

/// Appends a register.
pub fn push_register(out: &mut Vec<u8>, r: u8) -> Result<(), NoMemory>
    ensures { OnOk result (out.new.items ≡ out.old.items ++ register_text r) }
{
    out.push(b'r')?;
    push_number(out, u64::from(r))
}

/// Appends a table's number.
pub fn push_table(out: &mut Vec<u8>, table: u8) -> Result<(), NoMemory>
    ensures { OnOk result (out.new.items ≡ out.old.items ++ table_text table) }
{
    out.push(b't')?;
    push_number(out, u64::from(table))
}

/// Appends the name of the block at a label.
pub fn push_label(out: &mut Vec<u8>, blocks: &[Block], label: u32) -> Result<(), NoMemory>
    ensures { OnOk result (out.new.items ≡ out.old.items
        ++ label_text (block_names blocks.now) label) }
{
    out.push(b'@')?;
    match blocks.get(label as usize) {
        None => Ok(()),
        Some(block) => push_bytes(out, block.name.items()),
    }
}

/// Appends a cell, by the register of its base and an offset.
pub fn push_cell(out: &mut Vec<u8>, base: u8, off: u16) -> Result<(), NoMemory>
    ensures { OnOk result (out.new.items ≡ out.old.items ++ cell_text base off) }
{
    push_bytes(out, b"mem[")?;
    push_register(out, base)?;
    push_bytes(out, b"+")?;
    push_number(out, u64::from(off))?;
    push_bytes(out, b"]")
}

/// Appends a place.
pub fn push_place(out: &mut Vec<u8>, place: Place) -> Result<(), NoMemory>
    ensures { OnOk result (out.new.items ≡ out.old.items ++ place_text place) }
{
    push_number(out, u64::from(place.line))?;
    push_bytes(out, b", ")?;
    push_number(out, u64::from(place.col))
}

/// Appends an operand.
pub fn push_value(out: &mut Vec<u8>, blocks: &[Block], value: Value) -> Result<(), NoMemory>
    ensures { OnOk result (out.new.items ≡ out.old.items
        ++ value_text (block_names blocks.now) value) }
{
    match value {
        Value::Reg(r) => push_register(out, r),
        Value::Int(n) => push_signed(out, n),
        Value::Label(label) => push_label(out, blocks, label),
        Value::Nil => push_bytes(out, b"nil"),
    }
}

/// Appends an operator's name.
pub fn push_alu(out: &mut Vec<u8>, alu: Alu) -> Result<(), NoMemory>
    ensures { OnOk result (out.new.items ≡ out.old.items ++ alu_text alu) }
{
    match alu {
        Alu::Add => push_bytes(out, b"add"),
        Alu::Sub => push_bytes(out, b"sub"),
        Alu::Mul => push_bytes(out, b"mul"),
        Alu::Div => push_bytes(out, b"div"),
        Alu::Rem => push_bytes(out, b"rem"),
        Alu::Eq => push_bytes(out, b"eq"),
        Alu::Ne => push_bytes(out, b"ne"),
        Alu::Lt => push_bytes(out, b"lt"),
        Alu::Le => push_bytes(out, b"le"),
        Alu::Min => push_bytes(out, b"min"),
        Alu::Max => push_bytes(out, b"max"),
        Alu::Affine => push_bytes(out, b"affine"),
    }
}

/// Appends the name of a trap.
pub fn push_trap(out: &mut Vec<u8>, kind: TrapKind) -> Result<(), NoMemory>
    ensures { OnOk result (out.new.items ≡ out.old.items ++ trap_text kind) }
{
    match kind {
        TrapKind::Divide => push_bytes(out, b"Divide"),
        TrapKind::Index => push_bytes(out, b"Index"),
        TrapKind::Deep => push_bytes(out, b"Deep"),
        TrapKind::Size => push_bytes(out, b"Size"),
        TrapKind::Wide => push_bytes(out, b"Wide"),
    }
}
