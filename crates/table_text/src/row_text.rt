// Writing a row of numbers.

ghost use Rattle.std.specs.Prelude.{◌≡◌, ◌++◌, ◌∷◌, [], OnOk, OnErr, take, length, if◌then◌else◌};
ghost use Rattle.std.specs.Fmt.{signed_decimal};
ghost use Rattle.table_text.specs.RowText.{row_text};

use itoa::Buffer;
use tp_value::NoMemory;

/// Appends a row as a line: its numbers in decimal with single spaces between them, and a line
/// end. An empty row is the line end alone. Where memory is wanting nothing is appended.
pub fn push_row_text(out: &mut Vec<u8>, row: &[i64]) -> Result<(), NoMemory>
    ensures line { OnOk result (out.new.items ≡ out.old.items ++ row_text row.now) }
    ensures unchanged { OnErr result (out.new.items ≡ out.old.items) }
{
    let before = out.len();
    let pushed = push_line(out, row);
    if pushed.is_err() {
        out.truncate(before);
    }
    pushed
}

/// Appends the line, or where memory is wanting a part of it.
fn push_line(out: &mut Vec<u8>, row: &[i64]) -> Result<(), NoMemory>
    ensures line { OnOk result (out.new.items ≡ out.old.items ++ row_text row.now) }
    ensures kept { take (length out.old.items) out.new.items ≡ out.old.items }
{
    for (column, number) in row.iter().enumerate() {
        push_number(out, column == 0, *number)?;
    }
    out.push(b'\n')?;
    Ok(())
}

/// Appends a number, behind a space where it isn't the first.
fn push_number(out: &mut Vec<u8>, is_first: bool, number: i64) -> Result<(), NoMemory>
    ensures number { OnOk result
        (out.new.items
        ≡ out.old.items ++ ((if is_first then [] else 32 ∷ []) ++ signed_decimal number)) }
    ensures kept { take (length out.old.items) out.new.items ≡ out.old.items }
{
    if !is_first {
        out.push(b' ')?;
    }
    let mut buffer = Buffer::new();
    out.extend_from_slice(buffer.format(number).as_bytes())?;
    Ok(())
}
