// The cells of a table.

ghost use Rattle.std.specs.Prelude.{◌≡◌, ◌≤◌, ℕ, List, [], IfOk, IfErr, Ok, Err, length};
ghost use Rattle.tp_value.specs.declared.values.Table.{Table};
ghost use Rattle.table_text.specs.Reading.{tokens_at, read, filled, OnFault};

use crate::fault::TableFault;
use crate::number::read_number;
use std::alloc::Global;

/// The numbers of a table's cells.
#[derive(Drop)]
pub struct Cells {
    /// The numbers, row by row.
    pub values: Vec<i64>,
    /// The first byte behind the last.
    pub end: usize,
}

/// So many numbers from a byte on, or `Form` with the byte of the first token that is none.
pub fn read_cells(
    alloc: Global,
    text: &[u8],
    from: usize,
    count: usize,
) -> Result<Cells, TableFault>
    requires { from ≤ length text.now }
    ensures cells { IfOk result (λ cells. (before : List Table) (name : List ℕ) (rows cols : ℕ) →
        read (length text.now) (tokens_at text.now from) (filled before name rows cols [] count)
        ≡ read (length text.now) (tokens_at text.now cells.end)
        (filled before name rows cols cells.values.items 0)) }
    ensures behind { IfOk result (λ cells. from ≤ cells.end) }
    ensures within { IfOk result (λ cells. cells.end ≤ length text.now) }
    ensures fault { IfErr result (λ fault.
        OnFault fault ((before : List Table) (name : List ℕ) (rows cols : ℕ) →
        read (length text.now) (tokens_at text.now from) (filled before name rows cols [] count)
        ≡ Err fault)) }
{
    let mut values = Vec::with_capacity(alloc, count)?;
    let mut at = from;
    for _cell in 0..count {
        let number = read_number(text, at)?;
        values.push(number.value)?;
        at = number.end;
    }
    Ok(Cells { values, end: at })
}
