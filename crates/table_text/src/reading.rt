// Reading a tables text.

ghost use Rattle.std.specs.Prelude.{◌≡◌, ◌≤◌, ◌+◌, ◌*◌, ◌∷◌, ◌++◌, [], ◌⊎◌, List, IfOk, IfErr};
ghost use Rattle.std.specs.Prelude.{MatchResult, Ok, Err, length};
ghost use Rattle.tp_value.specs.declared.values.Table.{Table};
ghost use Rattle.table_text.specs.declared.fault.TableFault.{TableFault};
ghost use Rattle.table_text.specs.Wanted.{cells_of};
ghost use Rattle.table_text.specs.TablesText.{TablesOf, FirstTableFault};
ghost use Rattle.table_text.specs.Reading.{tokens_at, read, Between, OnFault, HoldsNames};

use crate::cells::read_cells;
use crate::fault::TableFault;
use crate::head::read_head;
use crate::word::{TableToken, next_word};
use std::alloc::Global;
use std::collections::BTreeSet;
use tp_value::{Items, MAX_TABLE_CELLS, MAX_TABLES_BYTES, Table};

/// The tables of a text, in order, or the text's first fault with its byte: the first token that
/// doesn't fit, a size that is too great, or a name that stood before.
pub fn read_tables(alloc: Global, text: &[u8]) -> Result<Vec<Table>, TableFault>
    requires { length text.now ≤ MAX_TABLES_BYTES }

    ensures tables { IfOk result (λ tables. TablesOf text.now tables.items) }
    ensures accepted { (tables : List Table) → TablesOf text.now tables →
        MatchResult result (λ read. read.items ≡ tables) (λ fault. fault ≡ TableFault.NoMemory) }

    ensures fault { IfErr result (λ fault.
        (fault ≡ TableFault.NoMemory) ⊎ FirstTableFault text.now fault) }
    ensures refused { (first : TableFault) → FirstTableFault text.now first →
        MatchResult result (λ _. ⊥) (λ fault. (fault ≡ TableFault.NoMemory) ⊎ (fault ≡ first)) }
{
    read_text(alloc, text)
}

/// The same in the reader's words.
fn read_text(alloc: Global, text: &[u8]) -> Result<Vec<Table>, TableFault>
    ensures tables { IfOk result (λ tables.
        read (length text.now) (tokens_at text.now 0) (Between []) ≡ Ok tables.items) }
    ensures fault { IfErr result (λ fault.
        OnFault fault (read (length text.now) (tokens_at text.now 0) (Between [])
        ≡ Err fault)) }
{
    let mut tables = Vec::new(alloc);
    let mut names = BTreeSet::new(alloc);
    let mut cells = 0;
    let mut at = 0;
    while let Some(word) = next_word(text, at) {
        let next = read_table(alloc, text, &word, &mut names, cells)?;
        cells += next.table.rows * next.table.cols;
        at = next.end;
        tables.push(next.table)?;
    }
    Ok(tables)
}

/// A table, and the first byte behind it.
#[derive(Drop)]
struct NextTable {
    table: Table,
    end: usize,
}

/// The table whose first token is `word`; all tables so far have `cells` cells, and their names are
/// `names`, which the new name joins.
fn read_table<'a>(
    alloc: Global,
    text: &'a [u8],
    word: &TableToken<'a>,
    names: &mut BTreeSet<&'a [u8]>,
    cells: u32,
) -> Result<NextTable, TableFault>
    requires end { word.now.end ≤ length text.now }
    requires cells { cells ≤ MAX_TABLE_CELLS }
    ensures table { IfOk result (λ next.
        (before : List Table) → HoldsNames names.old before → cells ≡ cells_of before →
        read (length text.now)
        (record { at = word.now.at; bytes = word.now.bytes.now } ∷ tokens_at text.now word.now.end)
        (Between before)
        ≡ read (length text.now) (tokens_at text.now next.end)
        (Between (before ++ next.table ∷ []))) }
    ensures names { IfOk result (λ next.
        (before : List Table) → HoldsNames names.old before →
        HoldsNames names.new (before ++ next.table ∷ [])) }
    ensures behind { IfOk result (λ next. word.now.end ≤ next.end) }
    ensures within { IfOk result (λ next. next.end ≤ length text.now) }
    ensures room { IfOk result (λ next.
        cells + next.table.rows * next.table.cols ≤ MAX_TABLE_CELLS) }
    ensures fault { IfErr result (λ fault.
        OnFault fault ((before : List Table) → HoldsNames names.old before →
        cells ≡ cells_of before →
        read (length text.now)
        (record { at = word.now.at; bytes = word.now.bytes.now } ∷ tokens_at text.now word.now.end)
        (Between before)
        ≡ Err fault)) }
{
    let head = read_head(text, word, names, cells)?;
    let cells = read_cells(alloc, text, head.end, (head.rows * head.cols) as usize)?;
    let name = Vec::from_slice(alloc, head.name)?;
    Ok(NextTable {
        table: Table {
            name: Items::new(name),
            rows: head.rows,
            cols: head.cols,
            cells: Items::new(cells.values),
        },
        end: cells.end,
    })
}
