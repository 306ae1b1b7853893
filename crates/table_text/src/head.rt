// The first tokens of a table: the word, the name, the rows and the columns.

ghost use Rattle.std.specs.Prelude.{◌≡◌, ◌≤◌, ◌+◌, ◌*◌, ◌<◌, ◌||◌, ◌∷◌, [], ℕ, List, IfOk, IfErr};
ghost use Rattle.std.specs.Prelude.{Ok, Err, None, length, bytes_eq, codes};
ghost use Rattle.tp_value.specs.declared.values.Table.{Table};
ghost use Rattle.table_text.specs.Wanted.{name_misfit, size_misfit, cells_of};
ghost use Rattle.table_text.specs.Reading.{tokens_at, read, filled, Between, OnFault, HoldsNames};
ghost use Rattle.table_text.specs.Reading.{has_name, TakesName, TakesSize, TokenMisfits};

use crate::fault::TableFault;
use crate::names::add_name;
use crate::word::{TableToken, is_word, next_word, run_at};
use std::collections::BTreeSet;
use tp_value::{MAX_SIDE, MAX_TABLE_CELLS};

/// A number of rows or columns.
#[derive(Clone, Copy)]
pub struct Size {
    /// The number, at most `MAX_SIDE`.
    pub value: u32,
    /// The first byte behind it.
    pub end: usize,
}

fn is_table_word(bytes: &[u8]) -> bool
    ensures { result ≡ bytes_eq bytes.now (codes "table") }
{
    bytes == b"table".as_slice()
}

/// The next token, which the text must have.
fn wanted_word(text: &[u8], from: usize) -> Result<TableToken<'_>, TableFault>
    requires { from ≤ length text.now }
    ensures word { IfOk result (λ word.
        tokens_at text.now from
        ≡ record { at = word.at; bytes = word.bytes.now } ∷ tokens_at text.now word.end) }
    ensures behind { IfOk result (λ word. from < word.end) }
    ensures within { IfOk result (λ word. word.end ≤ length text.now) }
    ensures fault { IfErr result (λ fault.
        TokenMisfits (length text.now) (λ token. None) (tokens_at text.now from) fault) }
{
    match next_word(text, from) {
        Some(word) => Ok(word),
        None => Err(TableFault::Form(text.len() as u64)),
    }
}

/// The next token as a name that isn't among the names, which it joins.
fn read_name<'a>(
    text: &'a [u8],
    from: usize,
    names: &mut BTreeSet<&'a [u8]>,
) -> Result<TableToken<'a>, TableFault>
    requires { from ≤ length text.now }
    ensures name { IfOk result (λ name.
        TakesName (has_name names.old) (tokens_at text.now from) name.bytes.now
        (tokens_at text.now name.end)) }
    ensures behind { IfOk result (λ name. from < name.end) }
    ensures within { IfOk result (λ name. name.end ≤ length text.now) }
    ensures names { IfOk result (λ name.
        (other : List ℕ) →
        has_name names.new other
        ≡ (bytes_eq name.bytes.now other || has_name names.old other)) }
    ensures fault { IfErr result (λ fault.
        OnFault fault (TokenMisfits (length text.now)
        (λ token. name_misfit (has_name names.old token.bytes) token)
        (tokens_at text.now from) fault)) }
{
    let word = wanted_word(text, from)?;
    if !is_word(word.bytes) {
        return Err(TableFault::Form(word.at as u64));
    }
    if !add_name(names, word.bytes)? {
        return Err(TableFault::Repeated(word.at as u64));
    }
    Ok(word)
}

/// The next token as a number of rows or columns of `each` cells, where `cells` are there already.
fn read_size(text: &[u8], from: usize, cells: u32, each: u32) -> Result<Size, TableFault>
    requires from { from ≤ length text.now }
    requires cells { cells ≤ MAX_TABLE_CELLS }
    requires each { each ≤ MAX_SIDE }
    ensures size { IfOk result (λ size.
        TakesSize cells each (tokens_at text.now from) size.value
        (tokens_at text.now size.end)) }
    ensures behind { IfOk result (λ size. from < size.end) }
    ensures within { IfOk result (λ size. size.end ≤ length text.now) }
    ensures side { IfOk result (λ size. size.value ≤ MAX_SIDE) }
    ensures room { IfOk result (λ size. cells + each * size.value ≤ MAX_TABLE_CELLS) }
    ensures fault { IfErr result (λ fault.
        TokenMisfits (length text.now) (size_misfit cells each) (tokens_at text.now from)
        fault) }
{
    let word = wanted_word(text, from)?;
    let run = run_at(word.bytes, 0);
    if run.end == 0 || run.end < word.bytes.len() {
        return Err(TableFault::Form(word.at as u64));
    }
    if run.value > u64::from(MAX_SIDE) {
        return Err(TableFault::Cells(word.at as u64));
    }
    if u64::from(cells) + u64::from(each) * run.value > u64::from(MAX_TABLE_CELLS) {
        return Err(TableFault::Cells(word.at as u64));
    }
    Ok(Size {
        value: run.value as u32,
        end: word.end,
    })
}

/// What the first tokens of a table say.
#[derive(Clone, Copy)]
pub struct Head<'a> {
    /// The name.
    pub name: &'a [u8],
    /// The number of rows, at most `MAX_SIDE`.
    pub rows: u32,
    /// The number of columns, at most `MAX_SIDE`.
    pub cols: u32,
    /// The first byte behind these tokens.
    pub end: usize,
}

/// A table's first tokens, of which the first one is `word`; all tables so far have `cells` cells,
/// and their names are `names`, which the new name joins. It is refused at the first token that
/// doesn't fit, a size that is too great, or a name that is there already.
pub fn read_head<'a>(
    text: &'a [u8],
    word: &TableToken<'a>,
    names: &mut BTreeSet<&'a [u8]>,
    cells: u32,
) -> Result<Head<'a>, TableFault>
    requires end { word.now.end ≤ length text.now }
    requires cells { cells ≤ MAX_TABLE_CELLS }
    ensures head { IfOk result (λ head.
        (before : List Table) → HoldsNames names.old before → cells ≡ cells_of before →
        read (length text.now)
        (record { at = word.now.at; bytes = word.now.bytes.now } ∷ tokens_at text.now word.now.end)
        (Between before)
        ≡ read (length text.now) (tokens_at text.now head.end)
        (filled before head.name.now head.rows head.cols [] (head.rows * head.cols))) }
    ensures names { IfOk result (λ head.
        (other : List ℕ) →
        has_name names.new other
        ≡ (bytes_eq head.name.now other || has_name names.old other)) }
    ensures behind { IfOk result (λ head. word.now.end ≤ head.end) }
    ensures within { IfOk result (λ head. head.end ≤ length text.now) }
    ensures room { IfOk result (λ head. cells + head.rows * head.cols ≤ MAX_TABLE_CELLS) }
    ensures fault { IfErr result (λ fault.
        OnFault fault ((before : List Table) → HoldsNames names.old before →
        cells ≡ cells_of before →
        read (length text.now)
        (record { at = word.now.at; bytes = word.now.bytes.now } ∷ tokens_at text.now word.now.end)
        (Between before)
        ≡ Err fault)) }
{
    if !is_table_word(word.bytes) {
        return Err(TableFault::Form(word.at as u64));
    }
    let name = read_name(text, word.end, names)?;
    let rows = read_size(text, name.end, 0, 0)?;
    let cols = read_size(text, rows.end, cells, rows.value)?;
    Ok(Head {
        name: name.bytes,
        rows: rows.value,
        cols: cols.value,
        end: cols.end,
    })
}
