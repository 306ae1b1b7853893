// From a draft to the next one by a line.

ghost use Rattle.std.specs.Prelude.{◌≡◌, ◌≤◌, ◌++◌, ◌∷◌, [], ℕ, List, IfOk, IfErr, true, length};
ghost use Rattle.std.specs.Prelude.{◌==◌, codes};
ghost use Rattle.tpal_syntax.specs.Parts.{is_instr, is_term};
ghost use Rattle.tpal_asm.specs.Reading.{ended, instr_rest, term_rest};
ghost use Rattle.tpal_asm.specs.Labels.{heads, names_of, place_of};
ghost use Rattle.tpal_asm.specs.Drafts.{Outside, Inside, Says, IsNewName, IsWithin, is_among};
ghost use Rattle.tpal_asm.specs.Faults.{IsWrong, OnWrong};
ghost use Rattle.std.specs.Prelude.{◌<◌, OnOk, IfSome, Some, None, false, slice_index_or};
ghost use Rattle.tpal_syntax.specs.Conditions.{block_names, input_names};
ghost use Rattle.tpal_syntax.specs.declared.blocks.CodeTable.{CodeTable};
ghost use Rattle.tpal_asm.specs.declared.fault.Wrong.TheVariants as wrongs;
ghost use Rattle.tpal_syntax.specs.Readers.{after};
ghost use Rattle.tpal_asm.specs.Reading.{Reads, rest_of, number_rest_of, header_rest};
ghost use Rattle.tpal_asm.specs.Reading.{header_number, table_line_rest};
ghost use Rattle.tpal_asm.specs.Steps.{seen, Unfit, HandlerUnfit, NoteFits, NoteUnfit, header_of};
ghost use Rattle.tpal_asm.specs.Steps.{table_of, is_input_of, IsUnrepeated, TableUnfit, is_next};

use crate::drafts::{Begun, Draft};
use crate::fault::Wrong;
use crate::instructions::{instr, term};
use crate::labels::Labels;
use crate::notes::note;
use crate::parts::{behind, number, word};
use std::alloc::Global;
use tp_value::{Items, MAX_BLOCKS, MAX_TABLES, NoMemory};
use tpal_syntax::{Block, CodeTable, Instr, Note, Term, Version, is_instr, is_target, is_term};

/// Greater than every label.
const ANY_LABEL: u32 = 4_294_967_295;

/// The draft behind a line, which ends with its LF.
pub fn step(alloc: Global, labels: &Labels, draft: Draft, line: &[u8]) -> Result<Draft, Wrong>
    requires named { IsNewName (seen draft) }
    requires small { IsWithin (seen draft) }
    requires front { (more : List (List ℕ))
        × (names_of (heads labels.now.places) ≡ block_names draft.blocks.items ++ more) }
    ensures right { IfOk result (λ next. (bytes : List ℕ) → line.now ≡ bytes ++ 10 ∷ [] →
        Says labels.now.version (heads labels.now.places) (names_of (heads labels.now.places))
        (seen draft) bytes (seen next)) }
    ensures new { IfOk result (λ next. IsNewName (seen next)) }
    ensures within { IfOk result (λ next. IsWithin (seen next)) }
    ensures wrong { IfErr result (λ w. OnWrong w ((bytes : List ℕ) → line.now ≡ bytes ++ 10 ∷ [] →
        IsWrong labels.now.version (heads labels.now.places) (seen draft) bytes w)) }
{
    let Draft {
        tables,
        blocks,
        begun,
    } = draft;
    match begun {
        Some(begun) => inside(labels, tables, blocks, begun, line),
        None => outside(alloc, labels, tables, blocks, line),
    }
}

// A line of a block that has begun.
fn inside(
    labels: &Labels,
    tables: Vec<CodeTable>,
    blocks: Vec<Block>,
    begun: Begun,
    line: &[u8],
) -> Result<Draft, Wrong>
    requires few { length tables.items ≤ 16 }
    requires room { length blocks.items < 65536 }
    requires named { is_among begun.name (block_names blocks.items) ≡ false }
    ensures right { IfOk result (λ next. (bytes : List ℕ) → line.now ≡ bytes ++ 10 ∷ [] →
        Says labels.now.version (heads labels.now.places) (names_of (heads labels.now.places))
        (Inside tables.items blocks.items begun.name begun.note begun.body.items) bytes
        (seen next)) }
    ensures new { IfOk result (λ next. IsNewName (seen next)) }
    ensures within { IfOk result (λ next. IsWithin (seen next)) }
    ensures wrong { IfErr result (λ w. OnWrong w ((bytes : List ℕ) → line.now ≡ bytes ++ 10 ∷ [] →
        IsWrong labels.now.version (heads labels.now.places)
        (Inside tables.items blocks.items begun.name begun.note begun.body.items) bytes w)) }
{
    let Some(rest) = behind(line, b"  ") else {
        return Err(Wrong::Form);
    };
    if let Some(instr) = whole_instr(labels, rest) {
        return with_instr(labels, tables, blocks, begun, instr);
    }
    match whole_term(labels, rest) {
        None => Err(Wrong::Form),
        Some(term) => with_end(labels, tables, blocks, begun, term),
    }
}

// Whether the byte that ends a line is all that is left.
fn is_end(text: &[u8]) -> bool
    ensures { result ≡ (length text.now == 1) }
{
    text.len() == 1
}

fn whole_instr(labels: &Labels, text: &[u8]) -> Option<Instr>
    ensures { result ≡ ended (instr_rest (place_of (heads labels.now.places)) text.now) }
{
    let (instr, rest) = instr(labels, text)?;
    if is_end(rest) { Some(instr) } else { None }
}

fn whole_term(labels: &Labels, text: &[u8]) -> Option<Term>
    ensures { result
        ≡ ended (term_rest labels.now.version (place_of (heads labels.now.places)) text.now) }
{
    let (term, rest) = term(labels, text)?;
    if is_end(rest) { Some(term) } else { None }
}

fn with_instr(
    labels: &Labels,
    tables: Vec<CodeTable>,
    blocks: Vec<Block>,
    begun: Begun,
    instr: Instr,
) -> Result<Draft, Wrong>
    requires few { length tables.items ≤ 16 }
    ensures fits { IfOk result (λ next.
        is_instr (length tables.items) (length (names_of (heads labels.now.places))) instr ≡ true) }
    ensures next { IfOk result (λ next. seen next ≡
        Inside tables.items blocks.items begun.name begun.note (begun.body.items ++ instr ∷ [])) }
    ensures wrong { IfErr result (λ w.
        Unfit (λ labels. is_instr (length tables.items) labels instr)
        (length (names_of (heads labels.now.places))) w) }
{
    if !is_instr(tables.len() as u8, ANY_LABEL, instr) {
        return Err(Wrong::Form);
    }
    if !is_instr(tables.len() as u8, labels.count(), instr) {
        return Err(Wrong::Label);
    }
    let Begun {
        name,
        note,
        mut body,
    } = begun;
    body.push(instr)?;
    Ok(Draft {
        tables,
        blocks,
        begun: Some(Begun { name, note, body }),
    })
}

fn with_end(
    labels: &Labels,
    tables: Vec<CodeTable>,
    mut blocks: Vec<Block>,
    begun: Begun,
    term: Term,
) -> Result<Draft, Wrong>
    ensures fits { IfOk result (λ next.
        is_term (length (names_of (heads labels.now.places))) term ≡ true) }
    ensures next { IfOk result (λ next. seen next ≡ Outside tables.items (blocks.items
        ++ record { name = begun.name; note = begun.note; body = begun.body.items; term = term }
        ∷ [])) }
    ensures wrong { IfErr result (λ w.
        Unfit (λ labels. is_term labels term) (length (names_of (heads labels.now.places)))
        w) }
{
    if !is_term(ANY_LABEL, term) {
        return Err(Wrong::Form);
    }
    if !is_term(labels.count(), term) {
        return Err(Wrong::Label);
    }
    let Begun { name, note, body } = begun;
    blocks.push(Block {
        name,
        note,
        body: Items::new(body),
        term,
    })?;
    Ok(Draft {
        tables,
        blocks,
        begun: None,
    })
}

// A line behind tables alone, or behind a whole block.
fn outside(
    alloc: Global,
    labels: &Labels,
    tables: Vec<CodeTable>,
    blocks: Vec<Block>,
    line: &[u8],
) -> Result<Draft, Wrong>
    requires few { length tables.items ≤ 16 }
    requires room { length blocks.items ≤ 65536 }
    requires front { (more : List (List ℕ))
        × (names_of (heads labels.now.places) ≡ block_names blocks.items ++ more) }
    ensures right { IfOk result (λ next. (bytes : List ℕ) → line.now ≡ bytes ++ 10 ∷ [] →
        Says labels.now.version (heads labels.now.places) (names_of (heads labels.now.places))
        (Outside tables.items blocks.items) bytes (seen next)) }
    ensures new { IfOk result (λ next. IsNewName (seen next)) }
    ensures within { IfOk result (λ next. IsWithin (seen next)) }
    ensures wrong { IfErr result (λ w. OnWrong w ((bytes : List ℕ) → line.now ≡ bytes ++ 10 ∷ [] →
        IsWrong labels.now.version (heads labels.now.places) (Outside tables.items blocks.items)
        bytes w)) }
{
    match behind(line, b"table t") {
        Some(rest) => {
            if blocks.is_empty() {
                table(alloc, tables, rest)
            } else {
                Err(Wrong::Form)
            }
        }
        None => header(alloc, labels, tables, blocks, line),
    }
}

// The line of a table, behind its first word.
fn table(alloc: Global, mut tables: Vec<CodeTable>, text: &[u8]) -> Result<Draft, Wrong>
    ensures read { IfOk result (λ next.
        (table : CodeTable)
        × (ended (table_line_rest text.now) ≡ Some (length tables.items, table))
        × IsUnrepeated tables.items table × (length tables.items < 16)
        × (seen next ≡ Outside (tables.items ++ table ∷ []) [])) }
    ensures wrong { IfErr result (λ w. TableUnfit tables.items text.now w) }
{
    let table = read_table(alloc, &tables, text)?;
    if tables.len() >= MAX_TABLES {
        return Err(Wrong::Limit);
    }
    tables.push(table)?;
    Ok(Draft {
        tables,
        blocks: Vec::new(alloc),
        begun: None,
    })
}

// The table of a line, behind its first word; its number is the next one, and its name is new.
fn read_table(alloc: Global, tables: &[CodeTable], text: &[u8]) -> Result<CodeTable, Wrong>
    ensures read { IfOk result (λ table.
        ended (table_line_rest text.now) ≡ Some (length tables.now, table)) }
    ensures new { IfOk result (λ table. IsUnrepeated tables.now table) }
    ensures wrong { IfErr result (λ w. OnWrong w ((w ≡ wrongs.Form) × ((table : CodeTable) →
        ended (table_line_rest text.now) ≡ Some (length tables.now, table) →
        ¬ IsUnrepeated tables.now table))) }
{
    let Some((number, table, rest)) = table_line(text) else {
        return Err(Wrong::Form);
    };
    if number != tables.len() as u64 || !is_end(rest) {
        return Err(Wrong::Form);
    }
    match table {
        None => Ok(CodeTable::Made),
        Some(name) => {
            if is_input(tables, name) {
                Err(Wrong::Form)
            } else {
                Ok(CodeTable::Input(Items::new(Vec::from_slice(alloc, name)?)))
            }
        }
    }
}

// The number of a table, the name where it is an input, and the rest.
#[tactic(auto, unfolding(crate::specs::Reading::table_line_rest))]
fn table_line(text: &[u8]) -> Option<(u64, Option<&[u8]>, &[u8])>
    ensures { Reads table_of result (table_line_rest text.now) }
{
    let (number, rest) = number(text, 16)?;
    if let Some(rest) = behind(rest, b" made") {
        return Some((number, None, rest));
    }
    let rest = behind(rest, b" input ")?;
    let (name, rest) = word(rest)?;
    Some((number, Some(name), rest))
}

// Whether a table is the input of that name.
fn is_input(tables: &[CodeTable], name: &[u8]) -> bool
    ensures { result ≡ is_among name.now (input_names tables.now) }
{
    let mut rest = tables;
    while let Some((first, others)) = rest.split_first() {
        if is_named(first, name) {
            return true;
        }
        rest = others;
    }
    false
}

fn is_named(table: &CodeTable, name: &[u8]) -> bool
    ensures { result ≡ is_input_of name.now table.now }
{
    match table {
        CodeTable::Input(other) => name == other.items(),
        CodeTable::Made => false,
    }
}

// The first line of a block.
fn header(
    alloc: Global,
    labels: &Labels,
    tables: Vec<CodeTable>,
    blocks: Vec<Block>,
    line: &[u8],
) -> Result<Draft, Wrong>
    requires few { length tables.items ≤ 16 }
    requires room { length blocks.items ≤ 65536 }
    requires front { (more : List (List ℕ))
        × (names_of (heads labels.now.places) ≡ block_names blocks.items ++ more) }
    requires no_table { after (codes "table t") line.now ≡ None }
    ensures right { IfOk result (λ next. (bytes : List ℕ) → line.now ≡ bytes ++ 10 ∷ [] →
        Says labels.now.version (heads labels.now.places) (names_of (heads labels.now.places))
        (Outside tables.items blocks.items) bytes (seen next)) }
    ensures new { IfOk result (λ next. IsNewName (seen next)) }
    ensures within { IfOk result (λ next. IsWithin (seen next)) }
    ensures wrong { IfErr result (λ w. OnWrong w ((bytes : List ℕ) → line.now ≡ bytes ++ 10 ∷ [] →
        IsWrong labels.now.version (heads labels.now.places) (Outside tables.items blocks.items)
        bytes w)) }
{
    let Some((name, number, note)) = read_header(alloc, labels, line)? else {
        return Err(Wrong::Form);
    };
    if !is_next(labels.version, number, blocks.len()) {
        return Err(Wrong::Form);
    }
    match check_note(labels, tables.len() as u8, &note) {
        Ok(()) => {}
        Err(wrong) => return Err(wrong),
    }
    if (labels.place(name) as usize) < blocks.len() {
        return Err(Wrong::Label);
    }
    if blocks.len() >= MAX_BLOCKS as usize {
        return Err(Wrong::Limit);
    }
    Ok(Draft {
        tables,
        blocks,
        begun: Some(Begun {
            name: Items::new(Vec::from_slice(alloc, name)?),
            note,
            body: Vec::new(alloc),
        }),
    })
}

// Whether a block's number is that of the blocks before it, where the version has numbers.
fn is_next(version: Version, number: u64, blocks: usize) -> bool
    ensures { result ≡ is_next version number blocks }
{
    match version {
        Version::One => true,
        Version::Two => number == blocks as u64,
    }
}

/// The name, the number and the note in the first line of a block; the number is 0 where the
/// version has none.
#[tactic(auto, unfolding(crate::specs::Reading::header_rest, crate::specs::Reading::header_number))]
pub fn read_header<'a>(
    alloc: Global,
    labels: &Labels,
    line: &'a [u8],
) -> Result<Option<(&'a [u8], u64, Note)>, NoMemory>
    ensures read { IfOk result (λ read.
        Reads header_of read (ended (header_rest labels.now.version
        (place_of (heads labels.now.places)) line.now))) }
    ensures numbered { IfOk result (λ read. IfSome read (λ header.
        header_number labels.now.version line.now ≡ Some header.1)) }
{
    let Some((name, rest)) = word(line) else {
        return Ok(None);
    };
    let Some((number, rest)) = block_number(labels.version, rest) else {
        return Ok(None);
    };
    let Some(rest) = behind(rest, b": ") else {
        return Ok(None);
    };
    match note(alloc, labels, rest, rest.len())? {
        None => Ok(None),
        Some((note, rest)) => {
            if is_end(rest) {
                Ok(Some((name, number, note)))
            } else {
                Ok(None)
            }
        }
    }
}

// The number of a block behind its name, and the rest; 0 where the version has none.
#[tactic(auto, unfolding(crate::specs::Reading::number_rest_of))]
fn block_number(version: Version, text: &[u8]) -> Option<(u64, &[u8])>
    ensures { Reads rest_of result (number_rest_of version text.now) }
{
    match version {
        Version::One => Some((0, text)),
        Version::Two => number(behind(text, b" #")?, 9_223_372_036_854_775_807),
    }
}

// Whether a note breaks no condition, in a text with so many tables.
fn check_note(labels: &Labels, tables: u8, note: &Note) -> Result<(), Wrong>
    ensures fits { OnOk result (NoteFits (heads labels.now.places) tables note.now) }
    ensures unfit { IfErr result (λ w. NoteUnfit (heads labels.now.places) tables note.now w) }
{
    match note {
        Note::Plain => Ok(()),
        Note::Ready(handler) => check_handler(labels, *handler),
        Note::Target(target) => {
            if !is_target(tables, ANY_LABEL, target) {
                Err(Wrong::Form)
            } else if target.comb >= labels.count() {
                Err(Wrong::Label)
            } else {
                Ok(())
            }
        }
    }
}

fn check_handler(labels: &Labels, handler: u32) -> Result<(), Wrong>
    ensures fits { OnOk result ((handler < length (names_of (heads labels.now.places)))
        × ((slice_index_or (heads labels.now.places) handler ([], false)).1 ≡ false)) }
    ensures unfit { IfErr result (λ w. HandlerUnfit (heads labels.now.places) handler w) }
{
    match labels.is_ready(handler) {
        None => Err(Wrong::Label),
        Some(is_ready) => { if is_ready { Err(Wrong::Form) } else { Ok(()) } }
    }
}
