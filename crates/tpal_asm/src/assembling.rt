// From a text to its code.

ghost use Rattle.std.specs.Prelude.{◌≡◌, ◌≤◌, ◌++◌, ◌∷◌, [], ℕ, List, IfOk, IfErr, MatchResult};
ghost use Rattle.std.specs.Prelude.{length};
ghost use Rattle.tpal_syntax.specs.Conditions.{IsCode, is_ready as is_ready_note};
ghost use Rattle.tpal_syntax.specs.Text.{CodeText};
ghost use Rattle.tpal_asm.specs.declared.fault.AsmFault.{AsmFault as Fault};
ghost use Rattle.tpal_asm.specs.declared.fault.AsmFault.TheVariants as faults;
ghost use Rattle.tpal_syntax.specs.declared.blocks.Block.{Block};
ghost use Rattle.tpal_syntax.specs.declared.blocks.CodeTable.{CodeTable};
ghost use Rattle.tpal_asm.specs.Lines.{pieces, AreLines};
ghost use Rattle.tpal_asm.specs.Labels.{heads};
ghost use Rattle.tpal_asm.specs.Drafts.{AreHeads, Outside, IsWhole};
ghost use Rattle.tpal_asm.specs.Faults.{FirstFaultIn, FirstFault, OnFault};
ghost use Rattle.tpal_asm.specs.Steps.{seen};

use crate::drafts::Draft;
use crate::fault::{AsmFault, at_line};
use crate::labels::Labels;
use crate::lines::{first_number, lines_of, next_line, version_of};
use crate::steps::{read_header, step};
use std::alloc::Global;
use tp_value::NoMemory;
use tpal_syntax::{Code, Note, Version};

/// The code of a text of version 1 or 2, or its first fault. Where a text has a code, that code is
/// answered or memory was wanting; where it has a fault, that one is its only first fault, and is
/// answered or memory was wanting.
pub fn assemble(alloc: Global, text: &[u8]) -> Result<Code, AsmFault>
    requires bound { length text.now ≤ 67108864 }
    ensures code { IfOk result (λ code. CodeText text.now code.tables code.blocks) }
    ensures fault { IfErr result (λ fault. OnFault fault (FirstFault text.now fault)) }
    ensures refused { IfErr result (λ fault. OnFault fault (
        (tables : List CodeTable) (blocks : List Block) → ¬ CodeText text.now tables blocks)) }
    ensures no_fault { (tables : List CodeTable) (blocks : List Block) →
        CodeText text.now tables blocks →
        MatchResult result (λ code. code ≡ record { tables = tables; blocks = blocks })
        (λ fault. fault ≡ faults.NoMemory) }
    ensures first_fault { (first : Fault) → FirstFault text.now first →
        MatchResult result (λ code. ⊥) (λ fault. OnFault fault (fault ≡ first)) }
{
    let version = version_of(text);
    let lines = lines_of(text);
    let labels = read_labels(alloc, version, lines)?;
    read_code(alloc, &labels, lines)
}

// The names of the blocks of the lines of a text of this version.
fn read_labels(alloc: Global, version: Version, text: &[u8]) -> Result<Labels<'_>, NoMemory>
    requires bound { length text.now ≤ 67108864 }
    ensures named { IfOk result (λ labels.
        (lines : List (List ℕ)) (last : List ℕ) → pieces text.now ≡ lines ++ last ∷ [] →
        AreHeads version [] lines (heads labels.places)) }
    ensures version { IfOk result (λ labels. labels.version ≡ version) }
{
    let none = Labels::new(alloc, version);
    let mut labels = Labels::new(alloc, version);
    let mut rest = text;
    while let Some((line, others)) = next_line(rest) {
        if let Some((name, _number, note)) = read_header(alloc, &none, line)? {
            labels.add(name, is_ready(&note))?;
        }
        rest = others;
    }
    Ok(labels)
}

fn is_ready(note: &Note) -> bool
    ensures { result ≡ is_ready_note note.now }
{
    match note {
        Note::Plain => false,
        Note::Ready(_) => true,
        Note::Target(_) => false,
    }
}

// The code of the lines of a text, or the first fault in them.
fn read_code(alloc: Global, labels: &Labels, text: &[u8]) -> Result<Code, AsmFault>
    requires bound { length text.now ≤ 67108864 }
    requires named { (lines : List (List ℕ)) (last : List ℕ) →
        pieces text.now ≡ lines ++ last ∷ [] →
        AreHeads labels.now.version [] lines (heads labels.now.places) }
    ensures code { IfOk result (λ code.
        AreLines labels.now.version text.now code.tables code.blocks) }
    ensures fault { IfErr result (λ fault.
        OnFault fault (FirstFaultIn labels.now.version text.now fault)) }
{
    let mut draft = Draft {
        tables: Vec::new(alloc),
        blocks: Vec::new(alloc),
        begun: None,
    };
    let mut line = first_number(labels.version);
    let mut rest = text;
    while let Some((first, others)) = next_line(rest) {
        match step(alloc, labels, draft, first) {
            Err(wrong) => return Err(at_line(wrong, line)),
            Ok(next) => draft = next,
        }
        line += 1;
        rest = others;
    }
    if !rest.is_empty() {
        return Err(AsmFault::Form(line));
    }
    end(alloc, draft, line)
}

// The code behind the last line, which has this number.
fn end(alloc: Global, draft: Draft, line: u32) -> Result<Code, AsmFault>
    requires right { IsWhole (seen draft) → IsCode draft.tables.items draft.blocks.items }
    ensures code { IfOk result (λ code. IsCode code.tables code.blocks) }
    ensures last { IfOk result (λ code. seen draft ≡ Outside code.tables code.blocks) }
    ensures fault { IfErr result (λ fault.
        OnFault fault ((fault ≡ faults.Form line) × (¬ IsWhole (seen draft)))) }
{
    let Draft {
        tables,
        blocks,
        begun,
    } = draft;
    if begun.is_some() {
        return Err(AsmFault::Form(line));
    }
    match Code::new(alloc, tables, blocks)? {
        None => Err(AsmFault::Form(line)),
        Some(code) => Ok(code),
    }
}
