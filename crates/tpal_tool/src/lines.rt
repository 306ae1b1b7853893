// The lines of refusals.

ghost use Rattle.std.specs.Prelude.{◌≡◌, ◌≢◌, IfOk};
ghost use Rattle.tpal_tool.specs.ExecLines.{assembly_line, break_line, line_at_line};
ghost use Rattle.tpal_tool.specs.Lines.{bad_words_line, blocks_line, fault_line, fault_of, line_at};
ghost use Rattle.tpal_tool.specs.Lines.{line_at_byte, line_of, missing_line, not_built_line};
ghost use Rattle.tpal_tool.specs.Lines.{parallel_line, rule_line, tables_line, too_long_line};

use crate::refusal::{Refusal, SourceFault};
use std::alloc::{AllocError, Global};
use table_text::TableFault;
use tp_value::{NoMemory, Place};
use tpal_asm::AsmFault;

fn line_at(alloc: Global, code: &str, place: Place) -> Result<Vec<u8>, AllocError>
    ensures { IfOk result (λ line. line.items ≡ line_at code.now place) }
{
    let line = place.line;
    let col = place.col;
    let text = format!(in alloc; "refused {code} at {line}:{col}\n")?;
    Ok(text.into_bytes())
}

/// The line of a refused text.
fn fault_line(alloc: Global, fault: SourceFault) -> Result<Vec<u8>, AllocError>
    ensures { IfOk result (λ line. line.items ≡ fault_line (fault_of fault)) }
{
    match fault {
        SourceFault::Byte(place) => line_at(alloc, "E1", place),
        SourceFault::Range(place) => line_at(alloc, "E2", place),
        SourceFault::Form(place) => line_at(alloc, "E3", place),
        SourceFault::Deep(place) => line_at(alloc, "E14", place),
    }
}

/// The line of a program whose first broken rule on names, limits, output and variables of loops is
/// that one.
fn rule_line(alloc: Global, rule: u8, place: Place) -> Result<Vec<u8>, AllocError>
    ensures { IfOk result (λ line. line.items ≡ rule_line rule place) }
{
    let code = format!(in alloc; "E7 C{rule}")?;
    line_at(alloc, &code, place)
}

/// The line of a program whose first broken rule on parallel loops is that one.
fn parallel_line(alloc: Global, rule: u8, place: Place) -> Result<Vec<u8>, AllocError>
    ensures { IfOk result (λ line. line.items ≡ parallel_line rule place) }
{
    let code = format!(in alloc; "E8 C{rule}")?;
    line_at(alloc, &code, place)
}

fn line_at_byte(alloc: Global, code: &str, at: u64) -> Result<Vec<u8>, AllocError>
    ensures { IfOk result (λ line. line.items ≡ line_at_byte code.now at) }
{
    let text = format!(in alloc; "refused {code} at byte {at}\n")?;
    Ok(text.into_bytes())
}

/// The line of a refused tables text.
fn tables_line(alloc: Global, fault: TableFault) -> Result<Vec<u8>, NoMemory>
    ensures line { IfOk result (λ line. line.items ≡ tables_line fault) }
    ensures fault { IfOk result (λ line. fault ≢ TableFault.NoMemory) }
{
    match fault {
        TableFault::Form(at) => Ok(line_at_byte(alloc, "E4", at)?),
        TableFault::Cells(at) => Ok(line_at_byte(alloc, "E5", at)?),
        TableFault::Repeated(at) => Ok(line_at_byte(alloc, "E6", at)?),
        TableFault::NoMemory => Err(NoMemory),
    }
}

fn line_at_line(alloc: Global, code: &str, line: u32) -> Result<Vec<u8>, AllocError>
    ensures { IfOk result (λ text. text.items ≡ line_at_line code.now line) }
{
    let text = format!(in alloc; "refused {code} at line {line}\n")?;
    Ok(text.into_bytes())
}

/// The line of a refused code text.
fn assembly_line(alloc: Global, fault: AsmFault) -> Result<Vec<u8>, NoMemory>
    ensures { IfOk result (λ line. line.items ≡ assembly_line fault) }
{
    match fault {
        AsmFault::Form(line) => Ok(line_at_line(alloc, "E9", line)?),
        AsmFault::Label(line) => Ok(line_at_line(alloc, "E10", line)?),
        AsmFault::Limit(line) => Ok(line_at_line(alloc, "E11", line)?),
        AsmFault::NoMemory => Err(NoMemory),
    }
}

/// The line of a code whose first break is of this rule, at this position of the block of that
/// name.
fn break_line(alloc: Global, name: &[u8], at: u32, rule: u8) -> Result<Vec<u8>, AllocError>
    ensures { IfOk result (λ line. line.items ≡ break_line name.now at rule) }
{
    let front = format!(in alloc; "refused E16 V{rule} at ")?;
    let back = format!(in alloc; ":{at}\n")?;
    let mut line = front.into_bytes();
    line.extend_from_slice(name)?;
    line.extend_from_slice(back.as_bytes())?;
    Ok(line)
}

/// The line of a file above its limit.
fn too_long_line(alloc: Global, name: &str) -> Result<Vec<u8>, AllocError>
    ensures { IfOk result (λ line. line.items ≡ too_long_line name.now) }
{
    let text = format!(in alloc; "refused E15 file {name}\n")?;
    Ok(text.into_bytes())
}

/// The line of a program with a statement for which there is no code yet.
fn not_built_line(alloc: Global) -> Result<Vec<u8>, AllocError>
    ensures { IfOk result (λ line. line.items ≡ not_built_line) }
{
    Vec::from_slice(alloc, b"refused E0 not built\n")
}

/// The line of a program whose code may have `blocks` blocks, which are too many.
fn blocks_line(alloc: Global, blocks: u64) -> Result<Vec<u8>, AllocError>
    ensures { IfOk result (λ line. line.items ≡ blocks_line blocks) }
{
    let text = format!(in alloc; "refused E12 blocks {blocks}\n")?;
    Ok(text.into_bytes())
}

/// The line of a declared input of that name, which the tables text doesn't give.
fn missing_line(alloc: Global, name: &[u8]) -> Result<Vec<u8>, AllocError>
    ensures { IfOk result (λ line. line.items ≡ missing_line name.now) }
{
    let mut line = Vec::from_slice(alloc, b"refused E13 input ")?;
    line.extend_from_slice(name)?;
    line.extend_from_slice(b"\n")?;
    Ok(line)
}

/// The line of words that are not of the form.
fn bad_words_line(alloc: Global) -> Result<Vec<u8>, AllocError>
    ensures { IfOk result (λ line. line.items ≡ bad_words_line) }
{
    Vec::from_slice(alloc, b"bad words\n")
}

/// The line of what is refused.
pub fn refusal_line(alloc: Global, refusal: Refusal) -> Result<Vec<u8>, NoMemory>
    ensures { IfOk result (λ line. line.items ≡ line_of refusal) }
{
    match refusal {
        Refusal::Words => Ok(bad_words_line(alloc)?),
        Refusal::TooLong(name) => Ok(too_long_line(alloc, &name)?),
        Refusal::Source(fault) => Ok(fault_line(alloc, fault)?),
        Refusal::Rule { rule, place } => Ok(rule_line(alloc, rule, place)?),
        Refusal::Parallel { rule, place } => Ok(parallel_line(alloc, rule, place)?),
        Refusal::NotBuilt => Ok(not_built_line(alloc)?),
        Refusal::Blocks(blocks) => Ok(blocks_line(alloc, blocks)?),
        Refusal::Assembly(fault) => assembly_line(alloc, fault),
        Refusal::Break { name, at, rule } => Ok(break_line(alloc, &name, at, rule)?),
        Refusal::Tables(fault) => tables_line(alloc, fault),
        Refusal::Missing(name) => Ok(missing_line(alloc, &name)?),
    }
}
