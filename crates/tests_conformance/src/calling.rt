// Calls of the program, over a shelf and a sink in memory, and of the assembler.

ghost use Rattle.std.specs.Prelude.{◌≡◌, IfOk, IfSome};

use std::alloc::{AllocError, Global};
use std::sync::Wait;
use std::thread::Threads;
use steal_pool::NoGate;
use suite_cases::Failing;
use tp_value::MAX_CODE_BYTES;
use tpal_asm::{AsmFault, assemble};
use tpal_print::{print_code, print_code_1};
use tpal_tool::{MemShelf, MemSink, tpal};

/// A file with its name.
pub type File = (String, Vec<u8>);

/// What a call wrote, its status, and how often it asked for a text and wrote.
#[derive(Drop)]
pub struct Called {
    pub text: Vec<u8>,
    pub status: u8,
    pub fetches: u32,
    pub writes: u32,
}

/// The same files once more.
pub fn copied(alloc: Global, files: &[File]) -> Result<Vec<File>, AllocError> {
    let mut copies = Vec::new(alloc);
    for (name, bytes) in files {
        copies.push((name.clone()?, bytes.clone()?))?;
    }
    Ok(copies)
}

/// Calls the program with these words, over a shelf that has these files and a sink, of which these
/// calls fail.
pub fn call<R: Threads + Wait + Sync + AllocGlobal>(
    rt: &R,
    words: &[String],
    files: &[File],
    failing: &Failing,
) -> Result<Called, AllocError> {
    let alloc = rt.alloc();
    let mut shelf = MemShelf {
        texts: copied(alloc, files)?,
        fails: failing.fetches.clone()?,
        calls: 0,
        faults: 0,
    };
    let mut sink = MemSink {
        bytes: Vec::new(alloc),
        fails: failing.writes.clone()?,
        calls: 0,
        faults: 0,
    };
    let status = tpal(rt, words, &mut shelf, &mut sink, &NoGate);
    let MemSink { bytes, calls, .. } = sink;
    Ok(Called {
        text: bytes,
        status: status.number(),
        fetches: shelf.calls,
        writes: calls,
    })
}

/// A text that was printed, where it is this one.
fn if_same(printed: Vec<u8>, text: &[u8]) -> Option<Vec<u8>>
    ensures { IfSome result (λ same. same.items ≡ text.now) }
{
    if printed.as_slice() == text {
        Some(printed)
    } else {
        None
    }
}

/// The text of the code that a text is assembled to, in the version of that text, which is that
/// text. One that is too long for the assembler, and one that would be printed otherwise, is taken
/// for one with a fault behind its last line.
pub fn reassembled(alloc: Global, text: &[u8]) -> Result<Vec<u8>, AsmFault>
    ensures same { IfOk result (λ printed. printed.items ≡ text.now) }
{
    if text.len() > MAX_CODE_BYTES as usize {
        return Err(AsmFault::Form(u32::MAX));
    }
    let code = assemble(alloc, text)?;
    if let Some(two) = if_same(print_code(alloc, &code)?, text) {
        return Ok(two);
    }
    if let Some(one) = print_code_1(alloc, &code)? {
        if let Some(one) = if_same(one, text) {
            return Ok(one);
        }
    }
    Err(AsmFault::Form(u32::MAX))
}
