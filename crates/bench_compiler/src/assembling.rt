// Assembles a code text that it makes itself, some times over.

ghost use Rattle.std.specs.Prelude.{◌≤◌, length};

use std::alloc::{AllocError, Global};
use std::io;
use std::io::Write;
use tpal_asm::{AsmFault, assemble};

const BODY: &str = "  r4 := mem[r31+17]
  r4 := r4 add 123456789
  mem[r31+17] := r4
  r5 := fetch t0, r1, r2
  tick
";

fn push_block(alloc: Global, text: &mut Vec<u8>, number: u32, next: u32) -> Result<(), AllocError> {
    let header = format!(in alloc; "b{number}: plain\n")?;
    text.extend_from_slice(header.as_bytes())?;
    text.extend_from_slice(BODY.as_bytes())?;
    let end = format!(in alloc; "  if-jump r5, @b{next}\n  jump @b{number}\n")?;
    text.extend_from_slice(end.as_bytes())
}

// Blocks that each jump to the next one, the last to the first, and back to themselves.
fn text_of(alloc: Global, blocks: u32) -> Result<Vec<u8>, AllocError> {
    let mut text = Vec::from_slice(alloc, b"table t0 made\n")?;
    for number in 0..blocks {
        let next = (number + 1) % blocks;
        push_block(alloc, &mut text, number, next)?;
    }
    Ok(text)
}

fn blocks_of(alloc: Global, text: &[u8]) -> Result<usize, AsmFault>
    requires { length text.now ≤ 67108864 }
{
    let code = assemble(alloc, text)?;
    Ok(code.blocks().len())
}

// How many blocks the text has, read so many times; None where it is too long.
fn read_times(alloc: Global, text: &[u8], times: u32) -> Result<Option<usize>, AsmFault> {
    if text.len() > 67_108_864 {
        return Ok(None);
    }
    let mut count = 0usize;
    for _ in 0..times {
        count = blocks_of(alloc, text)?;
    }
    Ok(Some(count))
}

/// Prints how many blocks a text of so many has, read so many times; with 0 times it writes the
/// text. bench/assemble.sh times it beside `wc -l` on the same text.
pub fn run(rt: &HostRuntime, blocks: u32, times: u32) -> io::Result<()> {
    let Ok(text) = text_of(rt.alloc(), blocks) else {
        return println!(rt; "no memory");
    };
    if times == 0 {
        return io::writer(rt).write_all(&text);
    }
    match read_times(rt.alloc(), &text, times) {
        Ok(Some(count)) => println!(rt; "{count} blocks"),
        Ok(None) => println!(rt; "too long"),
        Err(_) => println!(rt; "no code"),
    }
}
