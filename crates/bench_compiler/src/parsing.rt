// Lexes and parses a source text that it makes itself, some times over.

ghost use Rattle.std.specs.Prelude.{◌≤◌, length};

use loop_lex::{LexFault, lex};
use loop_parse::{ParseFault, parse};
use std::alloc::{AllocError, Global};
use std::io;
use std::io::Write;

/// Why there is no number of tokens.
#[derive(Clone, Copy)]
enum Failure {
    /// The text that was made is too long, or no program.
    Text,
    NoMemory,
}

impl From<AllocError> for Failure {
    fn from(_error: AllocError) -> Self {
        Failure::NoMemory
    }
}

impl From<LexFault> for Failure {
    fn from(_fault: LexFault) -> Self {
        Failure::Text
    }
}

impl From<ParseFault> for Failure {
    fn from(_fault: ParseFault) -> Self {
        Failure::Text
    }
}

const LINES: [&str; 4] = [
    "  let total_1 = 12 * (count + 7) - values[i][j % 3];\n",
    "  if total_1 <= 1000 { x = -x / 2; } else { call y = step(x, 65536); }\n",
    "  par i in 0..rows(t) carry t[i] reduce s by add { fold s with t[i][0] * 3; }\n",
    "  while x != 0 { x = x - 1; print x; } # down to 0\n",
];

fn text_of(alloc: Global, lines: u32) -> Result<Vec<u8>, AllocError> {
    let mut text = Vec::from_slice(alloc, b"main {\n")?;
    for line in 0..lines {
        text.extend_from_slice(LINES[(line % 4) as usize].as_bytes())?;
    }
    text.extend_from_slice(b"}\n")?;
    Ok(text)
}

fn tokens_of(alloc: Global, text: &[u8]) -> Result<usize, Failure>
    requires { length text.now ≤ 1048576 }
{
    let tokens = lex(alloc, text)?;
    let _program = parse(alloc, text, &tokens)?;
    Ok(tokens.len())
}

fn read_times(alloc: Global, text: &[u8], times: u32) -> Result<usize, Failure> {
    if text.len() > 1_048_576 {
        return Err(Failure::Text);
    }
    let mut count = 0usize;
    for _ in 0..times {
        count = count.wrapping_add(tokens_of(alloc, text)?);
    }
    Ok(count)
}

/// Prints how many tokens a main block of so many lines has, read so many times; with 0 times it
/// writes the text. bench/parse.sh times it beside `wc -w` on the same text.
pub fn run(rt: &HostRuntime, lines: u32, times: u32) -> io::Result<()> {
    let Ok(text) = text_of(rt.alloc(), lines) else {
        return println!(rt; "no memory");
    };
    if times == 0 {
        return io::writer(rt).write_all(&text);
    }
    match read_times(rt.alloc(), &text, times) {
        Ok(count) => println!(rt; "{count} tokens"),
        Err(Failure::Text | Failure::NoMemory) => println!(rt; "no program"),
    }
}
