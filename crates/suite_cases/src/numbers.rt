// Numbers and ranges.

use crate::fault::Fault;
use crate::tokens::Token;

/// The numbers from one to another, both of them included.
#[derive(Clone, Copy)]
pub struct Range {
    pub from: u32,
    pub to: u32,
}

impl Range {
    pub fn has(self, number: u64) -> bool {
        u64::from(self.from) <= number && number <= u64::from(self.to)
    }
}

fn number_of(text: &str) -> Result<u32, Fault> {
    text.parse::<u32>().map_err(|_| Fault::Number)
}

// The text of a word.
fn word(token: &Token) -> Result<&str, Fault> {
    match token {
        Token::Word(bytes) => str::from_utf8(bytes).map_err(|_| Fault::Number),
        Token::Quoted(_) => Err(Fault::Number),
    }
}

/// The number that a word writes.
pub fn number(token: &Token) -> Result<u32, Fault> {
    number_of(word(token)?)
}

/// The numbers that a word writes: `3`, `1..3` or, without an end, `1..`.
pub fn range_of(token: &Token) -> Result<Range, Fault> {
    let text = word(token)?;
    match text.split_once("..") {
        None => {
            let only = number_of(text)?;
            Ok(Range {
                from: only,
                to: only,
            })
        }
        Some((from, "")) => Ok(Range {
            from: number_of(from)?,
            to: u32::MAX,
        }),
        Some((from, to)) => Ok(Range {
            from: number_of(from)?,
            to: number_of(to)?,
        }),
    }
}
