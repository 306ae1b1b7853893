// The tokens of a line.

use crate::fault::Fault;
use std::alloc::{AllocError, Global};
use std::mem;

/// A token of a line.
#[derive(Drop)]
pub enum Token {
    /// What stands between blanks.
    Word(Vec<u8>),
    /// What stands in quotes, without its escapes.
    Quoted(Vec<u8>),
}

// Where in a line one is.
#[derive(Clone, Copy)]
enum State {
    Between,
    Word,
    Quoted,
    // behind a backslash
    Escaped,
    // behind `\x`
    High,
    // behind `\x` and a digit of this value
    Low(u8),
    // behind a quoted text
    Closed,
}

// A line that is being read.
#[derive(Drop)]
struct Scanner {
    alloc: Global,
    tokens: Vec<Token>,
    // what the token that has begun has so far
    text: Vec<u8>,
    state: State,
}

fn is_blank(byte: u8) -> bool {
    byte == b' ' || byte == b'\t'
}

// The value of a digit of base 16.
fn digit(byte: u8) -> Result<u8, Fault> {
    match byte {
        b'0'..=b'9' => Ok(byte.wrapping_sub(b'0')),
        b'a'..=b'f' => Ok(byte.wrapping_sub(b'a').wrapping_add(10)),
        _ => Err(Fault::Quotes),
    }
}

impl Scanner {
    fn push(&mut self, byte: u8, next: State) -> Result<(), Fault> {
        self.text.push(byte)?;
        self.state = next;
        Ok(())
    }

    fn end_word(&mut self) -> Result<(), AllocError> {
        let text = mem::replace(&mut self.text, Vec::new(self.alloc));
        self.tokens.push(Token::Word(text))?;
        self.state = State::Between;
        Ok(())
    }

    fn end_quoted(&mut self) -> Result<(), AllocError> {
        let text = mem::replace(&mut self.text, Vec::new(self.alloc));
        self.tokens.push(Token::Quoted(text))?;
        self.state = State::Closed;
        Ok(())
    }

    // A byte where a token may begin.
    fn begin(&mut self, byte: u8) -> Result<(), Fault> {
        if is_blank(byte) {
            self.state = State::Between;
            Ok(())
        } else if byte == b'"' {
            self.state = State::Quoted;
            Ok(())
        } else {
            self.push(byte, State::Word)
        }
    }

    // A byte behind a backslash.
    fn escaped(&mut self, byte: u8) -> Result<(), Fault> {
        match byte {
            b'n' => self.push(b'\n', State::Quoted),
            b't' => self.push(b'\t', State::Quoted),
            b'r' => self.push(b'\r', State::Quoted),
            b'"' | b'\\' => self.push(byte, State::Quoted),
            b'x' => {
                self.state = State::High;
                Ok(())
            }
            _ => Err(Fault::Quotes),
        }
    }

    // A byte inside a quoted text.
    fn quoted(&mut self, byte: u8) -> Result<(), Fault> {
        match byte {
            b'"' => Ok(self.end_quoted()?),
            b'\\' => {
                self.state = State::Escaped;
                Ok(())
            }
            _ => self.push(byte, State::Quoted),
        }
    }

    fn take(&mut self, byte: u8) -> Result<(), Fault> {
        match self.state {
            State::Between => self.begin(byte),
            State::Word if is_blank(byte) => Ok(self.end_word()?),
            State::Word if byte == b'"' => Err(Fault::Quotes),
            State::Word => self.push(byte, State::Word),
            State::Quoted => self.quoted(byte),
            State::Escaped => self.escaped(byte),
            State::High => {
                self.state = State::Low(digit(byte)?);
                Ok(())
            }
            State::Low(high) => {
                let value = high.wrapping_mul(16).wrapping_add(digit(byte)?);
                self.push(value, State::Quoted)
            }
            State::Closed if is_blank(byte) => self.begin(byte),
            State::Closed => Err(Fault::Quotes),
        }
    }

    fn finish(mut self) -> Result<Vec<Token>, Fault> {
        match self.state {
            State::Between | State::Closed => {}
            State::Word => self.end_word()?,
            State::Quoted | State::Escaped | State::High | State::Low(_) => {
                return Err(Fault::Quotes);
            }
        }
        Ok(self.tokens)
    }
}

/// The tokens of a line: words between blanks, and texts in quotes with their escapes `\n`, `\t`,
/// `\r`, `\"`, `\\` and `\x` with two digits.
pub fn tokens_of(alloc: Global, line: &str) -> Result<Vec<Token>, Fault> {
    let mut scanner = Scanner {
        alloc,
        tokens: Vec::new(alloc),
        text: Vec::new(alloc),
        state: State::Between,
    };
    for byte in line.as_bytes() {
        scanner.take(*byte)?;
    }
    scanner.finish()
}
