// From the lines of a file to its cases.

use crate::case::{Case, Output};
use crate::fault::Fault;
use crate::keywords::{read_keyword, text_of};
use crate::texts::{Named, push_pieces};
use crate::tokens::{Token, tokens_of};
use std::alloc::Global;
use std::mem;

// Where a text goes that is being read.
#[derive(Drop)]
enum Place {
    Nowhere,
    // among the named texts
    Named(String),
    // among the files of the case
    File(String),
    // the output that the case owes, or how that begins
    Output,
    Start,
}

/// A file of cases that is being read, line by line.
#[derive(Drop)]
pub struct Reader {
    alloc: Global,
    names: Vec<Named>,
    case: Option<Case>,
    place: Place,
    // the text so far
    text: Vec<u8>,
}

// A case that has all that a case needs.
fn whole(case: Case) -> Result<Case, Fault> {
    let owed = &case.owed;
    if case.calls.is_empty() == case.assembles.is_none() {
        return Err(Fault::NoCall);
    }
    let says_end = if case.calls.is_empty() {
        owed.assembled.is_some()
    } else {
        owed.status.is_some()
    };
    if !says_end {
        return Err(Fault::NoEnd);
    }
    if !owed.pieces.is_empty() && owed.fetches.is_none() {
        return Err(Fault::NoFetches);
    }
    Ok(case)
}

impl Reader {
    pub fn new(alloc: Global) -> Reader {
        Reader {
            alloc,
            names: Vec::new(alloc),
            case: None,
            place: Place::Nowhere,
            text: Vec::new(alloc),
        }
    }

    // Puts the text that ends here where it goes.
    fn put_text(&mut self) -> Result<(), Fault> {
        let text = mem::replace(&mut self.text, Vec::new(self.alloc));
        let place = mem::replace(&mut self.place, Place::Nowhere);
        if let Place::Named(name) = place {
            self.names.push((name, text))?;
            return Ok(());
        }
        let Some(case) = &mut self.case else {
            return Ok(());
        };
        match place {
            Place::File(name) => case.files.push((name, text))?,
            Place::Output => case.owed.output = Output::Whole(text),
            Place::Start => case.owed.output = Output::Start(text),
            Place::Named(_) | Place::Nowhere => {}
        }
        Ok(())
    }

    // Ends the case that is being read.
    fn end_case(&mut self) -> Result<Option<Case>, Fault> {
        self.put_text()?;
        match self.case.take() {
            Some(case) => Ok(Some(whole(case)?)),
            None => Ok(None),
        }
    }

    fn begin_case(&mut self, number: u32, name: &str) -> Result<Option<Case>, Fault> {
        if name.is_empty() {
            return Err(Fault::Words);
        }
        let before = self.end_case()?;
        let name = String::from_str(self.alloc, name)?;
        self.case = Some(Case::new(self.alloc, name, number));
        Ok(before)
    }

    // A line of a text as it stands.
    fn take_literal(&mut self, line: &str) -> Result<(), Fault> {
        let text = match line.strip_prefix(' ') {
            Some(text) => text,
            None if line.is_empty() => line,
            None => return Err(Fault::Text),
        };
        if matches!(self.place, Place::Nowhere) {
            return Err(Fault::Text);
        }
        self.text.extend_from_slice(text.as_bytes())?;
        self.text.push(b'\n')?;
        Ok(())
    }

    fn take_pieces(&mut self, pieces: &[Token]) -> Result<(), Fault> {
        if matches!(self.place, Place::Nowhere) {
            return Err(Fault::Text);
        }
        push_pieces(self.alloc, &mut self.text, &self.names, pieces)
    }

    fn begin_text(&mut self, place: Place, pieces: &[Token]) -> Result<(), Fault> {
        self.place = place;
        self.take_pieces(pieces)
    }

    // A line behind whose keyword stand these tokens.
    fn take_keyword(&mut self, keyword: &str, tokens: &[Token]) -> Result<(), Fault> {
        self.put_text()?;
        if keyword == "text" {
            let [name, pieces @ ..] = tokens else {
                return Err(Fault::Words);
            };
            let name = text_of(self.alloc, name)?;
            return self.begin_text(Place::Named(name), pieces);
        }
        let Some(case) = &mut self.case else {
            return Err(Fault::NoCase);
        };
        match keyword {
            "file" => {
                let [name, pieces @ ..] = tokens else {
                    return Err(Fault::Words);
                };
                let name = text_of(self.alloc, name)?;
                self.begin_text(Place::File(name), pieces)
            }
            "output" => self.begin_text(Place::Output, tokens),
            "starts" => self.begin_text(Place::Start, tokens),
            _ => read_keyword(self.alloc, case, keyword, tokens),
        }
    }

    /// Takes a line with its number, and answers the case that ended before it.
    pub fn take(&mut self, number: u32, line: &str) -> Result<Option<Case>, Fault> {
        let line = line.trim_start();
        if line.is_empty() || line.starts_with('#') {
            return Ok(None);
        }
        if let Some(text) = line.strip_prefix('|') {
            self.take_literal(text)?;
            return Ok(None);
        }
        let (keyword, rest) = line.split_once(' ').unwrap_or((line, ""));
        if keyword == "case" {
            return self.begin_case(number, rest.trim());
        }
        let tokens = tokens_of(self.alloc, rest)?;
        if keyword == "+" {
            self.take_pieces(&tokens)?;
        } else {
            self.take_keyword(keyword, &tokens)?;
        }
        Ok(None)
    }

    /// The case that ends with the file.
    pub fn finish(mut self) -> Result<Option<Case>, Fault> {
        self.end_case()
    }
}
