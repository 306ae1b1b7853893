// Files of cases.

use crate::failure::Failure;
use crate::trying::try_case;
use std::rt::Files;
use std::sync::Wait;
use std::thread::Threads;
use std::{fs, io};
use suite_cases::{Case, Fault, Reader};

/// How many cases passed and failed. A file that can't be read, and a line that isn't of the form,
/// count as one that failed.
#[derive(Clone, Copy)]
pub struct Tally {
    pub passed: u32,
    pub failed: u32,
}

impl Tally {
    fn pass(&mut self) {
        self.passed = self.passed.saturating_add(1);
    }

    fn fail(&mut self) {
        self.failed = self.failed.saturating_add(1);
    }
}

fn try_one<R: Threads + Wait + Sync + AllocGlobal + Print>(
    rt: &R,
    file: &str,
    case: &Case,
    tally: &mut Tally,
) -> io::Result<()> {
    let line = case.line;
    let name = case.name.as_str();
    match try_case(rt, case) {
        Ok(()) => {
            tally.pass();
            Ok(())
        }
        Err(Failure::Differs(what)) => {
            tally.fail();
            println!(rt; "{file}:{line}: {name}: {what}")
        }
        Err(Failure::NoMemory) => {
            tally.fail();
            println!(rt; "{file}:{line}: {name}: memory was wanting")
        }
    }
}

// Tries the case that a line or the file's end ended, if any. Whether the line was of the form.
fn go_on<R: Threads + Wait + Sync + AllocGlobal + Print>(
    rt: &R,
    file: &str,
    line: u32,
    ended: Result<Option<Case>, Fault>,
    tally: &mut Tally,
) -> io::Result<bool> {
    match ended {
        Ok(None) => Ok(true),
        Ok(Some(case)) => {
            try_one(rt, file, &case, tally)?;
            Ok(true)
        }
        Err(fault) => {
            let what = fault.what();
            tally.fail();
            println!(rt; "{file}:{line}: {what}")?;
            Ok(false)
        }
    }
}

// Tries the cases of a text, up to a line that isn't of the form.
fn try_text<R: Threads + Wait + Sync + AllocGlobal + Print>(
    rt: &R,
    file: &str,
    text: &str,
    tally: &mut Tally,
) -> io::Result<()> {
    let mut reader = Reader::new(rt.alloc());
    let mut number = 1u32;
    for line in text.lines() {
        let ended = reader.take(number, line);
        if !go_on(rt, file, number, ended, tally)? {
            return Ok(());
        }
        number = number.saturating_add(1);
    }
    go_on(rt, file, number, reader.finish(), tally)?;
    Ok(())
}

/// Tries the cases of a file, and tells what differs.
pub fn try_file<R: Threads + Wait + Sync + AllocGlobal + Print + Files>(
    rt: &R,
    file: &str,
    tally: &mut Tally,
) -> io::Result<()> {
    match fs::read_to_string(rt, file) {
        Ok(text) => try_text(rt, file, text.as_str(), tally),
        Err(_) => {
            tally.fail();
            println!(rt; "{file}: it can't be read as a text")
        }
    }
}
