//! The program `tpal`: it gives the top call the process's words, the files of its folder and the
//! standard output, and ends with the status's number. All else stands in `tpal_tool`.
#![tactic(auto)]

use std::env::FillError;
use std::io;
use std::process::ExitCode;
use std::rt::Env;
use steal_pool::NoGate;
use tpal_tool::{FileShelf, OutSink, Status, tpal};

/// The environment of a process whose list of words begins behind the process's own name. That name
/// is then never read, and need not be UTF-8.
#[derive(Drop)]
struct BehindName<R: Env> {
    rt: R,
}

impl<R: Env> Env for BehindName<R> {
    fn arg(&self, i: usize, buf: &mut [u8]) -> Result<usize, FillError> {
        self.rt.arg(i.saturating_add(1), buf)
    }

    fn var(&self, name: &str, buf: &mut [u8]) -> Result<usize, FillError> {
        self.rt.var(name, buf)
    }

    fn var_at(&self, i: usize, buf: &mut [u8]) -> Result<usize, FillError> {
        self.rt.var_at(i, buf)
    }
}

/// The words after the program's own name. A word that is no UTF-8 is an error of its own.
fn words_of<R: Env + AllocGlobal>(rt: &R) -> io::Result<Vec<String>> {
    let words = std::env::args(&(BehindName { rt }, rt.alloc()))?;
    Ok(words.collect(rt.alloc())?)
}

fn main(rt: HostRuntime) -> ExitCode {
    let words = match words_of(&rt) {
        Ok(words) => words,
        Err(error) if error.kind() == io::ErrorKind::OutOfMemory => {
            return ExitCode::from(Status::NoMemory.number());
        }
        // Words that can't be read are of no form, as no words are.
        Err(_) => Vec::new(rt.alloc()),
    };
    let mut shelf = FileShelf { rt: &rt, faults: 0 };
    let mut sink = OutSink { rt: &rt, faults: 0 };
    let status = tpal(&rt, &words, &mut shelf, &mut sink, &NoGate);
    ExitCode::from(status.number())
}
