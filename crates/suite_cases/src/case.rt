// Cases.

use crate::numbers::Range;
use std::alloc::Global;
use tpal_asm::AsmFault;

/// The calls of the shelf and of the sink that fail, by their numbers from 0, each of the sink's
/// with the bytes that it keeps.
#[derive(Drop)]
pub struct Failing {
    pub fetches: Vec<u32>,
    pub writes: Vec<(u32, u32)>,
}

/// A text that is tried cut after so many bytes.
#[derive(Drop)]
pub struct Fronts {
    pub name: String,
    pub lengths: Range,
}

/// What a call has to write.
#[derive(Drop)]
pub enum Output {
    /// Any bytes.
    Free,
    /// These bytes.
    Whole(Vec<u8>),
    /// These bytes, and any behind them.
    Start(Vec<u8>),
}

/// A line of counts. The beats have to be the sum of tasks and skipped ones.
#[derive(Clone, Copy)]
pub struct Counts {
    pub tasks: Range,
    pub skipped: Range,
    pub ticks: Range,
}

/// What an assembler has to answer.
#[derive(Clone, Copy)]
pub enum Assembled {
    /// A code, which is printed as the text that it came from.
    Same,
    /// This first fault.
    Fault(AsmFault),
}

/// What the calls of a case owe. What is None is not looked at.
#[derive(Drop)]
pub struct Owed {
    pub status: Option<u32>,
    /// The program whose code has to stand before the output.
    pub code: Option<String>,
    pub output: Output,
    /// The line that has to stand behind the output.
    pub counts: Option<Counts>,
    pub fetches: Option<u32>,
    pub writes: Option<u32>,
    /// The sizes of the writes.
    pub pieces: Vec<u32>,
    pub assembled: Option<Assembled>,
}

/// A case: calls, or a code text, and what is owed.
#[derive(Drop)]
pub struct Case {
    pub name: String,
    /// The number of its first line.
    pub line: u32,
    /// The words of its calls. Each call owes the same.
    pub calls: Vec<Vec<String>>,
    /// The name of the file that is assembled.
    pub assembles: Option<String>,
    /// The files by their names. Others are absent.
    pub files: Vec<(String, Vec<u8>)>,
    pub fronts: Option<Fronts>,
    pub failing: Failing,
    pub owed: Owed,
}

impl Failing {
    pub fn new(alloc: Global) -> Failing {
        Failing {
            fetches: Vec::new(alloc),
            writes: Vec::new(alloc),
        }
    }
}

impl Owed {
    fn new(alloc: Global) -> Owed {
        Owed {
            status: None,
            code: None,
            output: Output::Free,
            counts: None,
            fetches: None,
            writes: None,
            pieces: Vec::new(alloc),
            assembled: None,
        }
    }
}

impl Case {
    /// A case that has only its name.
    pub fn new(alloc: Global, name: String, line: u32) -> Case {
        Case {
            name,
            line,
            calls: Vec::new(alloc),
            assembles: None,
            files: Vec::new(alloc),
            fronts: None,
            failing: Failing::new(alloc),
            owed: Owed::new(alloc),
        }
    }
}
