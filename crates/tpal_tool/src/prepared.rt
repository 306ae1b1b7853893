// A call before anything has run.

use crate::request::{ExecOptions, RunOptions};
use slices::Held;
use tpal_syntax::Code;
use tpal_verify::SafeCode;

/// A run that is about to begin.
#[derive(Drop)]
pub struct PreparedRun {
    /// The code.
    pub code: Code,
    /// What its first task holds of each table.
    pub held: Vec<Held>,
    /// How the run goes.
    pub options: RunOptions,
}

/// A run of a code that is about to begin.
#[derive(Drop)]
pub struct PreparedExec {
    /// The code.
    pub code: SafeCode,
    /// What its first task holds of each table.
    pub held: Vec<Held>,
    /// How the run goes.
    pub options: ExecOptions,
}

/// What a call comes to before anything runs.
#[derive(Drop)]
pub enum Prepared {
    /// The code of a program, of which the text was asked for.
    Compiled(Code),
    /// A run of a program.
    Run(PreparedRun),
    /// A run of a code.
    Exec(PreparedExec),
}
