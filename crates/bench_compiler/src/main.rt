//! Programs that read and write texts, and one that counts: `bench_compiler WORD SIZE TIMES` with
//! one of the words `tables`, `print`, `assemble` and `parse`, and `bench_compiler lower`. Each has
//! a module, which says what its numbers are. Without a word each runs once, over little.
//! bench/*.sh time them.
#![tactic(auto)]

mod assembling;
mod lowering;
mod parsing;
mod printing;
mod tables;

use std::process::ExitCode;
use std::{env, io};

// The number that a word writes, or 0.
fn number_of(word: Option<String>) -> u32 {
    match word {
        Some(text) => text.as_str().parse::<u32>().unwrap_or(0),
        None => 0,
    }
}

fn run_each(rt: &HostRuntime) -> io::Result<()> {
    tables::run(rt, 3, 2)?;
    printing::run(rt, 2, 3)?;
    assembling::run(rt, 3, 1)?;
    parsing::run(rt, 4, 1)?;
    lowering::run(rt)
}

fn main(rt: HostRuntime) -> io::Result<ExitCode> {
    let mut words = env::args(&rt)?;
    let _program = words.next();
    let Some(name) = words.next() else {
        run_each(&rt)?;
        return Ok(ExitCode::SUCCESS);
    };
    let size = number_of(words.next());
    let times = number_of(words.next());
    match name.as_str() {
        "tables" => tables::run(&rt, size, times)?,
        "print" => printing::run(&rt, size, times)?,
        "assemble" => assembling::run(&rt, size, times)?,
        "parse" => parsing::run(&rt, size, times)?,
        "lower" => lowering::run(&rt)?,
        _ => return Ok(ExitCode::from(2)),
    }
    Ok(ExitCode::SUCCESS)
}
