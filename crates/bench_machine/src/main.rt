//! Loads of the parts that a run goes through: `bench_machine tables NAME TIMES`, `marks NAME
//! TIMES`, `codes NAME TIMES` and `heartbeats KIND COUNT`. Each has a module, which says what its
//! names and numbers are. It stands on the machine and the core, and on nothing that reads a source
//! text. Without a word each runs once. bench/*.sh time them.
#![tactic(auto)]

mod codes;
mod heartbeats;
mod marks;
mod tables;

use std::process::ExitCode;
use std::{env, io};

fn run_each(rt: &HostRuntime) -> io::Result<ExitCode> {
    tables::run(rt, "cuts", 1)?;
    marks::run(rt, "cuts", 1)?;
    codes::run(rt, "fib", 1)?;
    heartbeats::run(rt, "1", 100)
}

fn main(rt: HostRuntime) -> io::Result<ExitCode> {
    let mut words = env::args(&rt)?;
    let _program = words.next();
    let Some(part) = words.next() else {
        return run_each(&rt);
    };
    let (Some(name), Some(number)) = (words.next(), words.next()) else {
        return Ok(ExitCode::from(2));
    };
    let Ok(number) = number.as_str().parse::<u32>() else {
        return Ok(ExitCode::from(2));
    };
    match part.as_str() {
        "tables" => tables::run(&rt, name.as_str(), number),
        "marks" => marks::run(&rt, name.as_str(), number),
        "codes" => codes::run(&rt, name.as_str(), number),
        "heartbeats" => heartbeats::run(&rt, name.as_str(), number),
        _ => Ok(ExitCode::from(2)),
    }
}
