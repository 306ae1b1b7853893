//! The conformance suite: tries cases that are data. The standard input names files of cases, one a
//! line; docs/TESTING.md describes their form. Each case is calls of the program over a shelf and a
//! sink in memory, or a code text, with what they owe. What differs is told with the place of its
//! case, and at the end how many cases passed and failed. Start with `suite`.
#![tactic(auto)]

mod calling;
mod comparing;
mod disturbing;
mod failure;
mod shown;
mod suite;
mod trying;

use crate::suite::{Tally, try_file};
use std::io;
use std::process::ExitCode;

fn main(rt: HostRuntime) -> io::Result<ExitCode> {
    let mut tally = Tally {
        passed: 0,
        failed: 0,
    };
    for name in rt.lines(rt.alloc()) {
        try_file(&rt, name?.as_str(), &mut tally)?;
    }
    let Tally { passed, failed } = tally;
    println!(rt; "{passed} passed, {failed} failed")?;
    if failed == 0 {
        Ok(ExitCode::SUCCESS)
    } else {
        Ok(ExitCode::FAILURE)
    }
}
