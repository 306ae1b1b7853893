//! A run of accepted code by events that are drawn at random: `tests_events WORKERS BEAT FORKS FUEL
//! SEED MOST` reads a code text from its standard input, verifies it, and lets events happen until
//! the run has an outcome, a task is stuck, or so many turns have come. It prints one line: that
//! the code is refused, `outcome`, `runs on`, or `stuck` with the fault. An input has three rows of
//! two numbers. Start with `events`.
#![tactic(auto)]

mod events;
mod trial;

use crate::trial::{Plan, tried};
use std::process::ExitCode;
use std::{env, io};

fn main(rt: HostRuntime) -> io::Result<ExitCode> {
    let mut words = env::args(&rt)?;
    let _program = words.next();
    let mut numbers: [u32; 6] = [2, 1, 1_000, 1_000, 1, 10_000];
    for at in 0..6 {
        if let Some(word) = words.next() {
            match word.as_str().parse::<u32>() {
                Ok(number) => numbers[at] = number,
                Err(_) => return Ok(ExitCode::from(2)),
            }
        }
    }
    let [workers, beat, forks, fuel, seed, most] = numbers;
    let plan = Plan {
        workers,
        beat,
        forks,
        fuel,
        seed,
        most,
    };
    let mut text = Vec::new(rt.alloc());
    for line in rt.lines(rt.alloc()) {
        text.extend_from_slice(line?.as_str().as_bytes())?;
        text.push(b'\n')?;
    }
    tried(&rt, &text, plan)
}
