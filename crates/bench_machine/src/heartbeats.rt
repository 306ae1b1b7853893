// Adds the numbers below a count by a loop that may be cut: the loads of `bench/core.sh`. `plain`
// runs one task with no diversion, and a heartbeat makes a solo run.

ghost use Rattle.std.specs.Prelude.{◌≡◌, ◌≤◌, ◌^◌, []};
ghost use Rattle.sum_code.specs.Sum as sum;
ghost use Rattle.tp_value.specs.declared.limits.TheConstants.{MAX_BEAT};

use schedule_core::{Job, Report, solo_run};
use std::alloc::Global;
use std::io;
use std::io::Write;
use std::process::ExitCode;
use sum_code::laws::sum_is_owed;
use sum_code::sum_below;
use tp_value::{Items, MAX_BEAT, MAX_FORKS, NoMemory};
use tpal_machine::{Pace, Task, Turn, run_task};
use tpal_syntax::Code;

/// The greatest count.
const MAX_COUNT: u32 = 1 << 31;

/// A run with no diversion, which ends in one turn.
fn plain_run(alloc: Global, code: &Code) -> Result<Option<Report>, NoMemory>
    requires { code.now.tables ≡ [] }
{
    let task = Task::first(alloc, code, Vec::new(alloc), 0)?;
    let pace = Pace {
        heartbeat: MAX_BEAT,
        allowed: false,
    };
    let ran = run_task(task, code, pace, u32::MAX);
    let instructions = ran.steps;
    match ran.turn {
        Turn::Halted(outcome) => Ok(Some(Report {
            outcome,
            tasks: 0,
            beats: 0,
            skipped: 0,
            instructions,
        })),
        Turn::Pause(_)
        | Turn::NeedRecord(_)
        | Turn::Forked { .. }
        | Turn::Arrived { .. }
        | Turn::Stuck { .. }
        | Turn::NoMemory => Ok(None),
    }
}

fn solo(alloc: Global, code: &Code, count: u32, heartbeat: u64) -> Result<Report, NoMemory>
    requires code { code.now ≡ sum.sum_below count }
    requires some { 1 ≤ count }
    requires few { count ≤ 2 ^ 31 }
    requires heartbeat { (1 ≤ heartbeat) × (heartbeat ≤ MAX_BEAT) }
{
    sum_is_owed(code, count);
    let job = Job {
        tables: Items::new(Vec::new(alloc)),
        fuel: 0,
        heartbeat,
        workers: 1,
        forks: MAX_FORKS,
    };
    solo_run(alloc, code, job)
}

/// What a run came to: with no diversion, or by a heartbeat. None where a number is out of range.
fn report_of(
    alloc: Global,
    heartbeat: Option<u64>,
    count: u32,
) -> Result<Option<Report>, NoMemory> {
    if count == 0 || count > MAX_COUNT {
        return Ok(None);
    }
    let Some(code) = sum_below(alloc, count)? else {
        return Ok(None);
    };
    match heartbeat {
        None => plain_run(alloc, &code),
        Some(heartbeat) if 1 <= heartbeat && heartbeat <= MAX_BEAT => Ok(Some(solo(
            alloc, &code, count, heartbeat,
        )?)),
        Some(_) => Ok(None),
    }
}

/// The heartbeat that a word is; None for a plain run.
fn heartbeat_of(word: &str) -> Option<Option<u64>> {
    if word == "plain" {
        return Some(None);
    }
    match word.parse::<u64>() {
        Ok(heartbeat) => Some(Some(heartbeat)),
        Err(_) => None,
    }
}

fn write_report(rt: &HostRuntime, report: &Report) -> io::Result<()> {
    io::writer(rt).write_all(report.outcome.output.items())?;
    println!(rt;
        "{} tasks, {} beats, {} skipped, {} instructions",
        report.tasks, report.beats, report.skipped, report.instructions
    )
}

/// Writes what the run printed and its counts. Other kinds and numbers out of range give status 2.
pub fn run(rt: &HostRuntime, kind: &str, count: u32) -> io::Result<ExitCode> {
    let Some(heartbeat) = heartbeat_of(kind) else {
        return Ok(ExitCode::from(2));
    };
    match report_of(rt.alloc(), heartbeat, count) {
        Ok(Some(report)) => {
            write_report(rt, &report)?;
            Ok(ExitCode::SUCCESS)
        }
        Ok(None) => Ok(ExitCode::from(2)),
        Err(NoMemory) => Ok(ExitCode::FAILURE),
    }
}
