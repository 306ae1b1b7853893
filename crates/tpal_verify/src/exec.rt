// The run of accepted code by one worker.

ghost use Rattle.std.specs.Prelude.{◌≡◌, ◌≤◌, ℕ, IfOk, Some, List, length};
ghost use Rattle.slices.specs.Holding.{Holding};
ghost use Rattle.tp_value.specs.declared.limits.TheConstants.{MAX_BEAT, MAX_FORKS};
ghost use Rattle.tpal_machine.specs.State.{first_state};
ghost use Rattle.schedule_core.specs.Apply.{IsJob};
ghost use Rattle.schedule_core.specs.Solo.{Runs, first_lane};
ghost use Rattle.tpal_verify.specs.declared.report.TheConstants.{MAX_STEPS};
ghost use Rattle.tpal_verify.specs.Breaks.{Accepted};
ghost use Rattle.tpal_verify.specs.Exec.{exec, exec_from, report_of};

use crate::report::{ExecEnd, ExecReport};
use crate::safe::SafeCode;
use schedule_core::{Job, SoloState, Tally, go_on, in_range, turned};
use std::alloc::Global;
use tp_value::NoMemory;
use tpal_machine::{Pace, Task, Turn, run_task};
use tpal_syntax::Code;

/// A run that is about to begin.
#[derive(Drop)]
struct Start<'a> {
    code: &'a Code,
    heartbeat: u64,
    forks: u32,
    steps: u64,
    task: Task,
}

/// What is told of a run that came to its end in this way, with these counts.
fn report(way: ExecEnd, tally: Tally) -> ExecReport
    ensures { result ≡ report_of way tally }
{
    ExecReport {
        end: way,
        tasks: tally.tasks,
        instructions: tally.instructions,
    }
}

/// The instructions of a turn, at most, where so many are left to the run: no more than the
/// heartbeat, for a turn diverts its task only once.
fn turn_steps(left: u64, heartbeat: u64) -> u32
    requires left { 1 ≤ left }
    requires heartbeat { (1 ≤ heartbeat) × (heartbeat ≤ MAX_BEAT) }
    ensures some { 1 ≤ result }
    ensures enough { result ≤ left }
    ensures short { result ≤ heartbeat }
{
    if left < heartbeat {
        left as u32
    } else {
        heartbeat as u32
    }
}

/// Turn after turn, until the run is over, is stuck, or has no instruction left.
fn run_turns(alloc: Global, start: Start) -> Result<ExecReport, NoMemory>
    requires accepted { Accepted start.code.now }
    requires heartbeat { (1 ≤ start.heartbeat) × (start.heartbeat ≤ MAX_BEAT) }
    requires forks { start.forks ≤ MAX_FORKS }
    requires first { (held : List Holding)
        × (fuel : ℕ)
        × (length held ≡ length start.code.now.tables)
        × (start.task ≡ first_state held fuel) }
    ensures { IfOk result
        (λ report. exec_from start.entry.steps start.entry.code.now start.entry.heartbeat
        start.entry.forks (Runs (first_lane start.entry.task))
        ≡ Some report) }
{
    let Start {
        code,
        heartbeat,
        forks,
        steps,
        mut task,
    } = start;
    let _blocks = code.blocks();
    let mut opened = Vec::new(alloc);
    let mut tally = Tally {
        tasks: 0,
        beats: 0,
        skipped: 0,
        instructions: 0,
    };
    let mut left = steps;
    'turns: while left > 0 {
        let pace = Pace {
            heartbeat,
            allowed: tally.beats < u64::from(forks),
        };
        in_range(tally);
        let ran = run_task(task, code, pace, turn_steps(left, heartbeat));
        tally = turned(tally, ran.steps, ran.beats);
        left = left.saturating_sub(ran.steps);
        match ran.turn {
            Turn::Stuck { fault, block, at } => return Ok(report(
                ExecEnd::Stuck { fault, block, at },
                tally,
            )),
            turn => match go_on(turn, code, &mut opened, &mut tally)? {
                SoloState::Runs(next) => task = next,
                SoloState::Over(outcome) => return Ok(report(ExecEnd::Ended(outcome), tally)),
            },
        }
    }
    Ok(report(ExecEnd::Spent, tally))
}

/// Runs accepted code by one worker, as the solo run does, for at most so many instructions. The
/// job's number of workers isn't looked at. Want of memory ends the run.
pub fn exec_run(
    alloc: Global,
    code: &SafeCode,
    job: Job,
    steps: u64,
) -> Result<ExecReport, NoMemory>
    requires job { IsJob code.now job }
    requires steps { steps ≤ MAX_STEPS }
    ensures { IfOk result
        (λ report. exec steps code.now job.heartbeat job.forks job.tables job.fuel ≡ Some report) }
{
    let code = code.code();
    let Job {
        tables,
        fuel,
        heartbeat,
        workers: _,
        forks,
    } = job;
    let task = Task::first(alloc, code, tables.into_vec(), fuel)?;
    run_turns(
        alloc,
        Start {
            code,
            heartbeat,
            forks,
            steps,
            task,
        },
    )
}
