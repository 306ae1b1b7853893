// The solo run: one worker, turn after turn.

ghost use Rattle.std.specs.Prelude.{◌≡◌, ◌+◌, ◌*◌, ◌≤◌, ℕ, false, None, IfOk, IsSome, length};
ghost use Rattle.std.specs.Prelude.{reverse};
ghost use Rattle.tpal_machine.specs.declared.ends.Goal.TheVariants as goal;
ghost use Rattle.tp_value.specs.declared.values.Outcome.{Outcome};
ghost use Rattle.tpal_machine.specs.declared.ends.Ending.{Ending};
ghost use Rattle.tpal_machine.specs.declared.ends.Ending.TheVariants as ending;
ghost use Rattle.tpal_machine.specs.Owes.{Owes};
ghost use Rattle.tpal_machine.specs.State.{first_state};
ghost use Rattle.schedule_core.specs.declared.lanes.Tally.{Tally};
ghost use Rattle.schedule_core.specs.Apply.{IsJob};
ghost use Rattle.schedule_core.specs.Counting.{tally_of};
ghost use Rattle.schedule_core.specs.Sharing.{SharedRun};
ghost use Rattle.schedule_core.specs.Lanes.{CanArrive, IsSoloState, IsTally, TurnFits};
ghost use Rattle.schedule_core.specs.Lanes.{after_turn};
ghost use Rattle.schedule_core.specs.Solo.{SoloRun, asked, arrived_at, runs, turned};
ghost use Rattle.schedule_core.specs.Steps.{ComesToAnEnd, ComesToAnEnd-prop};

use crate::job::{Job, Report};
use crate::lanes::{Opened, SoloState, Tally};
use std::alloc::Global;
use tp_value::{NoMemory, Outcome};
use tpal_machine::{Merged, Pace, Side, Task, Turn, answer, merge, run_task};
use tpal_syntax::Code;

/// The instructions of a turn, at most.
const TURN_STEPS: u32 = u32::MAX;

/// The records of a solo run.
const RECORDS: usize = 64;

/// A task whose solo run comes to its end. The number of its instructions stands beside it, and no
/// code holds it.
#[derive(Drop)]
struct Start<'a> {
    code: &'a Code,
    heartbeat: u64,
    forks: u32,
    task: Task,
    ghost ends: { ComesToAnEnd code.now heartbeat forks task } by { ComesToAnEnd-prop code.now heartbeat forks task },
}

/// The counts after so many instructions and diversions more.
pub fn turned(tally: Tally, steps: u64, beats: u64) -> Tally
    ensures { result ≡ turned steps beats tally }
{
    Tally {
        tasks: tally.tasks,
        beats: tally.beats.saturating_add(beats),
        skipped: tally.skipped,
        instructions: tally.instructions.saturating_add(steps),
    }
}

/// Counts are numbers of their type.
pub fn in_range(tally: Tally)
    ensures { IsTally tally }
{
    let Tally {
        tasks: _,
        beats: _,
        skipped: _,
        instructions: _,
    } = tally;
}

/// A task that asked is given the least free record, which is that above the open ones, or none.
fn give(task: Task, opened: &[Opened], tally: &mut Tally) -> Task
    requires { IsSome task.waiting }
    ensures { asked task (reverse opened.now) tally.old
        ≡ runs result (reverse opened.now) tally.new }
{
    let count = opened.len();
    if count < RECORDS {
        answer(task, Some(count as u32))
    } else {
        tally.skipped = tally.skipped.saturating_add(1);
        answer(task, None)
    }
}

/// A side arrives at the record that was opened last, and so does what it and its other side are
/// merged to, until a task runs or the run is over.
fn arrive(out: Side, code: &Code, opened: &mut Vec<Opened>) -> Result<SoloState, NoMemory>
    requires { CanArrive code.now (reverse opened.old.items) out }
    ensures { IfOk result
        (λ stage. (tally : Tally)
        → IsSoloState (arrived_at (reverse opened.old.items) code.now tally out) stage
        (reverse opened.new.items) tally) }
{
    let mut out = out;
    while let Some(last) = opened.pop() {
        match last {
            Opened::Waiting { rest, child } => {
                opened.push(Opened::Half { rest, left: out })?;
                return Ok(SoloState::Runs(child));
            }
            Opened::Half { rest, left } => match merge(rest, left, out, code)? {
                Merged::Runs(task) => return Ok(SoloState::Runs(task)),
                Merged::Halted(outcome) => return Ok(SoloState::Over(outcome)),
                Merged::Arrived {
                    rec: _,
                    side: _,
                    out: joined,
                } => out = joined,
            },
        }
    }
    unreachable!()
}

/// What the end of a turn comes to: the task that runs next, with the records that are open then,
/// or the outcome. A turn that found no memory comes to none.
pub fn go_on(
    turn: Turn,
    code: &Code,
    opened: &mut Vec<Opened>,
    tally: &mut Tally,
) -> Result<SoloState, NoMemory>
    requires { TurnFits code.now turn (reverse opened.old.items) }
    ensures { IfOk result
        (λ stage. IsSoloState (after_turn code.now turn (reverse opened.old.items) tally.old) stage
        (reverse opened.new.items) tally.new) }
{
    match turn {
        Turn::Pause(task) => Ok(SoloState::Runs(task)),
        Turn::NeedRecord(task) => Ok(SoloState::Runs(give(task, opened, tally))),
        Turn::Forked {
            left,
            rest,
            child,
            rec: _,
        } => {
            opened.push(Opened::Waiting { rest, child })?;
            tally.tasks = tally.tasks.saturating_add(1);
            Ok(SoloState::Runs(left))
        }
        Turn::Arrived {
            rec: _,
            side: _,
            out,
        } => arrive(out, code, opened),
        Turn::Halted(outcome) => Ok(SoloState::Over(outcome)),
        Turn::NoMemory => Err(NoMemory),
        Turn::Stuck { .. } => unreachable!(),
    }
}

/// Turn after turn, to the end.
fn run_turns(alloc: Global, start: Start) -> Result<(Outcome, Tally), NoMemory>
    requires heartbeat { 1 ≤ start.heartbeat }
    requires owes { (outcome : Outcome)
        × Owes start.code.now start.heartbeat false 0 start.task (ending.Root outcome) }
    requires no_record { start.task.pending ≡ None }
    requires root { start.task.goal ≡ goal.Root }
    ensures run { IfOk result
        (λ r. SoloRun start.entry.code.now start.entry.heartbeat start.entry.forks
        start.entry.task r.0 r.1) }
    ensures owed { (e : Ending) →
        Owes start.entry.code.now start.entry.heartbeat false 0 start.entry.task e
        → IfOk result (λ r. e ≡ ending.Root r.0) }
{
    let Start {
        code,
        heartbeat,
        forks,
        mut task,
    } = start;
    let _blocks = code.blocks();
    let mut opened = Vec::new(alloc);
    let mut tally = Tally {
        tasks: 0,
        beats: 0,
        skipped: 0,
        instructions: 0,
    };
    'turns: loop {
        let pace = Pace {
            heartbeat,
            allowed: tally.beats < u64::from(forks),
        };
        in_range(tally);
        let ran = run_task(task, code, pace, TURN_STEPS);
        tally = turned(tally, ran.steps, ran.beats);
        match go_on(ran.turn, code, &mut opened, &mut tally)? {
            SoloState::Runs(next) => task = next,
            SoloState::Over(outcome) => return Ok((outcome, tally)),
        }
    }
}

/// Runs a code to its end by one worker, which goes on with the child of the record that was opened
/// last as soon as it has nothing else to do. A turn that finds no memory ends the run.
pub fn solo_run(alloc: Global, code: &Code, job: Job) -> Result<Report, NoMemory>
    requires job { IsJob code.now job }
    requires owes { (outcome : Outcome)
        × Owes code.now job.heartbeat false 0 (first_state job.tables job.fuel)
        (ending.Root outcome) }
    ensures run { IfOk result
        (λ report. SoloRun code.now job.heartbeat job.forks (first_state job.tables job.fuel)
        report.outcome (tally_of report)) }
    ensures owed { (e : Ending)
        → Owes code.now job.heartbeat false 0 (first_state job.tables job.fuel) e
        → IfOk result (λ report. e ≡ ending.Root report.outcome) }
    ensures events { IfOk result
        (λ report. SharedRun code.now job.heartbeat job.forks (first_state job.tables job.fuel)
        report.outcome (tally_of report)) }
    ensures beats { IfOk result (λ report. report.tasks + report.skipped ≡ report.beats) }
    ensures paid { IfOk result (λ report. report.tasks * job.heartbeat ≤ report.instructions) }
{
    let _blocks = code.blocks();
    let Job {
        tables,
        fuel,
        heartbeat,
        workers: _,
        forks,
    } = job;
    let task = Task::first(alloc, code, tables.into_vec(), fuel)?;
    let (outcome, tally) = run_turns(
        alloc,
        Start {
            code,
            heartbeat,
            forks,
            task,
        },
    )?;
    Ok(Report {
        outcome,
        tasks: tally.tasks,
        beats: tally.beats,
        skipped: tally.skipped,
        instructions: tally.instructions,
    })
}
