// The pool.

ghost use Rattle.std.specs.Prelude.{◌≡◌, ◌+◌, ◌*◌, ◌<◌, ◌≤◌, All, false, true, IfOk, length};
ghost use Rattle.tp_value.specs.declared.limits.TheConstants.{MAX_BEAT, MAX_FORKS, MAX_WORKERS};
ghost use Rattle.tpal_machine.specs.declared.ends.End.TheVariants.{Root};
ghost use Rattle.join_records.specs.Passes.{IsPassOf, view};
ghost use Rattle.join_records.specs.Views.{total};
ghost use Rattle.steal_pool.specs.Facts.{HasEnd, Owed};
ghost use Rattle.steal_pool.specs.Has.{Has, IsRooted, Stays};
ghost use Rattle.steal_pool.specs.Terms.{IsStart};
ghost use Rattle.steal_pool.specs.Tied.{SameDeques};
ghost use Rattle.tp_value.specs.declared.values.Outcome.{Outcome};
ghost use Rattle.tpal_machine.specs.declared.ends.Ending.{Ending};
ghost use Rattle.tpal_machine.specs.declared.ends.Ending.TheVariants as ending;
ghost use Rattle.tpal_machine.specs.Owes.{Owes};
ghost use Rattle.tpal_machine.specs.State.{first_state};
ghost use Rattle.schedule_core.specs.Apply.{IsJob};

use crate::crew::make_workers;
use crate::desk::Work;
use crate::gate::{Gate, GateEvent};
use crate::gather::{close_run, gather};
use crate::idling::Idling;
use crate::load::{RunTerms, TaskLoad};
use crate::plan::Plan;
use crate::turn::{Step, Worker};
use crossbeam_utils::sync::EventCount;
use join_records::{Closed, Records};
use schedule_core::{Job, Report};
use std::alloc::Global;
use std::marker::Brand;
use std::sync::Wait;
use std::sync::atomic::{AtomicBool, Ordering};
use std::thread;
use std::thread::Threads;
use tp_value::{NoMemory, RECORDS_PER_WORKER};
use tpal_machine::Task;
use tpal_syntax::Code;

// One worker, turn after turn, until it has ended or memory is wanting.
fn work<S: RunTerms, R: Wait, G: Gate>(
    rt: &R,
    worker: &mut Worker<S>,
    plan: &Plan<S>,
    is_wanting: &AtomicBool,
    gate: &G,
)
    requires table { IsPassOf plan.now.records.now worker.old.desk.pass }
    requires has { Has S.terms (view worker.old.desk.pass) worker.old.desk.taken
        worker.old.desk.counts worker.old.desk.work }
    ensures pass { IsPassOf plan.now.records.now worker.new.desk.pass
        × Stays (view worker.old.desk.pass) (view worker.new.desk.pass) }
    ensures has { Has S.terms (view worker.new.desk.pass) worker.new.desk.taken
        worker.new.desk.counts worker.new.desk.work }
    ensures deques { SameDeques worker.old.source worker.new.source }
{
    let mut idling = Idling::new();
    for _ in rt.forever() {
        if is_wanting.load(Ordering::SeqCst) {
            break;
        }
        gate.at(worker.number, GateEvent::Turn);
        match worker.turn::<Brand, G>(plan, gate) {
            Step::Worked => idling.end(),
            Step::Again => idling.retry(),
            Step::Idle => idling.go_on(rt, plan.sleepers),
            Step::Over => break,
        }
        if matches!(worker.desk.work, Work::Lost) {
            is_wanting.store(true, Ordering::SeqCst);
        }
    }
    plan.sleepers.notify_all();
}

// All workers, each in a thread of its own where one can be made.
fn work_all<S: RunTerms + Send + Sync, R: Threads + Wait + Sync, G: Gate + Sync>(
    rt: &R,
    workers: &mut [Worker<S>],
    plan: &Plan<S>,
    gate: &G,
)
    requires some { 0 < length workers.old }
    requires each { All
        (λ w. IsPassOf plan.now.records.now w.desk.pass
        × Has S.terms (view w.desk.pass) w.desk.taken w.desk.counts w.desk.work
        × IsRooted S.terms (view w.desk.pass))
        workers.old }
    ensures each { All
        (λ w. IsPassOf plan.now.records.now w.desk.pass
        × Has S.terms (view w.desk.pass) w.desk.taken w.desk.counts w.desk.work
        × IsRooted S.terms (view w.desk.pass))
        workers.new }
    ensures parts { total (λ w. (view w.desk.pass).parts) workers.new
        ≡ total (λ w. (view w.desk.pass).parts) workers.old }
    ensures count { length workers.new ≡ length workers.old }
{
    let is_wanting = AtomicBool::new(false);
    let threads = workers.len();
    thread::for_each_mut(
        rt,
        workers,
        threads,
        &|_, worker| work(rt, worker, plan, &is_wanting, gate),
    );
}

/// A run that is about to begin.
#[derive(Drop)]
struct Start<'a> {
    code: &'a Code,
    heartbeat: u64,
    forks: u32,
    workers: u32,
    task: Task,
}

// Runs a first task to its end, under the terms of the run.
fn run_from<S: RunTerms + Send + Sync, R: Threads + Wait + Sync, G: Gate + Sync>(
    rt: &R,
    alloc: Global,
    start: Start,
    gate: &G,
) -> Result<(Report, Closed), NoMemory>
    requires terms { IsStart S.terms start.code.now start.heartbeat start.forks start.workers
        start.task }
    requires ranges { (1 ≤ start.heartbeat)
        × (start.heartbeat ≤ MAX_BEAT)
        × (1 ≤ start.workers)
        × (start.workers ≤ MAX_WORKERS)
        × (start.forks ≤ MAX_FORKS) }
    requires end { HasEnd start.heartbeat start.task Root }
    requires owes { (outcome : Outcome)
        × Owed start.code.now start.heartbeat start.task (ending.Root outcome) }
    ensures owed { IfOk result
        (λ r. Owed S.terms.code S.terms.heartbeat S.terms.first (ending.Root r.0.outcome)) }
    ensures forks { IfOk result (λ r. r.0.beats ≤ start.entry.forks * start.entry.workers) }
    ensures beats { IfOk result (λ r. r.0.tasks + r.0.skipped ≡ r.0.beats) }
    ensures paid { IfOk result (λ r. r.0.tasks * start.entry.heartbeat ≤ r.0.instructions) }
    ensures closed { IfOk result (λ r. (r.1.finished ≡ true) × (r.1.opens ≡ r.0.tasks)) }
{
    let Start {
        code,
        heartbeat,
        forks,
        workers,
        task,
    } = start;
    let (records, passes) = Records::<TaskLoad<S>>::new(
        alloc,
        RECORDS_PER_WORKER * workers,
        workers,
        &task,
    )?;
    let sleepers = EventCount::new();
    let plan = Plan {
        code,
        records: &records,
        heartbeat,
        forks,
        sleepers: &sleepers,
    };
    let mut workers = make_workers(alloc, &plan, passes, task)?;
    let gathered = Vec::with_capacity(alloc, workers.len())?;
    work_all(rt, workers.as_mut_slice(), &plan, gate);
    let sum = gather(&plan, workers, gathered)?;
    Ok(close_run(records, sum))
}

/// Runs a code to its end by 1 to 16 workers.
pub fn pool_run<R: Threads + Wait + Sync, G: Gate + Sync>(
    rt: &R,
    alloc: Global,
    code: &Code,
    job: Job,
    gate: &G,
) -> Result<(Report, Closed), NoMemory>
    requires job { IsJob code.now job }
    requires owes { (outcome : Outcome)
        × Owes code.now job.heartbeat false 0 (first_state job.tables job.fuel)
        (ending.Root outcome) }
    ensures owed { (e : Ending)
        → Owes code.now job.heartbeat false 0 (first_state job.tables job.fuel) e
        → IfOk result (λ r. e ≡ ending.Root r.0.outcome) }
    ensures forks { IfOk result (λ r. r.0.beats ≤ job.forks * job.workers) }
    ensures beats { IfOk result (λ r. r.0.tasks + r.0.skipped ≡ r.0.beats) }
    ensures paid { IfOk result (λ r. r.0.tasks * job.heartbeat ≤ r.0.instructions) }
    ensures closed { IfOk result (λ r. (r.1.finished ≡ true) × (r.1.opens ≡ r.0.tasks)) }
{
    let Job {
        tables,
        fuel,
        heartbeat,
        workers,
        forks,
    } = job;
    let task = Task::first(alloc, code, tables.into_vec(), fuel)?;
    let start = Start {
        code,
        heartbeat,
        forks,
        workers,
        task,
    };
    run_from::<Brand, R, G>(rt, alloc, start, gate)
}
