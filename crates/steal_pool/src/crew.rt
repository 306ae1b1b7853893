// The workers of a run, as they are made.

ghost use Rattle.std.specs.Prelude.{◌≡◌, ◌⊎◌, ◌+◌, ◌<◌, ◌≤◌, All, IfOk, None, length};
ghost use Rattle.tpal_machine.specs.declared.ends.End.TheVariants.{Root};
ghost use Rattle.join_records.specs.Passes.{AreNew, IsPassOf, view};
ghost use Rattle.join_records.specs.Views.{total};
ghost use Rattle.steal_pool.specs.Facts.{HasEnd, Owed};
ghost use Rattle.steal_pool.specs.Has.{Has, IsRooted};
ghost use Rattle.steal_pool.specs.Tied.{AreTied, AreTiedWorkers, ReachesAllBut};
ghost use Rattle.steal_pool.specs.Together.{no_counts};

use crate::deques::{Numbers, Owner};
use crate::desk::{Counts, Desk, Work};
use crate::load::{RunTerms, TaskLoad};
use crate::other::Other;
use crate::plan::Plan;
use crate::source::Source;
use crate::turn::Worker;
use join_records::Pass;
use std::alloc::Global;
use tp_value::{NoMemory, RECORDS_PER_WORKER};
use tpal_machine::Task;

// The place that comes so many after one, going round.
fn next_of(number: usize, step: usize, count: usize) -> usize
    requires { (number < count) × (step < count) }
    ensures below { result < count }
    ensures round { (result ≡ number + step) ⊎ (result + count ≡ number + step) }
{
    if step < count - number {
        number + step
    } else {
        step - (count - number)
    }
}

// A source without an end of another's deque. Its own list has room for every record.
fn lone_source<S: RunTerms>(alloc: Global, room: u32) -> Result<Source<S>, NoMemory> {
    let owner = Owner::<S>::fifo_as(alloc, room as usize)?;
    let list = Vec::with_capacity(alloc, room as usize)?;
    Ok(Source {
        owner,
        list,
        others: Vec::new(alloc),
    })
}

fn lone_sources<S: RunTerms>(alloc: Global, workers: u32) -> Result<Vec<Source<S>>, NoMemory>
    requires { workers ≤ 16 }
    ensures { IfOk result (λ sources. length sources.items ≡ workers) }
{
    let mut sources = Vec::with_capacity(alloc, workers as usize)?;
    for _number in 0..workers {
        let source = lone_source::<S>(alloc, RECORDS_PER_WORKER * workers)?;
        sources.push(source)?;
    }
    Ok(sources)
}

// An end of the deque of each source but the one of this number, from the next one round to the one
// before it.
fn others_of<S: RunTerms>(
    alloc: Global,
    sources: &[Source<S>],
    number: usize,
) -> Result<Vec<Other<S>>, NoMemory>
    requires number { number < length sources.now }
    ensures all { IfOk result (λ others. ReachesAllBut number sources.now others.items) }
{
    let mut others = Vec::with_capacity(alloc, sources.len())?;
    for step in 1..sources.len() {
        let at = next_of(number, step, sources.len());
        let thief = sources[at].owner.stealer()?;
        let pass = thief.pass();
        others.push(Other {
            thief,
            pass,
            is_lost: false,
        })?;
    }
    Ok(others)
}

// Gives each source an end of each other one's deque.
fn tie<S: RunTerms>(alloc: Global, sources: &mut [Source<S>]) -> Result<(), NoMemory>
    ensures count { length sources.new ≡ length sources.old }
    ensures tied { IfOk result (λ _. AreTied sources.new) }
{
    for number in 0..sources.len() {
        let others = others_of::<S>(alloc, sources, number)?;
        let source = &mut sources[number];
        source.others = others;
    }
    Ok(())
}

// A source for each worker.
fn make_sources<S: RunTerms>(alloc: Global, workers: u32) -> Result<Vec<Source<S>>, NoMemory>
    requires { workers ≤ 16 }
    ensures count { IfOk result (λ sources. length sources.items ≡ workers) }
    ensures tied { IfOk result (λ sources. AreTied sources.items) }
{
    let mut sources = lone_sources::<S>(alloc, workers)?;
    tie::<S>(alloc, sources.as_mut_slice())?;
    Ok(sources)
}

// A worker that has yet to begin.
fn make_worker<S: RunTerms>(
    number: u32,
    pass: Pass<TaskLoad<S>>,
    work: Work,
    source: Source<S>,
) -> Worker<S>
    ensures source { result.source ≡ source }
    ensures pass { result.desk.pass ≡ pass }
    ensures work { result.desk.work ≡ work }
    ensures taken { result.desk.taken ≡ None }
    ensures counts { result.desk.counts ≡ no_counts }
{
    Worker {
        number,
        desk: Desk {
            pass,
            work,
            taken: None,
            counts: Counts::new(),
        },
        source,
    }
}

/// The workers of a run, each with an end of each other one's deque. The last one has the first
/// task: where no thread can be made, the last of a list runs first, and the others wait for what
/// it does.
pub(crate) fn make_workers<S: RunTerms>(
    alloc: Global,
    plan: &Plan<S>,
    mut passes: Vec<Pass<TaskLoad<S>>>,
    first: Task,
) -> Result<Vec<Worker<S>>, NoMemory>
    requires first { first ≡ S.terms.first }
    requires end { HasEnd S.terms.heartbeat first Root }
    requires count { (1 ≤ length passes.items) × (length passes.items ≤ 16) }
    requires passes { AreNew (Owed S.terms.code S.terms.heartbeat) first (length passes.items)
        plan.now.records.now passes.items }
    ensures each { IfOk result
        (λ workers. All
        (λ w. IsPassOf plan.now.records.now w.desk.pass
        × Has S.terms (view w.desk.pass) w.desk.taken w.desk.counts w.desk.work
        × IsRooted S.terms (view w.desk.pass))
        workers.items) }
    ensures parts { IfOk result
        (λ workers. total (λ w. (view w.desk.pass).parts) workers.items ≡ 16) }
    ensures count { IfOk result (λ workers. length workers.items ≡ length passes.items) }
    ensures tied { IfOk result (λ workers. AreTiedWorkers (λ w. w.source) workers.items) }
{
    let _ = plan;
    let mut sources = make_sources::<S>(alloc, passes.len() as u32)?;
    let mut workers = Vec::new(alloc);
    while passes.len() > 1 {
        let (Some(pass), Some(source)) = (passes.pop(), sources.pop()) else {
            unreachable!()
        };
        let number = passes.len() as u32;
        workers.push(make_worker(number, pass, Work::Nothing, source))?;
    }
    let (Some(pass), Some(source)) = (passes.pop(), sources.pop()) else {
        unreachable!()
    };
    workers.push(make_worker(0, pass, Work::Runs(first), source))?;
    Ok(workers)
}
