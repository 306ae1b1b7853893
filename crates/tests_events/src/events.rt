// The events of a run of accepted code, and a run by events that are drawn at random.

ghost use Rattle.std.specs.Prelude.{◌≡◌, ◌<◌, ◌≤◌, IfOk, length};
ghost use Rattle.schedule_core.specs.Apply.{Belongs, IsJob};
ghost use Rattle.schedule_core.specs.Standing.{stands};
ghost use Rattle.tests_events.specs.Led.{IsLed};

use schedule_core::{ApplyFault, Config, Event, Job, apply};
use std::alloc::Global;
use tp_value::NoMemory;
use tpal_machine::Fault;
use tpal_verify::{SafeCode, stays_sound};

/// The first configuration of a run.
pub fn first(alloc: Global, safe: &SafeCode, job: Job) -> Result<Config, NoMemory>
    requires job { IsJob safe.now job }
    ensures belongs { IfOk result (λ config. Belongs safe.now (stands config)) }
    ensures led { IfOk result (λ config. IsLed safe.now config) }
{
    Config::first(alloc, safe.code(), job)
}

/// What an event gives, and whether it can happen; or the fault by which a task is stuck, or none
/// for want of memory.
fn happen(safe: &SafeCode, config: Config, event: Event) -> Result<(Config, bool), Option<Fault>>
    requires belongs { Belongs safe.now (stands config) }
    requires led { IsLed safe.now config }
    ensures belongs { IfOk result (λ after. Belongs safe.now (stands after.0)) }
    ensures led { IfOk result (λ after. IsLed safe.now after.0) }
{
    let code = safe.code();
    let _blocks = code.blocks();
    stays_sound(safe);
    match apply(config, code, event) {
        Ok(after) => Ok((after, true)),
        Err(ApplyFault::NotEnabled(same)) => Ok((same, false)),
        Err(ApplyFault::Stuck(fault)) => Err(Some(fault)),
        Err(ApplyFault::NoMemory) => Err(None),
    }
}

/// The first of these events that can happen, happens, where one can.
fn turn(safe: &SafeCode, config: Config, events: &[Event]) -> Result<Config, Option<Fault>>
    requires belongs { Belongs safe.now (stands config) }
    requires led { IsLed safe.now config }
    ensures belongs { IfOk result (λ after. Belongs safe.now (stands after)) }
    ensures led { IfOk result (λ after. IsLed safe.now after) }
{
    let mut config = config;
    for event in events {
        let (after, happened) = happen(safe, config, *event)?;
        if happened {
            return Ok(after);
        }
        config = after;
    }
    Ok(config)
}

/// A generator of numbers.
fn next_seed(seed: u32) -> u32 {
    seed.wrapping_mul(1_664_525).wrapping_add(1_013_904_223)
}

/// What a run comes to within so many turns, each by a list that is drawn at random.
pub fn run(
    safe: &SafeCode,
    config: Config,
    lists: &[Vec<Event>],
    seed: u32,
    most: u32,
) -> Result<Config, Option<Fault>>
    requires belongs { Belongs safe.now (stands config) }
    requires led { IsLed safe.now config }
    requires some { 0 < length lists.now }
{
    let mut config = config;
    let mut seed = seed;
    for _turn in 0..most {
        if config.outcome().is_some() {
            return Ok(config);
        }
        seed = next_seed(seed);
        let events = &lists[seed as usize / 65_536 % lists.len()];
        config = turn(safe, config, events)?;
    }
    Ok(config)
}

/// What a worker may do: the records that it may claim come from the first or from the last on.
fn add_events(
    events: &mut Vec<Event>,
    worker: u32,
    records: u32,
    is_last_first: bool,
) -> Result<(), NoMemory> {
    events.push(Event::Step(worker))?;
    events.push(Event::Open(worker))?;
    events.push(Event::Arrive(worker))?;
    events.push(Event::Free(worker))?;
    events.push(Event::Finish(worker))?;
    for at in 0..records {
        let rec = if is_last_first { records - 1 - at } else { at };
        events.push(Event::Claim(worker, rec))?;
    }
    Ok(())
}

/// What each of so many workers may do, with the records in both orders.
pub fn lists_of(alloc: Global, workers: u32, records: u32) -> Result<Vec<Vec<Event>>, NoMemory>
    ensures { IfOk result (λ lists. workers ≤ length lists.items) }
{
    let mut lists = Vec::new(alloc);
    for worker in 0..workers {
        let mut events = Vec::new(alloc);
        add_events(&mut events, worker, records, false)?;
        lists.push(events)?;
        let mut events = Vec::new(alloc);
        add_events(&mut events, worker, records, true)?;
        lists.push(events)?;
    }
    Ok(lists)
}
