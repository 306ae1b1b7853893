// The sum of the numbers below 100, run event by event in many orders.

ghost use Rattle.std.specs.Prelude.{◌≡◌, ◌≤◌, ◌<◌, [], IfOk, IfErr, IfSome, length};
ghost use Rattle.sum_code.specs.Sum as sum;
ghost use Rattle.tp_value.specs.declared.limits.TheConstants.{MAX_BEAT, MAX_FORKS, MAX_WORKERS};
ghost use Rattle.schedule_core.specs.Apply.{Belongs, IsSound};
ghost use Rattle.schedule_core.specs.Standing.{stands};

use schedule_core::laws::sides_fit;
use schedule_core::{ApplyFault, Config, Event, Job, Report, apply, solo_run};
use std::alloc::Global;
use std::test::Fail;
use sum_code::laws::sum_is_owed;
use sum_code::sum_below;
use tp_value::{Items, MAX_BEAT, MAX_FORKS, MAX_WORKERS, NoMemory, RECORDS_PER_WORKER};
use tpal_syntax::Code;

const COUNT: u32 = 100;

const SUM: &[u8] = b"4950\n";

/// How a run is shared out.
#[derive(Clone, Copy)]
struct Plan {
    heartbeat: u64,
    workers: u32,
    forks: u32,
}

fn job_of(alloc: Global, plan: Plan) -> Job
    ensures { result
        ≡ record {
          tables = [];
          fuel = 1000;
          heartbeat = plan.heartbeat;
          workers = plan.workers;
          forks = plan.forks;
        } }
{
    Job {
        tables: Items::new(Vec::new(alloc)),
        fuel: 1000,
        heartbeat: plan.heartbeat,
        workers: plan.workers,
        forks: plan.forks,
    }
}

fn first(alloc: Global, code: &Code, plan: Plan) -> Result<Config, NoMemory>
    requires code { code.now ≡ sum.sum_below 100 }
    requires heartbeat { (1 ≤ plan.heartbeat) × (plan.heartbeat ≤ MAX_BEAT) }
    requires workers { (1 ≤ plan.workers) × (plan.workers ≤ MAX_WORKERS) }
    requires forks { plan.forks ≤ MAX_FORKS }
    ensures belongs { IfOk result (λ config. Belongs code.now (stands config)) }
    ensures sound { IfOk result (λ config. IsSound code.now config (sum.prints_sum 100)) }
{
    sum_is_owed(code, COUNT);
    Config::first(alloc, code, job_of(alloc, plan))
}

fn alone(alloc: Global, code: &Code, plan: Plan) -> Result<Report, NoMemory>
    requires code { code.now ≡ sum.sum_below 100 }
    requires heartbeat { (1 ≤ plan.heartbeat) × (plan.heartbeat ≤ MAX_BEAT) }
    requires workers { (1 ≤ plan.workers) × (plan.workers ≤ MAX_WORKERS) }
    requires forks { plan.forks ≤ MAX_FORKS }
{
    sum_is_owed(code, COUNT);
    solo_run(alloc, code, job_of(alloc, plan))
}

/// An event happens, or the configuration comes back in which it can't; or there is none left.
fn happen(config: Config, code: &Code, event: Event) -> Result<Config, Option<Config>>
    requires belongs { Belongs code.now (stands config) }
    requires sound { IsSound code.now config (sum.prints_sum 100) }
    ensures belongs { IfOk result (λ after. Belongs code.now (stands after)) }
    ensures sound { IfOk result (λ after. IsSound code.now after (sum.prints_sum 100)) }
    ensures same_belongs { IfErr result
        (λ left. IfSome left (λ same. Belongs code.now (stands same))) }
    ensures same_sound { IfErr result
        (λ left. IfSome left (λ same. IsSound code.now same (sum.prints_sum 100))) }
{
    sides_fit(&config, code, event);
    match apply(config, code, event) {
        Ok(after) => Ok(after),
        Err(ApplyFault::NotEnabled(same)) => Err(Some(same)),
        Err(ApplyFault::Stuck(_) | ApplyFault::NoMemory) => Err(None),
    }
}

/// The first of these events that can happen, happens.
fn first_of(config: Config, code: &Code, events: &[Event]) -> Result<Config, Option<Config>>
    requires belongs { Belongs code.now (stands config) }
    requires sound { IsSound code.now config (sum.prints_sum 100) }
    ensures belongs { IfOk result (λ after. Belongs code.now (stands after)) }
    ensures sound { IfOk result (λ after. IsSound code.now after (sum.prints_sum 100)) }
    ensures same_belongs { IfErr result
        (λ left. IfSome left (λ same. Belongs code.now (stands same))) }
    ensures same_sound { IfErr result
        (λ left. IfSome left (λ same. IsSound code.now same (sum.prints_sum 100))) }
{
    let mut config = config;
    for event in events {
        match happen(config, code, *event) {
            Ok(after) => return Ok(after),
            Err(Some(same)) => config = same,
            Err(None) => return Err(None),
        }
    }
    Err(Some(config))
}

/// The first of these events that can happen, happens, where one can.
fn turn(config: Config, code: &Code, events: &[Event]) -> Option<Config>
    requires belongs { Belongs code.now (stands config) }
    requires sound { IsSound code.now config (sum.prints_sum 100) }
    ensures belongs { IfSome result (λ after. Belongs code.now (stands after)) }
    ensures sound { IfSome result (λ after. IsSound code.now after (sum.prints_sum 100)) }
{
    match first_of(config, code, events) {
        Ok(after) => Some(after),
        Err(left) => left,
    }
}

/// A generator of numbers.
fn next_seed(seed: u32) -> u32 {
    seed.wrapping_mul(1_664_525).wrapping_add(1_013_904_223)
}

/// The end of a run, turn after turn, each by a list that is picked at random.
fn run(config: Config, code: &Code, lists: &[Vec<Event>], seed: u32) -> Option<Config>
    requires belongs { Belongs code.now (stands config) }
    requires sound { IsSound code.now config (sum.prints_sum 100) }
    requires some { 0 < length lists.now }
{
    let mut config = config;
    let mut seed = seed;
    for _turn in 0..1_000_000 {
        if config.outcome().is_some() {
            return Some(config);
        }
        seed = next_seed(seed);
        let events = &lists[seed as usize / 65_536 % lists.len()];
        config = turn(config, code, events)?;
    }
    None
}

/// What a worker may do: the records that it may claim come from the first or from the last on.
fn add_events(
    events: &mut Vec<Event>,
    worker: u32,
    records: u32,
    is_last_first: bool,
) -> Result<(), NoMemory> {
    events.push(Event::Step(worker))?;
    events.push(Event::Open(worker))?;
    events.push(Event::Arrive(worker))?;
    events.push(Event::Free(worker))?;
    events.push(Event::Finish(worker))?;
    for at in 0..records {
        let rec = if is_last_first { records - 1 - at } else { at };
        events.push(Event::Claim(worker, rec))?;
    }
    Ok(())
}

/// What each of so many workers may do.
fn lists_of(alloc: Global, workers: u32) -> Result<Vec<Vec<Event>>, NoMemory>
    ensures { IfOk result (λ lists. length lists.items ≡ workers) }
{
    let mut lists = Vec::new(alloc);
    for worker in 0..workers {
        let mut events = Vec::new(alloc);
        add_events(&mut events, worker, RECORDS_PER_WORKER, worker % 2 == 1)?;
        lists.push(events)?;
    }
    Ok(lists)
}

/// The counts of a run that printed the sum, where they are as they must be: each beat made a task
/// or was skipped, no worker has more than it may, and the instructions pay for the tasks.
fn counts(end: &Config, plan: Plan) -> Option<(u64, u64, u64)> {
    let (tasks, skipped, instructions) = (end.tasks(), end.skipped(), end.instructions());
    let is_sum = end.outcome()?.output.items() == SUM;
    let are_beats = tasks.saturating_add(skipped) == end.beats();
    let are_few = end.beats() <= u64::from(plan.forks) * u64::from(plan.workers);
    let are_paid = tasks.saturating_mul(plan.heartbeat) <= instructions;
    if is_sum && are_beats && are_few && are_paid {
        Some((tasks, skipped, instructions))
    } else {
        None
    }
}

#[test]
fn worker_1_goes_first(rt: HostRuntime) -> Result<(), Fail> {
    let alloc = rt.alloc();
    let code = sum_below(alloc, COUNT)?.expect(&rt, "a code");
    let plan = Plan {
        heartbeat: 1,
        workers: 2,
        forks: MAX_FORKS,
    };
    let mut events = Vec::new(alloc);
    add_events(&mut events, 1, 2 * RECORDS_PER_WORKER, false)?;
    add_events(&mut events, 0, 2 * RECORDS_PER_WORKER, false)?;
    let lists = [events];
    let end = run(first(alloc, &code, plan)?, &code, &lists, 0).expect(&rt, "an end");
    let (tasks, _, _) = counts(&end, plan).expect(&rt, "the sum");
    assert!(rt; tasks >= 1);
    Ok(())
}

// One worker that goes on with the child of the record that was opened last is the solo run.
#[test]
fn the_solo_run_is_a_list_of_events(rt: HostRuntime) -> Result<(), Fail> {
    let alloc = rt.alloc();
    let code = sum_below(alloc, COUNT)?.expect(&rt, "a code");
    let plan = Plan {
        heartbeat: 1,
        workers: 1,
        forks: MAX_FORKS,
    };
    let mut events = Vec::new(alloc);
    add_events(&mut events, 0, RECORDS_PER_WORKER, true)?;
    let lists = [events];
    let end = run(first(alloc, &code, plan)?, &code, &lists, 0).expect(&rt, "an end");
    let (tasks, skipped, instructions) = counts(&end, plan).expect(&rt, "the sum");
    assert!(rt; tasks >= 1);
    let report = alone(alloc, &code, plan)?;
    assert!(rt; report.outcome.output.items() == SUM);
    assert_eq!(rt;
        (report.tasks, report.skipped, report.instructions),
        (tasks, skipped, instructions)
    );
    assert_eq!(rt; report.beats, end.beats());
    Ok(())
}

#[test]
fn the_order_of_events_changes_no_sum(rt: HostRuntime) -> Result<(), Fail> {
    let alloc = rt.alloc();
    let code = sum_below(alloc, COUNT)?.expect(&rt, "a code");
    for workers in 1..5 {
        let lists = lists_of(alloc, workers)?;
        for (heartbeat, forks) in [(1, 1_000_000), (2, 3)] {
            let plan = Plan {
                heartbeat,
                workers,
                forks,
            };
            for seed in [1, 4_242] {
                let end = run(first(alloc, &code, plan)?, &code, &lists, seed).expect(
                    &rt, "an end",
                );
                assert!(rt; counts(&end, plan).is_some());
            }
        }
    }
    Ok(())
}
