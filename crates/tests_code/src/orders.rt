// Compiled codes, run event by event in many orders.

ghost use Rattle.std.specs.Prelude.{◌≡◌, ◌≤◌, ◌<◌, IfOk, IfErr, IfSome, length};
ghost use Rattle.tp_value.specs.declared.limits.TheConstants.{MAX_BEAT, MAX_WORKERS};
ghost use Rattle.code_laws.specs.Owing.{OwesMeaning};
ghost use Rattle.schedule_core.specs.Apply.{Belongs, IsSound};
ghost use Rattle.schedule_core.specs.Standing.{stands};
ghost use Rattle.tests_code.specs.Owed.{owed};

use crate::compiling::{Compiled, compile, held};
use schedule_core::laws::sides_fit;
use schedule_core::{ApplyFault, Config, Event, Job, apply};
use std::alloc::Global;
use std::test::Fail;
use tp_value::{Items, MAX_FORKS, NoMemory, Place, RECORDS_PER_WORKER, Stop, TrapKind};

/// How a run is shared out.
#[derive(Clone, Copy)]
pub struct Plan {
    /// The heartbeat, in instructions.
    pub heartbeat: u64,
    /// The workers.
    pub workers: u32,
}

/// The first configuration of a program's code, over what it is given.
fn first(alloc: Global, on: &Compiled, plan: Plan) -> Result<Config, Fail>
    requires owes { OwesMeaning on.now.program on.now.code }
    requires heartbeat { (1 ≤ plan.heartbeat) × (plan.heartbeat ≤ MAX_BEAT) }
    requires workers { (1 ≤ plan.workers) × (plan.workers ≤ MAX_WORKERS) }
    ensures belongs { IfOk result (λ config. Belongs on.now.code (stands config)) }
    ensures sound { IfOk result (λ config. IsSound on.now.code config (owed on.now.program)) }
{
    let tables = held(alloc, on)?.ok_or("what is held")?;
    let job = Job {
        tables: Items::new(tables),
        fuel: 1_000_000,
        heartbeat: plan.heartbeat,
        workers: plan.workers,
        forks: MAX_FORKS,
    };
    Ok(Config::first(alloc, &on.code, job)?)
}

/// An event happens, or the configuration comes back in which it can't; or there is none left.
fn happen(config: Config, on: &Compiled, event: Event) -> Result<Config, Option<Config>>
    requires belongs { Belongs on.now.code (stands config) }
    requires sound { IsSound on.now.code config (owed on.now.program) }
    ensures belongs { IfOk result (λ after. Belongs on.now.code (stands after)) }
    ensures sound { IfOk result (λ after. IsSound on.now.code after (owed on.now.program)) }
    ensures same_belongs { IfErr result
        (λ left. IfSome left (λ same. Belongs on.now.code (stands same))) }
    ensures same_sound { IfErr result
        (λ left. IfSome left (λ same. IsSound on.now.code same (owed on.now.program))) }
{
    sides_fit(&config, &on.code, event);
    match apply(config, &on.code, event) {
        Ok(after) => Ok(after),
        Err(ApplyFault::NotEnabled(same)) => Err(Some(same)),
        Err(ApplyFault::Stuck(_) | ApplyFault::NoMemory) => Err(None),
    }
}

/// The first of these events that can happen, happens.
fn first_of(config: Config, on: &Compiled, events: &[Event]) -> Result<Config, Option<Config>>
    requires belongs { Belongs on.now.code (stands config) }
    requires sound { IsSound on.now.code config (owed on.now.program) }
    ensures belongs { IfOk result (λ after. Belongs on.now.code (stands after)) }
    ensures sound { IfOk result (λ after. IsSound on.now.code after (owed on.now.program)) }
    ensures same_belongs { IfErr result
        (λ left. IfSome left (λ same. Belongs on.now.code (stands same))) }
    ensures same_sound { IfErr result
        (λ left. IfSome left (λ same. IsSound on.now.code same (owed on.now.program))) }
{
    let mut config = config;
    for event in events {
        match happen(config, on, *event) {
            Ok(after) => return Ok(after),
            Err(Some(same)) => config = same,
            Err(None) => return Err(None),
        }
    }
    Err(Some(config))
}

/// The first of these events that can happen, happens, where one can.
fn turn(config: Config, on: &Compiled, events: &[Event]) -> Option<Config>
    requires belongs { Belongs on.now.code (stands config) }
    requires sound { IsSound on.now.code config (owed on.now.program) }
    ensures belongs { IfSome result (λ after. Belongs on.now.code (stands after)) }
    ensures sound { IfSome result (λ after. IsSound on.now.code after (owed on.now.program)) }
{
    match first_of(config, on, events) {
        Ok(after) => Some(after),
        Err(left) => left,
    }
}

/// A generator of numbers.
fn next_seed(seed: u32) -> u32 {
    seed.wrapping_mul(1_664_525).wrapping_add(1_013_904_223)
}

/// The end of a run, turn after turn, each by a list that is picked at random.
fn run(config: Config, on: &Compiled, lists: &[Vec<Event>], seed: u32) -> Option<Config>
    requires belongs { Belongs on.now.code (stands config) }
    requires sound { IsSound on.now.code config (owed on.now.program) }
    requires some { 0 < length lists.now }
{
    let mut config = config;
    let mut seed = seed;
    for _turn in 0..1_000_000 {
        if config.outcome().is_some() {
            return Some(config);
        }
        seed = next_seed(seed);
        let events = &lists[seed as usize / 65_536 % lists.len()];
        config = turn(config, on, events)?;
    }
    None
}

/// What a worker may do; every second worker claims records from the last on.
fn events_of(alloc: Global, worker: u32) -> Result<Vec<Event>, NoMemory> {
    let mut events = Vec::new(alloc);
    events.push(Event::Step(worker))?;
    events.push(Event::Open(worker))?;
    events.push(Event::Arrive(worker))?;
    events.push(Event::Free(worker))?;
    events.push(Event::Finish(worker))?;
    for at in 0..RECORDS_PER_WORKER {
        let rec = if worker % 2 == 1 {
            RECORDS_PER_WORKER - 1 - at
        } else {
            at
        };
        events.push(Event::Claim(worker, rec))?;
    }
    Ok(events)
}

/// What each of so many workers may do.
fn lists_of(alloc: Global, workers: u32) -> Result<Vec<Vec<Event>>, NoMemory>
    ensures { IfOk result (λ lists. length lists.items ≡ workers) }
{
    let mut lists = Vec::new(alloc);
    for worker in 0..workers {
        lists.push(events_of(alloc, worker)?)?;
    }
    Ok(lists)
}

/// How a run must end.
#[derive(Clone, Copy)]
struct Wanted {
    stop: Stop,
    ticks: u64,
}

/// Whether a run ended so, and its counts are as they must be: each beat made a task or was
/// skipped, and the instructions pay for the tasks.
fn is_right(end: &Config, plan: Plan, wanted: Wanted, output: &[u8]) -> bool {
    let Some(outcome) = end.outcome() else {
        return false;
    };
    let is_wanted = outcome.stop == wanted.stop
        && outcome.ticks == wanted.ticks
        && outcome.output.items() == output;
    let (tasks, skipped) = (end.tasks(), end.skipped());
    let are_beats = tasks.saturating_add(skipped) == end.beats();
    let are_paid = tasks.saturating_mul(plan.heartbeat) <= end.instructions();
    is_wanted && are_beats && are_paid
}

/// The end of a run of a program in an order that a seed picks.
pub fn end_of(alloc: Global, on: &Compiled, plan: Plan, seed: u32) -> Result<Config, Fail>
    requires owes { OwesMeaning on.now.program on.now.code }
    requires heartbeat { (1 ≤ plan.heartbeat) × (plan.heartbeat ≤ MAX_BEAT) }
    requires workers { (1 ≤ plan.workers) × (plan.workers ≤ MAX_WORKERS) }
{
    let lists = lists_of(alloc, plan.workers)?;
    let end = run(first(alloc, on, plan)?, on, &lists, seed).ok_or("an end")?;
    Ok(end)
}

const PLANS: [(u64, u32); 4] = [(1, 1), (1, 3), (2, 2), (5, 4)];

/// Whether a program ends so, whoever does what.
fn ends_so(alloc: Global, source: &[u8], output: &[u8], wanted: Wanted) -> Result<bool, Fail> {
    let on = compile(alloc, source)?;
    for (heartbeat, workers) in PLANS {
        let plan = Plan { heartbeat, workers };
        for seed in [1, 4_242] {
            let end = end_of(alloc, &on, plan, seed)?;
            if !is_right(&end, plan, wanted, output) {
                return Ok(false);
            }
        }
    }
    Ok(true)
}

const SUM: &[u8] =
    b"main { let s = 0; par i in 0..100 reduce s by add { fold s with i; } print s; }";

// Sources with what each prints, and the iterations of its loops and its calls together.
const DONE: [(&[u8], &[u8], u64); 15] = [
    (SUM, b"4950\n", 100),
    // x becomes 2 * x + i, for i from 0 to 4: 32 * x + 26
    (
        b"main {
            let f = 4294967296;
            par i in 0..5 reduce f by affine { fold f with 8589934592 + i; }
            print f;
        }",
        b"137438953498\n",
        5,
    ),
    (
        b"main {
            let m = -900;
            par i in 0..50 reduce m by max { fold m with 0 - (i - 20) * (i - 20) - 3; }
            print m;
        }",
        b"-3\n",
        50,
    ),
    (
        b"table t[8][2];
        main { par i in 0..8 carry t[i] { t[i][0] = i * i; t[i][1] = 0 - i; } emit t; }",
        b"0 0\n1 -1\n4 -2\n9 -3\n16 -4\n25 -5\n36 -6\n49 -7\n",
        8,
    ),
    (
        b"table t[3][6];
        main { let r = 1; par j in 0..6 carry t[r][j] { t[r][j] = j * j - 2; } emit t; }",
        b"0 0 0 0 0 0\n-2 -1 2 7 14 23\n0 0 0 0 0 0\n",
        6,
    ),
    (
        b"main { let s = 5; par i in 7..8 reduce s by mul { fold s with i; } print s; }",
        b"35\n",
        1,
    ),
    (
        b"main { let s = 5; par i in 3..3 reduce s by add { fold s with i; } print s; }",
        b"5\n",
        0,
    ),
    (
        b"main {
            let s = 0;
            let p = 1;
            par i in 0..9 reduce s by add { fold s with i; }
            par j in 0..s reduce p by min { fold p with 3 - j; }
            print p;
        }",
        b"-32\n",
        45,
    ),
    (
        b"main {
            let s = 0;
            loop k in 0..5 { par i in 0..k reduce s by add { fold s with i; } }
            print s;
        }",
        b"10\n",
        15,
    ),
    (
        b"fn f(n) {
            let r = n;
            if 1 < n { let a = 0; let b = 0; both a = f(n - 1), b = f(n - 2); r = a + b; }
            return r;
        }
        main { let x = 0; call x = f(10); print x; }",
        b"55\n",
        177,
    ),
    (
        b"fn f(a, b) {
            let s = 0;
            par i in a..b reduce s by add { fold s with i; }
            return s;
        }
        main { let x = 0; let y = 0; both x = f(0, 4), y = f(4, 9); print 100 * x + y; }",
        b"630\n",
        11,
    ),
    (
        b"table t[3][3];
        main {
            par i in 0..3 carry t[i] {
                par j in 0..3 carry t[i][j] { t[i][j] = (i + 1) * (j + 1); }
            }
            emit t;
        }",
        b"1 2 3\n2 4 6\n3 6 9\n",
        12,
    ),
    (
        b"fn f(n) { return n * n; }
        main {
            let s = 0;
            par i in 0..5 reduce s by add {
                let a = 0;
                let b = 0;
                both a = f(i), b = f(i + 1);
                fold s with a - b;
            }
            print s;
        }",
        b"-25\n",
        15,
    ),
    (
        b"fn f(n) {
            let s = 0;
            par i in 0..n reduce s by add { fold s with i; }
            return s;
        }
        main {
            let m = 0;
            par i in 0..5 reduce m by max {
                let a = 0;
                call a = f(i);
                par j in 0..i reduce m by max { fold m with a * j; }
            }
            print m;
        }",
        b"18\n",
        30,
    ),
    // the cells of a given column
    (
        b"input a;
        main {
            let s = 0;
            par i in 0..rows(a) reduce s by add { fold s with a[i][0]; }
            print s;
        }",
        b"10\n",
        4,
    ),
];

#[test]
fn the_order_of_events_changes_no_outcome(rt: HostRuntime) -> Result<(), Fail> {
    let alloc = rt.alloc();
    for (source, output, ticks) in DONE {
        let wanted = Wanted {
            stop: Stop::Done,
            ticks,
        };
        assert!(rt; ends_so(alloc, source, output, wanted)?);
    }
    Ok(())
}

// The division of the eighth iteration.
#[test]
fn the_order_of_events_changes_no_trap(rt: HostRuntime) -> Result<(), Fail> {
    let wanted = Wanted {
        stop: Stop::Trap(TrapKind::Divide, Place { line: 1, col: 66 }),
        ticks: 8,
    };
    let source =
        b"main { let s = 0; par i in 0..9 reduce s by add { fold s with 10 / (i - 7); } print s; }";
    assert!(rt; ends_so(rt.alloc(), source, b"", wanted)?);
    Ok(())
}

#[test]
fn a_sum_makes_tasks(rt: HostRuntime) -> Result<(), Fail> {
    let alloc = rt.alloc();
    let on = compile(alloc, SUM)?;
    for workers in [1, 3] {
        let plan = Plan {
            heartbeat: 1,
            workers,
        };
        assert!(rt; end_of(alloc, &on, plan, 1)?.tasks() >= 1);
    }
    Ok(())
}

// Each call but the last forks, and their children wait: a worker that goes on with the left has no
// record left for the last ones.
#[test]
fn records_are_used_up(rt: HostRuntime) -> Result<(), Fail> {
    let alloc = rt.alloc();
    let on = compile(
        alloc,
        b"fn f(n) {
            let r = n;
            if 0 < n { let a = 0; let b = 0; both a = f(n - 1), b = f(0); r = a + b; }
            return r;
        }
        main { let x = 0; call x = f(100); print x; }",
    )?;
    let plan = Plan {
        heartbeat: 1,
        workers: 1,
    };
    let end = end_of(alloc, &on, plan, 1)?;
    let wanted = Wanted {
        stop: Stop::Done,
        ticks: 201,
    };
    assert!(&rt; is_right(&end, plan, wanted, b"0\n"));
    assert!(rt; 1 <= end.skipped() && 64 <= end.tasks());
    Ok(())
}
