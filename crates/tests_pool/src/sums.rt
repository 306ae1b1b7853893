// The sum of the numbers below 3,000, by any number of workers.

ghost use Rattle.std.specs.Prelude.{◌≡◌, ◌≤◌, []};
ghost use Rattle.sum_code.specs.Sum as sum;
ghost use Rattle.tp_value.specs.declared.limits.TheConstants.{MAX_BEAT, MAX_FORKS, MAX_WORKERS};

use join_records::Closed;
use schedule_core::{Job, Report};
use std::alloc::Global;
use std::sync::Wait;
use std::test::Fail;
use std::thread::Threads;
use steal_pool::{Gate, NoGate, pool_run};
use sum_code::laws::sum_is_owed;
use sum_code::sum_below;
use tp_value::{Items, MAX_BEAT, MAX_FORKS, MAX_WORKERS, NoMemory};
use tpal_syntax::Code;

pub(crate) const COUNT: u32 = 3_000;

const SUM: &[u8] = b"4498500\n";

/// How a run is shared out.
#[derive(Clone, Copy)]
pub(crate) struct Plan {
    pub(crate) heartbeat: u64,
    pub(crate) workers: u32,
    pub(crate) forks: u32,
}

fn job_of(alloc: Global, plan: Plan) -> Job
    ensures { result
        ≡ record {
          tables = [];
          fuel = 1000;
          heartbeat = plan.heartbeat;
          workers = plan.workers;
          forks = plan.forks;
        } }
{
    Job {
        tables: Items::new(Vec::new(alloc)),
        fuel: 1000,
        heartbeat: plan.heartbeat,
        workers: plan.workers,
        forks: plan.forks,
    }
}

pub(crate) fn ran<R: Threads + Wait + Sync, G: Gate + Sync>(
    rt: &R,
    alloc: Global,
    code: &Code,
    plan: Plan,
    gate: &G,
) -> Result<(Report, Closed), NoMemory>
    requires code { code.now ≡ sum.sum_below 3000 }
    requires heartbeat { (1 ≤ plan.heartbeat) × (plan.heartbeat ≤ MAX_BEAT) }
    requires workers { (1 ≤ plan.workers) × (plan.workers ≤ MAX_WORKERS) }
    requires forks { plan.forks ≤ MAX_FORKS }
{
    sum_is_owed(code, COUNT);
    pool_run(rt, alloc, code, job_of(alloc, plan), gate)
}

/// Whether a run printed the sum, and its counts are as they must be: each beat made a task or was
/// skipped, no worker has more than it may, the instructions pay for the tasks, and each task is
/// one opening of a record.
pub(crate) fn is_right(report: &Report, closed: &Closed, plan: Plan) -> bool {
    report.outcome.output.items() == SUM
        && report.tasks.saturating_add(report.skipped) == report.beats
        && report.beats <= u64::from(plan.forks) * u64::from(plan.workers)
        && report.tasks.saturating_mul(plan.heartbeat) <= report.instructions
        && closed.opens() == report.tasks
}

#[test]
fn the_sum_is_the_same_by_any_workers(rt: HostRuntime) -> Result<(), Fail> {
    let alloc = rt.alloc();
    let code = sum_below(alloc, COUNT)?.expect(&rt, "a code");
    for workers in [1, 2, 4, MAX_WORKERS] {
        for heartbeat in [1, 100, 10_000, MAX_BEAT] {
            let plan = Plan {
                heartbeat,
                workers,
                forks: MAX_FORKS,
            };
            let (report, closed) = ran(&rt, alloc, &code, plan, &NoGate)?;
            assert!(rt; is_right(&report, &closed, plan));
        }
    }
    Ok(())
}

#[test]
fn a_worker_has_no_more_beats_than_it_may(rt: HostRuntime) -> Result<(), Fail> {
    let alloc = rt.alloc();
    let code = sum_below(alloc, COUNT)?.expect(&rt, "a code");
    for (workers, forks) in [(1, 0), (1, 3), (4, 2)] {
        let plan = Plan {
            heartbeat: 1,
            workers,
            forks,
        };
        let (report, closed) = ran(&rt, alloc, &code, plan, &NoGate)?;
        assert!(rt; is_right(&report, &closed, plan));
        assert!(rt; report.beats >= u64::from(forks));
    }
    Ok(())
}
