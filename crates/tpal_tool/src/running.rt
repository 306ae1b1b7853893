// Runs that are prepared, to their end.

ghost use Rattle.std.specs.Prelude.{◌≡◌, ◌≤◌, List, IfOk, Some, length};
ghost use Rattle.loop_syntax.specs.declared.program.Program.{Program};
ghost use Rattle.tp_value.specs.declared.values.Table.{Table};
ghost use Rattle.tpal_verify.specs.Exec.{exec};
ghost use Rattle.tpal_tool.specs.Asking.{options_seen};
ghost use Rattle.tpal_tool.specs.Preparing.{IsFirstTask};
ghost use Rattle.tpal_tool.specs.Running.{IsEndOf};

use crate::prepared::{PreparedExec, PreparedRun};
use schedule_core::{Job, Report, solo_run};
use std::alloc::Global;
use std::sync::Wait;
use std::thread::Threads;
use steal_pool::{Gate, pool_run};
use tp_value::{Items, NoMemory};
use tpal_syntax::Code;
use tpal_verify::{ExecReport, SafeCode, exec_run};

/// A run that came to its end.
#[derive(Drop)]
pub struct EndedRun {
    /// The code that ran.
    pub code: Code,
    /// What it came to, and its counts.
    pub report: Report,
    /// Whether the code and the counts are shown.
    pub show: bool,
}

/// A run of a code that came to an end.
#[derive(Drop)]
pub struct EndedExec {
    /// The code that ran.
    pub code: SafeCode,
    /// How the run ended.
    pub report: ExecReport,
}

/// Runs a code, by one worker, until its end or until it has executed all its instructions.
pub fn run_code(alloc: Global, run: PreparedExec) -> Result<EndedExec, NoMemory>
    requires { length run.held.items ≡ length run.code.tables }
    ensures code { IfOk result (λ ended. ended.code ≡ run.code) }
    ensures report { IfOk result
        (λ ended. exec run.options.steps run.code run.options.beat run.options.forks
        run.held.items run.options.fuel
        ≡ Some ended.report) }
{
    let PreparedExec {
        code,
        held,
        options,
    } = run;
    let job = Job {
        tables: Items::new(held),
        fuel: options.fuel,
        heartbeat: options.beat,
        workers: 1,
        forks: options.forks,
    };
    let report = exec_run(alloc, &code, job, options.steps)?;
    Ok(EndedExec { code, report })
}

/// Runs what is prepared to its end, by one worker.
pub fn run_alone(alloc: Global, run: PreparedRun) -> Result<EndedRun, NoMemory>
    requires one { run.options.workers ≡ 1 }
    requires first { (program : Program)
        × (inputs : List Table)
        × IsFirstTask program inputs run.code run.held.items }
    ensures { (program : Program) (inputs : List Table)
        → IsFirstTask program inputs run.code run.held.items
        → IfOk result (IsEndOf program inputs (options_seen run.options)) }
{
    let PreparedRun {
        code,
        held,
        options,
    } = run;
    let job = Job {
        tables: Items::new(held),
        fuel: options.fuel,
        heartbeat: options.beat,
        workers: options.workers,
        forks: options.forks,
    };
    let report = solo_run(alloc, &code, job)?;
    let show = options.show;
    Ok(EndedRun { code, report, show })
}

/// Runs what is prepared to its end, by several workers.
pub fn run_in_pool<R: Threads + Wait + Sync, G: Gate + Sync>(
    rt: &R,
    alloc: Global,
    run: PreparedRun,
    gate: &G,
) -> Result<EndedRun, NoMemory>
    requires many { 2 ≤ run.options.workers }
    requires first { (program : Program)
        × (inputs : List Table)
        × IsFirstTask program inputs run.code run.held.items }
    ensures { (program : Program) (inputs : List Table)
        → IsFirstTask program inputs run.code run.held.items
        → IfOk result (IsEndOf program inputs (options_seen run.options)) }
{
    let PreparedRun {
        code,
        held,
        options,
    } = run;
    let job = Job {
        tables: Items::new(held),
        fuel: options.fuel,
        heartbeat: options.beat,
        workers: options.workers,
        forks: options.forks,
    };
    let (report, _closed) = pool_run(rt, alloc, &code, job, gate)?;
    let show = options.show;
    Ok(EndedRun { code, report, show })
}
