// One run of a code text.

ghost use Rattle.std.specs.Prelude.{◌≡◌, ◌≤◌, IfOk, length};
ghost use Rattle.tp_value.specs.declared.limits.TheConstants.{MAX_BEAT, MAX_FORKS, MAX_WORKERS};

use crate::events::{first, lists_of, run};
use schedule_core::Job;
use slices::Held;
use std::alloc::Global;
use std::io;
use std::process::ExitCode;
use tp_value::{Items, MAX_CODE_BYTES, MAX_FORKS, MAX_WORKERS, NoMemory, RECORDS_PER_WORKER};
use tpal_asm::assemble;
use tpal_machine::Fault;
use tpal_syntax::{Code, CodeTable};
use tpal_verify::{SafeCode, verify};

/// How a run goes.
#[derive(Clone, Copy)]
pub struct Plan {
    pub workers: u32,
    pub beat: u32,
    pub forks: u32,
    pub fuel: u32,
    pub seed: u32,
    pub most: u32,
}

/// What a run came to.
enum End {
    Refused,
    Outcome,
    RunsOn,
    Stuck(Fault),
}

/// What the first task has of each table of a code.
fn tables_of(alloc: Global, code: &Code) -> Result<Vec<Held>, NoMemory>
    ensures { IfOk result (λ held. length held.items ≡ length code.now.tables) }
{
    let mut held = Vec::new(alloc);
    for table in code.tables() {
        let part = match table {
            CodeTable::Input(_) => {
                let cells = Vec::from_slice(alloc, &[7, -1, 0, 3, 2, 40])?;
                Held::whole(3, 2, cells)
            }
            CodeTable::Made => Held::none(alloc, 0, 0),
        };
        held.push(part)?;
    }
    Ok(held)
}

/// What a run of accepted code comes to.
fn ran(alloc: Global, safe: &SafeCode, plan: Plan) -> Result<End, NoMemory>
    requires beat { (1 ≤ plan.beat) × (plan.beat ≤ MAX_BEAT) }
    requires forks { plan.forks ≤ MAX_FORKS }
    requires workers { (1 ≤ plan.workers) × (plan.workers ≤ MAX_WORKERS) }
{
    let job = Job {
        tables: Items::new(tables_of(alloc, safe.code())?),
        fuel: u64::from(plan.fuel),
        heartbeat: u64::from(plan.beat),
        workers: plan.workers,
        forks: plan.forks,
    };
    let config = first(alloc, safe, job)?;
    let lists = lists_of(alloc, plan.workers, RECORDS_PER_WORKER * plan.workers)?;
    match run(safe, config, &lists, plan.seed, plan.most) {
        Ok(config) => Ok(if config.outcome().is_some() {
            End::Outcome
        } else {
            End::RunsOn
        }),
        Err(Some(fault)) => Ok(End::Stuck(fault)),
        Err(None) => Err(NoMemory),
    }
}

/// What a run of a code text comes to.
fn end_of(alloc: Global, text: &[u8], plan: Plan) -> Result<End, NoMemory> {
    let is_beat = plan.beat >= 1 && plan.beat <= 1_000_000_000;
    let are_workers = plan.workers >= 1 && plan.workers <= MAX_WORKERS;
    let is_short = text.len() <= MAX_CODE_BYTES as usize;
    if !(is_beat && are_workers && is_short && plan.forks <= MAX_FORKS) {
        return Ok(End::Refused);
    }
    let Ok(code) = assemble(alloc, text) else {
        return Ok(End::Refused);
    };
    match verify(alloc, code) {
        Ok(safe) => ran(alloc, &safe, plan),
        Err(_) => Ok(End::Refused),
    }
}

/// The name of a fault that accepted code may be stuck by.
fn name_of(fault: Fault) -> &'static str {
    match fault {
        Fault::DivZero => "DivZero",
        Fault::NotHeld => "NotHeld",
        Fault::Made => "Made",
        _ => "wrong",
    }
}

/// Tells what a run of a code text comes to.
pub fn tried(rt: &HostRuntime, text: &[u8], plan: Plan) -> io::Result<ExitCode> {
    match end_of(rt.alloc(), text, plan) {
        Ok(End::Refused) => println!(rt; "refused")?,
        Ok(End::Outcome) => println!(rt; "outcome")?,
        Ok(End::RunsOn) => println!(rt; "runs on")?,
        Ok(End::Stuck(fault)) => {
            let name = name_of(fault);
            println!(rt; "stuck {name}")?;
        }
        Err(NoMemory) => return Ok(ExitCode::from(4)),
    }
    Ok(ExitCode::SUCCESS)
}
