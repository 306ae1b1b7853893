// Laws of codes that meet the rules: of one step, and of accepted code over every list of events.
// The functions do nothing: their contracts are the laws.

ghost use Rattle.std.specs.Prelude.{ℕ, ◌*◌, ◌≡◌, ◌≢◌, ◌<◌, ◌≤◌, Bool, List, length};
ghost use Rattle.schedule_core.specs.Core as core;
ghost use Rattle.schedule_core.specs.Core.{top, AnyFree, first};
ghost use Rattle.schedule_core.specs.Run.{CoreRun};
ghost use Rattle.schedule_core.specs.Sound.{Sound};
ghost use Rattle.schedule_core.specs.Tasks.{tasks};
ghost use Rattle.slices.specs.Holding.{Holding};
ghost use Rattle.tpal_machine.specs.declared.ends.Ending.{Ending};
ghost use Rattle.tpal_machine.specs.declared.faults.Fault.{Fault};
ghost use Rattle.tpal_machine.specs.Belonging.{RunsOn};
ghost use Rattle.tpal_machine.specs.RestState.{RestState};
ghost use Rattle.tpal_machine.specs.State.{State, first_state};
ghost use Rattle.tpal_machine.specs.Step.{Stuck, step};
ghost use Rattle.tpal_verify.specs.Breaks.{MeetsRules};
ghost use Rattle.tpal_verify.specs.Fits.{Knows, of_run, fitting};
ghost use Rattle.tpal_verify.specs.Flat.{ground_of};
ghost use Rattle.tpal_verify.specs.Rounds.{Shapes, least};
ghost use Rattle.tpal_verify.specs.Safe.{IsAllowed};

use crate::safe::SafeCode;
use tpal_syntax::Code;

/// The first task of a run holds what an assignment that meets the rules says of its place.
#[tactic(auto, using(crate::proofs::FirstTask::first_knows))]
pub fn first_task_knows(code: &Code)
    ensures { (shapes : Shapes) (held : List Holding) (fuel : ℕ)
        → MeetsRules code.now shapes
        → Knows code.now shapes (first_state held fuel) }
{
    let _blocks = code.blocks();
}

/// Where a task holds what such an assignment says of its place, its next step is stuck by a
/// division by zero, a cell that isn't held, or a table that may not be made, if at all.
#[tactic(auto, using(crate::proofs::FirstTask::stuck_by))]
pub fn stuck_by_allowed(code: &Code)
    ensures { (shapes : Shapes) (heartbeat : ℕ) (allowed : Bool) (state : State) (fault : Fault)
        → MeetsRules code.now shapes
        → Knows code.now shapes state
        → RunsOn code.now state
        → step code.now heartbeat allowed state ≡ Stuck fault
        → IsAllowed fault }
{
    let _blocks = code.blocks();
}

/// Over every list of events from the first configuration of an accepted code, with any free
/// records given or none and any number of workers, no running task's next step goes wrong: it is
/// stuck by a division by zero, a cell that isn't held, or a table that may not be made, if at all.
pub fn no_step_goes_wrong(safe: &SafeCode)
    ensures { (heartbeat forks records workers fuel : ℕ) (held : List Holding)
        (config : core.Config State RestState Ending) (events : List core.Event)
        (worker : ℕ) (task : State) (due allowed : Bool) (fault : Fault)
        → 0 < workers
        → workers * forks ≤ top
        → length held ≡ length safe.now.tables
        → CoreRun (tasks safe.now heartbeat) AnyFree forks records workers
        (first (first_state held fuel)) events config
        → config.seats worker ≡ core.running task due
        → step safe.now heartbeat allowed task ≡ Stuck fault
        → IsAllowed fault }
{
    let code = safe.code();
    let _blocks = code.blocks();
}

/// Every such configuration is sound, with what shapes promise: each live end has exactly one
/// holder, and who holds it keeps what is promised there; a taken or met record is in one hand; the
/// open records are in the order in which they were opened. As long as the count of instructions
/// isn't at its end, there are as many as the heartbeat for each task.
pub fn stays_sound(safe: &SafeCode)
    ensures sound { (heartbeat forks records workers fuel : ℕ) (held : List Holding)
        (config : core.Config State RestState Ending) (events : List core.Event)
        → 0 < workers
        → workers * forks ≤ top
        → length held ≡ length safe.now.tables
        → CoreRun (tasks safe.now heartbeat) AnyFree forks records workers
        (first (first_state held fuel)) events config
        → Sound (fitting safe.now (least (ground_of safe.now)) heartbeat) heartbeat forks records
        workers (of_run fuel held) config }
    ensures paid { (heartbeat forks records workers fuel : ℕ) (held : List Holding)
        (config : core.Config State RestState Ending) (events : List core.Event)
        → 0 < workers
        → workers * forks ≤ top
        → length held ≡ length safe.now.tables
        → CoreRun (tasks safe.now heartbeat) AnyFree forks records workers
        (first (first_state held fuel)) events config
        → config.instructions ≢ top
        → config.tasks * heartbeat ≤ config.instructions }
{
    let code = safe.code();
    let _blocks = code.blocks();
}
