// Laws of lists of events. The functions do nothing: their contracts are the laws, for those who
// reason about other ways to run the tasks of a code.

ghost use Rattle.std.specs.Prelude.{ℕ, ◌*◌, ◌≡◌, ◌<◌, ◌≤◌, ◌^◌, Bool, false, List, Some};
ghost use Rattle.slices.specs.Holding.{Holding};
ghost use Rattle.tpal_machine.specs.declared.ends.Ending.{Ending};
ghost use Rattle.tpal_machine.specs.Owes.{Owes};
ghost use Rattle.tpal_machine.specs.RestState.{RestState};
ghost use Rattle.tpal_machine.specs.State.{State, first_state};
ghost use Rattle.schedule_core.specs.Apply.{SidesFit, IsSound};
ghost use Rattle.schedule_core.specs.Core as core;
ghost use Rattle.schedule_core.specs.Core.{top, AnyFree, CoreStep, first};
ghost use Rattle.schedule_core.specs.Machine as machine;
ghost use Rattle.schedule_core.specs.Run.{CoreRun, Finished, Arrivals, counted_in};
ghost use Rattle.schedule_core.specs.Sound.{Sound};
ghost use Rattle.schedule_core.specs.Tasks.{tasks};

use crate::applying::known;
use crate::config::Config;
use crate::event::Event;
use tpal_syntax::Code;

/// The first configuration is sound for what its first task owes.
#[tactic(auto, using(crate::proofs::Ruling::begins_sound))]
pub fn first_sound(code: &Code)
    ensures { (heartbeat forks records workers : ℕ) (held : List Holding) (fuel : ℕ) (out : Ending)
        → 0 < workers
        → Owes code.now heartbeat false 0 (first_state held fuel) out
        → Sound (tasks code.now heartbeat) heartbeat forks records workers out
        (first (first_state held fuel)) }
{}

/// Every event keeps soundness, whichever free record a task that asks for one is given, and also
/// where it is given none.
#[tactic(auto, using(crate::proofs::Ruling::event_sound))]
pub fn every_event(code: &Code)
    ensures { (heartbeat forks records workers : ℕ) (out : Ending)
        (config next : core.Config State RestState Ending) (event : core.Event)
        → records ≤ 2 ^ 32
        → workers * forks ≤ top
        → Sound (tasks code.now heartbeat) heartbeat forks records workers out config
        → CoreStep (tasks code.now heartbeat) AnyFree forks records workers config event next
        → Sound (tasks code.now heartbeat) heartbeat forks records workers out next }
{
    let _blocks = code.blocks();
}

/// So does every list of events.
#[tactic(auto, using(crate::proofs::Ruling::run_sound))]
pub fn every_run(code: &Code)
    ensures { (heartbeat forks records workers : ℕ) (out : Ending)
        (config last : core.Config State RestState Ending) (events : List core.Event)
        → records ≤ 2 ^ 32
        → workers * forks ≤ top
        → Sound (tasks code.now heartbeat) heartbeat forks records workers out config
        → CoreRun (tasks code.now heartbeat) AnyFree forks records workers config events last
        → Sound (tasks code.now heartbeat) heartbeat forks records workers out last }
{
    let _blocks = code.blocks();
}

/// On a sound configuration no running task's next instruction is stuck.
#[tactic(auto, using(crate::proofs::Ruling::not_stuck))]
pub fn never_stuck(code: &Code)
    ensures { (heartbeat forks records workers w : ℕ) (out : Ending)
        (config : core.Config State RestState Ending) (task : State) (due allowed : Bool)
        → records ≤ 2 ^ 32
        → workers * forks ≤ top
        → Sound (tasks code.now heartbeat) heartbeat forks records workers out config
        → config.seats w ≡ core.running task due
        → (tasks code.now heartbeat).turn allowed task ≡ machine.Stuck
        → ⊥ }
{
    let _blocks = code.blocks();
}

/// A finished root of a sound configuration has exactly the owed outcome. No record is open then,
/// no worker has anything, each beat made a task or was skipped, and the instructions pay for the
/// tasks.
#[tactic(auto, using(crate::proofs::Ruling::ends_owed))]
pub fn finished(code: &Code)
    ensures { (heartbeat forks records workers : ℕ) (out e : Ending)
        (config : core.Config State RestState Ending)
        → workers * forks * heartbeat ≤ top
        → Sound (tasks code.now heartbeat) heartbeat forks records workers out config
        → config.outcome ≡ Some e
        → Finished heartbeat workers out e config }
{}

/// Whatever a list of events from the first configuration is, of any number of workers and with any
/// free records given or none: once it has finished the root, the outcome is the one that the first
/// task owes, no record is open, no worker has anything, each beat made a task or was skipped, and
/// the instructions pay for the tasks.
pub fn one_outcome(code: &Code)
    ensures { (heartbeat forks records workers fuel : ℕ) (held : List Holding) (out e : Ending)
        (last : core.Config State RestState Ending) (events : List core.Event)
        → records ≤ 2 ^ 32
        → workers * forks ≤ top
        → workers * forks * heartbeat ≤ top
        → 0 < workers
        → Owes code.now heartbeat false 0 (first_state held fuel) out
        → CoreRun (tasks code.now heartbeat) AnyFree forks records workers
        (first (first_state held fuel)) events last
        → last.outcome ≡ Some e
        → Finished heartbeat workers out e last }
{
    let _blocks = code.blocks();
}

/// Over every list of events from the first configuration, a record that both sides have met has
/// had one left and one right arrival since it was opened.
#[tactic(auto, using(crate::proofs::Ruling::met_once))]
pub fn arrives_once(code: &Code)
    ensures { (heartbeat forks records workers : ℕ)
        → records ≤ 2 ^ 32
        → workers * forks ≤ top
        → (held : List Holding) (fuel : ℕ) (out : Ending)
        → 0 < workers
        → Owes code.now heartbeat false 0 (first_state held fuel) out
        → (last : core.Config State RestState Ending) (events : List core.Event)
        (run : CoreRun (tasks code.now heartbeat) AnyFree forks records workers
        (first (first_state held fuel)) events last)
        (seen : Arrivals) (k w : ℕ) (rest : RestState) (p q : Ending)
        → last.cells k ≡ core.met w rest p q
        → counted_in (tasks code.now heartbeat) AnyFree forks records workers run seen k ≡ (1, 1) }
{
    let _blocks = code.blocks();
}

/// On a sound configuration the two sides of a record that is freed are those of its rest's record.
pub fn sides_fit(config: &Config, code: &Code, event: Event)
    ensures { (out : Ending)
        → IsSound code.now config.now out
        → SidesFit code.now config.now event }
{
    let _blocks = code.blocks();
    known(config);
}
