// Laws of the solo run: it is one, and a list of events of the core.

ghost use Rattle.std.specs.Prelude.{◌≡◌, ◌+◌, ◌*◌, ◌≤◌, ℕ, false, List};
ghost use Rattle.slices.specs.Holding.{Holding};
ghost use Rattle.tp_value.specs.declared.values.Outcome.{Outcome};
ghost use Rattle.tpal_machine.specs.declared.ends.Ending.TheVariants as ending;
ghost use Rattle.tpal_machine.specs.Owes.{Owes};
ghost use Rattle.tpal_machine.specs.State.{State, first_state};
ghost use Rattle.schedule_core.specs.declared.lanes.Tally.{Tally};
ghost use Rattle.schedule_core.specs.Core.{top};
ghost use Rattle.schedule_core.specs.Sharing.{SharedRun};
ghost use Rattle.schedule_core.specs.Solo.{SoloRun};

use tpal_syntax::Code;

/// A task has at most one solo run.
pub fn one_solo_run(code: &Code)
    ensures { (heartbeat forks : ℕ) (task : State) (outcome other : Outcome) (tally later : Tally)
        → SoloRun code.now heartbeat forks task outcome tally
        → SoloRun code.now heartbeat forks task other later
        → (outcome ≡ other) × (tally ≡ later) }
{}

/// A solo run is a list of events of the core: of one worker with 64 records, of which a task that
/// asks is given the least free one, and the one that was opened last is claimed.
pub fn solo_run_of_events(code: &Code)
    ensures { (heartbeat forks fuel : ℕ) (held : List Holding) (out outcome : Outcome)
        (tally : Tally)
        → Owes code.now heartbeat false 0 (first_state held fuel) (ending.Root out)
        → SoloRun code.now heartbeat forks (first_state held fuel) outcome tally
        → SharedRun code.now heartbeat forks (first_state held fuel) outcome tally }
{
    let _blocks = code.blocks();
}

/// That list is one: where each claim is of the record that was opened last, of those whose child
/// nobody has claimed, and each task that asks is given the least free record, one worker's events
/// from a first task to an outcome, and what they come to, can't be others.
pub fn one_list_of_events(code: &Code)
    ensures { (heartbeat forks fuel : ℕ) (held : List Holding) (out outcome other : Outcome)
        (tally later : Tally)
        → forks * heartbeat ≤ top
        → forks ≤ top
        → Owes code.now heartbeat false 0 (first_state held fuel) (ending.Root out)
        → (one : SharedRun code.now heartbeat forks (first_state held fuel) outcome tally)
        (two : SharedRun code.now heartbeat forks (first_state held fuel) other later)
        → (one.events ≡ two.events) × (one.last ≡ two.last) }
{
    let _blocks = code.blocks();
}

/// At the end of a solo run each diversion made a task or was skipped, and so many instructions as
/// the heartbeat were executed for each task.
pub fn solo_run_counts(code: &Code)
    ensures { (heartbeat forks fuel : ℕ) (held : List Holding) (out outcome : Outcome)
        (tally : Tally)
        → forks * heartbeat ≤ top
        → forks ≤ top
        → Owes code.now heartbeat false 0 (first_state held fuel) (ending.Root out)
        → SharedRun code.now heartbeat forks (first_state held fuel) outcome tally
        → (tally.tasks + tally.skipped ≡ tally.beats)
        × (tally.tasks * heartbeat ≤ tally.instructions) }
{
    let _blocks = code.blocks();
}
