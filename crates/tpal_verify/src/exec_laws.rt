// Laws of a run by one worker. The functions do nothing: their contracts are the laws.

ghost use Rattle.std.specs.Prelude.{◌≡◌, ◌≤◌, ◌*◌, ℕ, Some, IsSome, List, [], ◌∷◌, length};
ghost use Rattle.slices.specs.Holding.{Holding};
ghost use Rattle.tp_value.specs.declared.limits.TheConstants.{MAX_FORKS};
ghost use Rattle.tp_value.specs.declared.values.Stop.TheVariants.{Done};
ghost use Rattle.tpal_machine.specs.declared.faults.Fault.TheVariants.{DivZero};
ghost use Rattle.tpal_verify.specs.declared.report.ExecEnd.TheVariants.{Ended, Spent, Stuck};
ghost use Rattle.tpal_machine.specs.State.{first_state};
ghost use Rattle.tpal_verify.specs.declared.report.ExecReport.{ExecReport};
ghost use Rattle.tpal_verify.specs.declared.report.TheConstants.{MAX_STEPS};
ghost use Rattle.tpal_verify.specs.Exec.{exec, ExecEvents, WhereStuck};
ghost use Rattle.tpal_verify.specs.Safe.{IsAllowed};
ghost use Rattle.tpal_verify.specs.Sample.{adds, counts, divides, loops};

use crate::safe::SafeCode;

/// What sample codes come to: with as many instructions as a run executes it is over, with fewer it
/// is spent; an instruction that is stuck isn't counted, and isn't told where none is left; a
/// handler may go back without asking for a record, and the task is diverted again.
pub fn exec_samples()
    ensures over { exec 4 adds 100 1 [] 1
        ≡ Some
        (record {
          «end» = Ended
              (record { stop = Done; output = 53 ∷ 10 ∷ []; ticks = 0 });
          tasks = 0;
          instructions = 4;
        }) }
    ensures spent { exec 3 adds 100 1 [] 1
        ≡ Some (record { «end» = Spent; tasks = 0; instructions = 3 }) }
    ensures nothing { exec 0 adds 100 1 [] 1
        ≡ Some (record { «end» = Spent; tasks = 0; instructions = 0 }) }
    ensures not_told { exec 1 divides 100 1 [] 1
        ≡ Some (record { «end» = Spent; tasks = 0; instructions = 1 }) }
    ensures stuck { exec 2 divides 100 1 [] 1
        ≡ Some (record { «end» = Stuck DivZero 0 1; tasks = 0; instructions = 1 }) }
    ensures diverted { exec 100 counts 5 2 [] 1
        ≡ Some
        (record {
          «end» = Ended
              (record { stop = Done; output = 49 ∷ 10 ∷ 50 ∷ 10 ∷ []; ticks = 0 });
          tasks = 0;
          instructions = 69;
        }) }
    ensures loops { exec 10 loops 100 1 [] 1
        ≡ Some (record { «end» = Spent; tasks = 0; instructions = 10 }) }
{}

/// A run of accepted code by one worker is told whatever it holds of its tables, and it is a list
/// of events of the core. Where it is stuck it is so by a division by zero, a cell that isn't held,
/// or a table that may not be made. As many instructions as the heartbeat were executed for each
/// task.
pub fn runs_are_told(code: &SafeCode)
    ensures told { (heartbeat forks fuel : ℕ) (held : List Holding) (steps : ℕ)
        → forks ≤ MAX_FORKS
        → length held ≡ length code.now.tables
        → steps ≤ MAX_STEPS
        → IsSome (exec steps code.now heartbeat forks held fuel) }
    ensures events { (heartbeat forks fuel : ℕ) (held : List Holding) (steps : ℕ)
        (report : ExecReport)
        → forks ≤ MAX_FORKS
        → length held ≡ length code.now.tables
        → steps ≤ MAX_STEPS
        → exec steps code.now heartbeat forks held fuel ≡ Some report
        → ExecEvents code.now heartbeat forks (first_state held fuel) report }
    ensures allowed { (heartbeat forks fuel : ℕ) (held : List Holding) (steps : ℕ)
        (report : ExecReport)
        → forks ≤ MAX_FORKS
        → length held ≡ length code.now.tables
        → steps ≤ MAX_STEPS
        → exec steps code.now heartbeat forks held fuel ≡ Some report
        → WhereStuck report.«end» IsAllowed }
    ensures paid { (heartbeat forks fuel : ℕ) (held : List Holding) (steps : ℕ)
        (report : ExecReport)
        → forks ≤ MAX_FORKS
        → length held ≡ length code.now.tables
        → steps ≤ MAX_STEPS
        → exec steps code.now heartbeat forks held fuel ≡ Some report
        → report.tasks * heartbeat ≤ report.instructions }
{
    let code = code.code();
    let _blocks = code.blocks();
}
