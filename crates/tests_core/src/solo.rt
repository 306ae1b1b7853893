// The solo run of a code.

ghost use Rattle.std.specs.Prelude.{◌≡◌, ◌≤◌};
ghost use Rattle.tp_value.specs.declared.limits.TheConstants.{MAX_BEAT, MAX_FORKS};
ghost use Rattle.tpal_machine.specs.Sample.{two_and_three};

use crate::codes::five;
use schedule_core::{Job, Report, solo_run};
use std::alloc::Global;
use std::test::Fail;
use tp_value::{Items, MAX_BEAT, MAX_FORKS, NoMemory, Stop};
use tpal_machine::laws::sum_owes;
use tpal_syntax::Code;

fn ran(alloc: Global, code: &Code, heartbeat: u64, forks: u32) -> Result<Report, NoMemory>
    requires code { code.now ≡ two_and_three }
    requires heartbeat { (1 ≤ heartbeat) × (heartbeat ≤ MAX_BEAT) }
    requires forks { forks ≤ MAX_FORKS }
{
    sum_owes(code);
    let job = Job {
        tables: Items::new(Vec::new(alloc)),
        fuel: 0,
        heartbeat,
        workers: 1,
        forks,
    };
    solo_run(alloc, code, job)
}

#[test]
fn two_and_three_are_five_alone(rt: HostRuntime) -> Result<(), Fail> {
    let alloc = rt.alloc();
    let code = five(alloc)?.expect(&rt, "a code");
    for (heartbeat, forks) in [(1, 0), (1, 1_000_000), (1_000_000_000, 3)] {
        let report = ran(alloc, &code, heartbeat, forks)?;
        assert_eq!(rt; report.outcome.stop, Stop::Done);
        assert!(rt; report.outcome.output.items() == b"5\n".as_slice());
        assert_eq!(rt; report.outcome.ticks, 0);
        assert_eq!(rt; (report.tasks, report.beats, report.skipped), (0, 0, 0));
        assert_eq!(rt; report.instructions, 4);
    }
    Ok(())
}
