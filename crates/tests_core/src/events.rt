// Codes run event by event.

ghost use Rattle.std.specs.Prelude.{◌≡◌, [], length, IfOk, IfSome};
ghost use Rattle.schedule_core.specs.Apply.{Belongs};
ghost use Rattle.schedule_core.specs.Standing.{stands};

use crate::codes::five;
use schedule_core::{ApplyFault, Config, Event, Job, apply};
use std::alloc::Global;
use std::test::Fail;
use sum_code::sum_below;
use tp_value::{Items, NoMemory};
use tpal_syntax::Code;

// The configuration after so many instructions of worker 0.
fn stepped(config: Config, code: &Code, times: u16) -> Option<Config>
    requires { Belongs code.now (stands config) }
    ensures { IfSome result (λ after. Belongs code.now (stands after)) }
{
    if times == 0 {
        return Some(config);
    }
    match apply(config, code, Event::Step(0)) {
        Ok(next) => stepped(next, code, times - 1),
        Err(_) => None,
    }
}

// What a run prints that halts after so many instructions of worker 0, with its instructions and
// tasks. An event that can't happen comes first, and changes nothing.
pub(crate) fn printed(
    alloc: Global,
    code: &Code,
    times: u16,
    expected: &[u8],
) -> Result<Option<(bool, u64, u64)>, NoMemory>
    requires { length code.now.tables ≡ 0 }
{
    let job = Job {
        tables: Items::new(Vec::new(alloc)),
        fuel: 1000,
        heartbeat: 1_000_000_000,
        workers: 2,
        forks: 1_000_000,
    };
    let first = Config::first(alloc, code, job)?;
    let same = match apply(first, code, Event::Finish(0)) {
        Err(ApplyFault::NotEnabled(same)) => same,
        Ok(_) | Err(ApplyFault::Stuck(_) | ApplyFault::NoMemory) => return Ok(None),
    };
    match stepped(same, code, times) {
        None => Ok(None),
        Some(last) => match apply(last, code, Event::Finish(0)) {
            Ok(end) => Ok(
                end.outcome().map(|outcome| {
                    (
                        outcome.output.items() == expected,
                        end.instructions(),
                        end.tasks(),
                    )
                }),
            ),
            Err(_) => Ok(None),
        },
    }
}

#[test]
fn codes_are_run_event_by_event(rt: HostRuntime) -> Result<(), Fail> {
    let alloc = rt.alloc();
    let short = five(alloc)?.expect(&rt, "a code");
    assert_eq!(rt; printed(alloc, &short, 4, b"5\n")?, Some((true, 4, 0)));
    let long = sum_below(alloc, 100)?.expect(&rt, "a code");
    assert_eq!(rt;
        printed(alloc, &long, 513, b"4950\n")?,
        Some((true, 513, 0))
    );
    Ok(())
}
