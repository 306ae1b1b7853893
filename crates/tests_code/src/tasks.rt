// How many tasks compiled programs make where each beat may make one: with a heartbeat of one
// instruction, and a free record at each question.
//
// What a part of a loop does then follows from its code alone, whoever runs it and when. It runs
// its first iteration, and comes to a promotion point before each later one. There it is diverted,
// once: the handler goes back to that point, which lets it pass. Of the m iterations that aren't
// begun the child gets the half, rounded up. The left runs one of its m / 2, where it has one, and
// so comes to its next point with m / 2 - 1. Let f(n) be the tasks that a part of n iterations
// makes, and g(m) those from a point on at which m aren't begun:
//
//     f(n) = g(n - 1)    g(m) = 1 + f(m - m / 2) + g(m / 2 - 1)    g(0) = g(-1) = 0
//
// So g(1) = g(2) = 1, g(3) = 2, g(6) = 1 + f(3) + g(2) = 3, g(7) = 1 + f(4) + g(2) = 4,
// g(14) = 1 + f(7) + g(6) = 7, g(15) = 1 + f(8) + g(6) = 8, g(30) = 1 + f(15) + g(14) = 15,
// g(31) = 1 + f(16) + g(14) = 16 and g(63) = 1 + f(32) + g(30) = 32: a loop of 64 iterations makes
// 32 tasks. Each `both` has a promotion point of its own, in front of its first call, and makes
// one.

ghost use Rattle.code_laws.specs.Owing.{OwesMeaning};

use crate::compiling::{Compiled, compile, held};
use crate::orders::{Plan, end_of};
use schedule_core::{Job, Report, solo_run};
use std::alloc::Global;
use std::test::Fail;
use tp_value::{Items, MAX_FORKS};

/// A leaf loop.
const LEAF: &[u8] =
    b"main { let s = 0; par i in 0..64 reduce s by add { fold s with i; } print s; }";

/// A quiet loop that is no leaf loop, since it has five reductions.
const QUIET: &[u8] = b"main {
    let a = 0;
    let b = 1;
    let c = 9;
    let d = 0;
    let e = 5;
    par i in 0..64 reduce a by add, b by mul, c by min, d by max, e by add {
        fold a with i;
        fold b with 1 - 2 * (i % 2);
        fold c with 3 - i;
        fold d with i;
        fold e with 1;
    }
    print a;
    print b;
    print c;
    print d;
    print e;
}";

/// A deep loop. Its inner loops have one iteration, and so no promotion point is entered in them.
const DEEP: &[u8] = b"main {
    let s = 0;
    par i in 0..64 reduce s by add { par j in 0..1 reduce s by add { fold s with i + j; } }
    print s;
}";

/// Pairs of calls, one after the other.
const PAIRS: &[u8] = b"fn f(n) { return n; }
main {
    let s = 0;
    loop k in 0..64 {
        let x = 0;
        let y = 0;
        both x = f(k), y = f(1);
        s = s + x + y;
    }
    print s;
}";

/// Pairs of calls within one another, of which 64 call no other.
const TREE: &[u8] = b"fn f(n) {
    let r = 1;
    if 0 < n {
        let a = 0;
        let b = 0;
        both a = f(n - 1), b = f(n - 1);
        r = a + b;
    }
    return r;
}
main { let x = 0; call x = f(6); print x; }";

// Programs with what each prints, and its tasks.
const ROWS: [(&[u8], &[u8], u64); 5] = [
    (LEAF, b"2016\n", 32),
    (QUIET, b"2016\n1\n-60\n63\n69\n", 32),
    (DEEP, b"2016\n", 32),
    (PAIRS, b"2080\n", 64),
    (TREE, b"64\n", 63),
];

/// The solo run of a program.
fn solo(alloc: Global, on: &Compiled) -> Result<Report, Fail>
    requires owes { OwesMeaning on.now.program on.now.code }
{
    let tables = held(alloc, on)?.ok_or("what is held")?;
    let job = Job {
        tables: Items::new(tables),
        fuel: 1_000_000,
        heartbeat: 1,
        workers: 1,
        forks: MAX_FORKS,
    };
    Ok(solo_run(alloc, &on.code, job)?)
}

#[test]
fn each_beat_of_a_solo_run_makes_a_task(rt: HostRuntime) -> Result<(), Fail> {
    for (source, output, tasks) in ROWS {
        let on = compile(rt.alloc(), source)?;
        let report = solo(rt.alloc(), &on)?;
        assert_eq!(&rt; report.outcome.output.items(), output);
        assert_eq!(&rt;
            (report.tasks, report.beats, report.skipped),
            (tasks, tasks, 0)
        );
    }
    Ok(())
}

// No more records are open at once than there are tasks, of which no row has more than a worker has
// records.
#[test]
fn in_each_order_of_events_each_beat_makes_a_task(rt: HostRuntime) -> Result<(), Fail> {
    for (source, _output, tasks) in ROWS {
        let on = compile(rt.alloc(), source)?;
        for (workers, seed) in [(1, 7), (2, 7), (3, 4_242)] {
            let plan = Plan {
                heartbeat: 1,
                workers,
            };
            let end = end_of(rt.alloc(), &on, plan, seed)?;
            assert_eq!(&rt;
                (end.tasks(), end.beats(), end.skipped()),
                (tasks, tasks, 0)
            );
        }
    }
    Ok(())
}
