// Compiles source programs, and runs each in one turn in which nothing is diverted.

ghost use Rattle.std.specs.Prelude.{◌≡◌, length, IfOk};

use block_lower::{lower, program_is_built};
use loop_check::{Checked, check};
use loop_lex::lex;
use loop_parse::parse;
use loop_rules::resolve;
use slices::Held;
use std::alloc::Global;
use std::io;
use tp_value::{NoMemory, Outcome, Stop};
use tpal_machine::{Pace, Task, Turn, run_task};
use tpal_syntax::{Code, CodeTable};

const PACE: Pace = Pace {
    heartbeat: 1_000_000_000,
    allowed: false,
};

const FUEL: u64 = 1_000_000_000;

/// The names of the programs, and their sources.
const PROGRAMS: [(&str, &str); 8] = [
    (
        "fib by both",
        "fn fib(n) {
           let r = n;
           if n > 1 {
             let a = 0;
             let b = 0;
             both a = fib(n - 1), b = fib(n - 2);
             r = a + b;
           }
           return r;
         }
         main { let f = 0; call f = fib(20); print f; }",
    ),
    (
        "fib by calls",
        "fn fib(n) {
           let r = n;
           if n > 1 {
             let a = 0;
             let b = 0;
             call a = fib(n - 1);
             call b = fib(n - 2);
             r = a + b;
           }
           return r;
         }
         main { let f = 0; call f = fib(20); print f; }",
    ),
    (
        "sum of squares",
        "table t[100][100];
         main {
           let s = 0;
           par i in 0..rows(t) reduce s by add {
             par j in 0..cols(t) reduce s by add { fold s with t[i][j] * t[i][j]; }
           }
           print s;
         }",
    ),
    (
        "nested loops",
        "main {
           let s = 0;
           loop i in 0..1000 { loop j in 0..100 { s = s + i * j; } }
           print s;
         }",
    ),
    (
        "while",
        "main { let n = 100000; while n { n = n - 1; } print n; }",
    ),
    (
        "chain of calls",
        "fn down(n) {
           let r = n;
           if n > 1 { call r = down(n - 1); }
           return r;
         }
         main { let d = 0; call d = down(10000); print d; }",
    ),
    (
        "par with fold",
        "main {
           let s = 0;
           par i in 0..100000 reduce s by add { fold s with i; }
           print s;
         }",
    ),
    (
        "row-carried writes",
        "table t[10000][2];
         main {
           par i in 0..rows(t) carry t[i] { t[i][0] = i; t[i][1] = i * i; }
         }",
    ),
];

/// What a run took that was done.
#[derive(Clone, Copy)]
struct Cost {
    instructions: u64,
    ticks: u64,
}

fn checked(alloc: Global, source: &[u8]) -> Option<Checked> {
    if source.len() > 1_048_576 {
        return None;
    }
    let Ok(tokens) = lex(alloc, source) else {
        return None;
    };
    let Ok(program) = parse(alloc, source, &tokens) else {
        return None;
    };
    let Ok(resolved) = resolve(alloc, program) else {
        return None;
    };
    match check(alloc, resolved) {
        Ok(program) => Some(program),
        Err(_fault) => None,
    }
}

/// What is held of the tables of a code before they are made.
fn held(alloc: Global, tables: &[CodeTable]) -> Result<Vec<Held>, NoMemory>
    ensures { IfOk result (λ all. length all.items ≡ length tables.now) }
{
    let mut all = Vec::new(alloc);
    for _ in tables {
        all.push(Held::none(alloc, 0, 0))?;
    }
    Ok(all)
}

/// The instructions of a turn that halts, and its outcome.
fn halted(alloc: Global, code: &Code) -> Result<Option<(u64, Outcome)>, NoMemory> {
    let tables = held(alloc, code.tables())?;
    let task = Task::first(alloc, code, tables, FUEL)?;
    let ran = run_task(task, code, PACE, u32::MAX);
    let instructions = ran.steps;
    match ran.turn {
        Turn::Halted(outcome) => Ok(Some((instructions, outcome))),
        Turn::Pause(_)
        | Turn::NeedRecord(_)
        | Turn::Forked {
            left: _,
            rest: _,
            child: _,
            rec: _,
        }
        | Turn::Arrived {
            rec: _,
            side: _,
            out: _,
        }
        | Turn::Stuck {
            fault: _,
            block: _,
            at: _,
        }
        | Turn::NoMemory => Ok(None),
    }
}

/// What the run of a source takes, where it is a program and its run is done in one turn.
fn cost_of(alloc: Global, source: &[u8]) -> Option<Cost> {
    let program = checked(alloc, source)?;
    if !program_is_built(&program) {
        return None;
    }
    let Ok(code) = lower(alloc, &program) else {
        return None;
    };
    let Ok(Some((instructions, outcome))) = halted(alloc, &code) else {
        return None;
    };
    if outcome.stop == Stop::Done {
        Some(Cost {
            instructions,
            ticks: outcome.ticks,
        })
    } else {
        None
    }
}

/// Prints how many instructions each program took and how many ticks it counted. The programs read
/// no input, so what is printed is always the same: a change of a code's length shows here,
/// whatever the machine that it runs on.
pub fn run(rt: &HostRuntime) -> io::Result<()> {
    for (name, source) in PROGRAMS {
        match cost_of(rt.alloc(), source.as_bytes()) {
            Some(
                Cost {
                    instructions,
                    ticks,
                },
            ) => println!(rt; "{name} {instructions} instructions, {ticks} ticks")?,
            None => println!(rt; "{name} not ended")?,
        }
    }
    Ok(())
}
