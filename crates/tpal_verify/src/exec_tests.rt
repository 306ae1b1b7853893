// Runs of small codes by one worker.

ghost use Rattle.std.specs.Prelude.{◌≡◌, ◌≤◌, IfOk, IfSome, length};
ghost use Rattle.tp_value.specs.declared.limits.TheConstants.{MAX_BEAT, MAX_FORKS};
ghost use Rattle.tpal_verify.specs.declared.report.TheConstants.{MAX_STEPS};

use crate::tests::{JUMP_BACK, block, calc, if_jump, jump, mark, set};
use crate::{ExecEnd, ExecReport, SafeCode, exec_run, verify};
use schedule_core::Job;
use std::alloc::Global;
use std::test::Fail;
use tp_value::{Items, NoMemory};
use tpal_machine::Fault;
use tpal_syntax::{Alu, Block, Code, Instr, Note, Term, Value};

// The accepted code of the blocks.
fn accepted(alloc: Global, blocks: Vec<Block>) -> Result<Option<SafeCode>, NoMemory>
    ensures { IfOk result (λ made. IfSome made (λ code. length code.tables ≡ 0)) }
{
    match Code::new(alloc, Vec::new(alloc), blocks)? {
        None => Ok(None),
        Some(code) => match verify(alloc, code) {
            Ok(safe) => Ok(Some(safe)),
            Err(_) => Ok(None),
        },
    }
}

fn ran(
    alloc: Global,
    code: &SafeCode,
    heartbeat: u64,
    forks: u32,
    steps: u64,
) -> Result<ExecReport, NoMemory>
    requires tables { length code.now.tables ≡ 0 }
    requires heartbeat { (1 ≤ heartbeat) × (heartbeat ≤ MAX_BEAT) }
    requires forks { forks ≤ MAX_FORKS }
    requires steps { steps ≤ MAX_STEPS }
{
    let job = Job {
        tables: Items::new(Vec::new(alloc)),
        fuel: 1,
        heartbeat,
        workers: 1,
        forks,
    };
    exec_run(alloc, code, job, steps)
}

// What is told, in one line: what was printed, or nothing and the fault.
fn told(end: &ExecEnd) -> (&[u8], Option<(Fault, u32, u32)>) {
    match end {
        ExecEnd::Ended(outcome) => (outcome.output.items(), None),
        ExecEnd::Spent => (b"spent", None),
        ExecEnd::Stuck { fault, block, at } => (b"stuck", Some((*fault, *block, *at))),
    }
}

// A count to 20: the handler prints how far it is and goes back without asking for a record. A task
// is diverted each time that its count is full, however many turns that takes.
#[test]
fn handlers_that_ask_for_no_record(rt: HostRuntime) -> Result<(), Fail> {
    let alloc = rt.alloc();
    let main = [Instr::Salloc(1), set(0, 0), mark(1, 2)];
    let round = [
        calc(0, 0, Alu::Add, Value::Int(1)),
        calc(1, 0, Alu::Lt, Value::Int(20)),
        if_jump(1, 1),
    ];
    let mut blocks = Vec::new(alloc);
    blocks.push(block(alloc, b'a', Note::Plain, &main, jump(1))?)?;
    blocks.push(block(alloc, b'b', Note::Ready(2), &round, Term::Halt)?)?;
    blocks.push(block(alloc, b'c', Note::Plain, &[Instr::Print(0)], JUMP_BACK)?)?;
    let code = accepted(alloc, blocks)?.expect(&rt, "accepted code");
    let all = b"1\n2\n3\n4\n5\n6\n7\n8\n9\n10\n11\n12\n13\n14\n15\n16\n17\n18\n19\n".as_slice();
    for (forks, wanted) in [
        (1_000_000, all),
        (2, b"1\n2\n".as_slice()),
        (0, b"".as_slice()),
    ] {
        let report = ran(alloc, &code, 5, forks, 1000)?;
        assert!(rt; told(&report.end).0 == wanted);
        assert_eq!(rt; report.tasks, 0);
    }
    Ok(())
}

// A division by zero is told where an instruction is left for it.
#[test]
fn stuck_instructions_are_not_executed(rt: HostRuntime) -> Result<(), Fail> {
    let alloc = rt.alloc();
    let main = [set(0, 1), calc(0, 0, Alu::Div, Value::Int(0))];
    let mut blocks = Vec::new(alloc);
    blocks.push(block(alloc, b'a', Note::Plain, &main, Term::Halt)?)?;
    let code = accepted(alloc, blocks)?.expect(&rt, "accepted code");
    let spent = ran(alloc, &code, 100, 1, 1)?;
    assert!(rt; told(&spent.end).0 == b"spent".as_slice());
    assert_eq!(rt; spent.instructions, 1);
    let stuck = ran(alloc, &code, 100, 1, 2)?;
    assert_eq!(rt; told(&stuck.end).1, Some((Fault::DivZero, 0, 1)));
    assert_eq!(rt; stuck.instructions, 1);
    Ok(())
}
