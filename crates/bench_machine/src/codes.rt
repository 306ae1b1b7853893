// Runs a code written by hand: the loads of `bench/machine.sh`. `sum` adds the squares of a table
// of 1000 by 1000 cells, `fib` calls itself on its stack.

ghost use Rattle.std.specs.Prelude.{◌≡◌, length, IfOk, IfSome};
ghost use Rattle.tpal_machine.specs.Belonging.{RunsOn};

use slices::Held;
use std::alloc::Global;
use std::io;
use std::io::Write;
use std::process::ExitCode;
use tp_value::{Items, NoMemory, Outcome};
use tpal_machine::{Pace, Task, Turn, run_task};
use tpal_syntax::{Alu, Block, Code, CodeTable, Instr, Note, Term, Value};

const SIDE: u32 = 1000;

const FIB: i64 = 24;

const PACE: Pace = Pace {
    heartbeat: 10_000,
    allowed: false,
};

const fn set(to: u8, value: Value) -> Instr {
    Instr::Move { to, value }
}

const fn calc(to: u8, left: u8, alu: Alu, right: Value) -> Instr {
    Instr::Calc {
        to,
        left,
        alu,
        right,
    }
}

const fn load(to: u8, off: u16) -> Instr {
    Instr::Load { to, base: 31, off }
}

const fn store(off: u16, value: Value) -> Instr {
    Instr::Store {
        base: 31,
        off,
        value,
    }
}

const fn to_block(label: u32) -> Term {
    Term::Jump(Value::Label(label))
}

fn block(alloc: Global, name: &[u8], body: &[Instr], term: Term) -> Result<Block, NoMemory> {
    Ok(Block {
        name: Items::new(Vec::from_slice(alloc, name)?),
        note: Note::Plain,
        body: Items::new(Vec::from_slice(alloc, body)?),
        term,
    })
}

// main: r0 is the sum, r1 the row, r3 and r4 the sizes
// row:  r2 is the column
// cell: one cell, and on to the next of the row
// next: the next row
fn sum_code(alloc: Global) -> Result<Option<Code>, NoMemory>
    ensures { IfOk result (λ made. IfSome made (λ code. length code.tables ≡ 1)) }
{
    let main = [
        set(0, Value::Int(0)),
        set(1, Value::Int(0)),
        Instr::Rows { to: 3, table: 0 },
        Instr::Cols { to: 4, table: 0 },
    ];
    let row = [
        calc(5, 3, Alu::Le, Value::Reg(1)),
        Instr::IfJump { test: 5, label: 4 },
        set(2, Value::Int(0)),
    ];
    let cell = [
        calc(5, 4, Alu::Le, Value::Reg(2)),
        Instr::IfJump { test: 5, label: 3 },
        Instr::Fetch {
            to: 6,
            table: 0,
            row: 1,
            col: 2,
        },
        calc(6, 6, Alu::Mul, Value::Reg(6)),
        calc(0, 0, Alu::Add, Value::Reg(6)),
        calc(2, 2, Alu::Add, Value::Int(1)),
    ];
    let next = [calc(1, 1, Alu::Add, Value::Int(1))];
    let end = [Instr::Print(0)];
    let mut tables = Vec::new(alloc);
    tables.push(CodeTable::Input(Items::new(Vec::from_slice(alloc, b"a")?)))?;
    let mut blocks = Vec::new(alloc);
    blocks.push(block(alloc, b"main", &main, to_block(1))?)?;
    blocks.push(block(alloc, b"row", &row, to_block(2))?)?;
    blocks.push(block(alloc, b"cell", &cell, to_block(2))?)?;
    blocks.push(block(alloc, b"next", &next, to_block(1))?)?;
    blocks.push(block(alloc, b"end", &end, Term::Halt)?)?;
    Code::new(alloc, tables, blocks)
}

// The function calls itself with the number before its own, where that is 2 or more.
const fn first_call() -> [Instr; 8] {
    [
        load(0, 1),
        calc(1, 0, Alu::Lt, Value::Int(2)),
        Instr::IfJump { test: 1, label: 2 },
        calc(1, 0, Alu::Sub, Value::Int(1)),
        Instr::Salloc(3),
        calc(31, 31, Alu::Add, Value::Int(3)),
        store(0, Value::Label(3)),
        store(1, Value::Reg(1)),
    ]
}

// It keeps what came of that, and calls itself with the number before that one.
const fn second_call() -> [Instr; 9] {
    [
        Instr::Sfree(3),
        calc(31, 31, Alu::Sub, Value::Int(3)),
        store(2, Value::Reg(0)),
        load(1, 1),
        calc(1, 1, Alu::Sub, Value::Int(2)),
        Instr::Salloc(3),
        calc(31, 31, Alu::Add, Value::Int(3)),
        store(0, Value::Label(4)),
        store(1, Value::Reg(1)),
    ]
}

// A call has three cells: where it returns to, its number, and the sum so far. r0 is the result.
fn fib_code(alloc: Global) -> Result<Option<Code>, NoMemory>
    ensures { IfOk result (λ made. IfSome made (λ code. length code.tables ≡ 0)) }
{
    let main = [
        Instr::Salloc(3),
        store(0, Value::Label(5)),
        store(1, Value::Int(FIB)),
    ];
    let leaf = [load(1, 0)];
    let second = [
        Instr::Sfree(3),
        calc(31, 31, Alu::Sub, Value::Int(3)),
        load(1, 2),
        calc(0, 0, Alu::Add, Value::Reg(1)),
        load(1, 0),
    ];
    let end = [Instr::Print(0)];
    let mut blocks = Vec::new(alloc);
    blocks.push(block(alloc, b"main", &main, to_block(1))?)?;
    blocks.push(block(alloc, b"fib", &first_call(), to_block(1))?)?;
    blocks.push(block(alloc, b"leaf", &leaf, Term::Jump(Value::Reg(1)))?)?;
    blocks.push(block(alloc, b"first", &second_call(), to_block(1))?)?;
    blocks.push(block(alloc, b"second", &second, Term::Jump(Value::Reg(1)))?)?;
    blocks.push(block(alloc, b"end", &end, Term::Halt)?)?;
    Code::new(alloc, Vec::new(alloc), blocks)
}

/// What a task printed that ends in one turn, and its steps.
fn ended(task: Task, code: &Code) -> Option<(u64, Outcome)>
    requires { RunsOn code.now task }
{
    let ran = run_task(task, code, PACE, u32::MAX);
    let steps = ran.steps;
    match ran.turn {
        Turn::Halted(outcome) => Some((steps, outcome)),
        Turn::Pause(_)
        | Turn::NeedRecord(_)
        | Turn::Forked {
            left: _,
            rest: _,
            child: _,
            rec: _,
        }
        | Turn::Arrived {
            rec: _,
            side: _,
            out: _,
        }
        | Turn::Stuck {
            fault: _,
            block: _,
            at: _,
        }
        | Turn::NoMemory => None,
    }
}

/// The owned table of so many rows and columns, of sevens.
fn sevens(alloc: Global, rows: u32, cols: u32) -> Result<Held, NoMemory> {
    let cells = Vec::from_elem(alloc, 7, rows as usize * cols as usize)?;
    Ok(Held::whole(rows, cols, cells))
}

/// What a code prints that ends in one turn, and its steps.
fn run_code(
    alloc: Global,
    code: &Code,
    tables: Vec<Held>,
) -> Result<Option<(u64, Outcome)>, NoMemory> {
    if tables.len() != code.tables().len() {
        return Ok(None);
    }
    let task = Task::first(alloc, code, tables, 0)?;
    Ok(ended(task, code))
}

/// The sum of the squares of a table of sevens.
fn sum(alloc: Global) -> Result<Option<(u64, Outcome)>, NoMemory> {
    match sum_code(alloc)? {
        None => Ok(None),
        Some(code) => {
            let mut tables = Vec::new(alloc);
            tables.push(sevens(alloc, SIDE, SIDE)?)?;
            run_code(alloc, &code, tables)
        }
    }
}

fn fib(alloc: Global) -> Result<Option<(u64, Outcome)>, NoMemory> {
    match fib_code(alloc)? {
        None => Ok(None),
        Some(code) => run_code(alloc, &code, Vec::new(alloc)),
    }
}

fn run_once(alloc: Global, name: &str) -> Result<Option<(u64, Outcome)>, NoMemory> {
    if name == "fib" {
        fib(alloc)
    } else {
        sum(alloc)
    }
}

/// The steps of so many runs, and what the last of them printed.
fn runs(alloc: Global, name: &str, times: u32) -> Result<(u64, Vec<u8>), NoMemory> {
    let mut steps: u64 = 0;
    let mut output = Vec::new(alloc);
    for _ in 0..times {
        if let Some((more, outcome)) = run_once(alloc, name)? {
            steps = steps.wrapping_add(more);
            output = outcome.output.into_vec();
        }
    }
    Ok((steps, output))
}

/// Writes what the last of so many runs printed, and the steps of all of them.
pub fn run(rt: &HostRuntime, name: &str, times: u32) -> io::Result<ExitCode> {
    match runs(rt.alloc(), name, times) {
        Ok((steps, output)) => {
            io::writer(rt).write_all(&output)?;
            println!(rt; "{steps}")?;
            Ok(ExitCode::SUCCESS)
        }
        Err(NoMemory) => Ok(ExitCode::FAILURE),
    }
}
