// Marks a thousand cells of a stack and takes the marks away, the oldest first, or cuts a stack of
// 100,000 cells with 1,000 marks at its lowest activation: the loads of `bench/stack.sh`.

use stack_marks::{Mark, Stack, StackFault};
use std::alloc::Global;
use std::io;
use std::process::ExitCode;
use tpal_syntax::{CutKind, Word};

const CELLS: u32 = 100_000;

/// An activation of a hundred cells for each mark, with the mark on its fourth cell.
const MARKS: u32 = 1000;

const ACTIVATION: u32 = 100;

fn position(activation: u32) -> i64 {
    i64::from(activation)
        .saturating_mul(i64::from(ACTIVATION))
        .saturating_add(3)
}

fn mark_all(stack: &mut Stack) -> Result<(), StackFault> {
    for activation in 0..MARKS {
        let base = u64::from(activation).saturating_mul(u64::from(ACTIVATION));
        stack.mark(Mark {
            at: base.saturating_add(3),
            base,
            cells: u64::from(ACTIVATION),
            split: activation,
        })?;
    }
    Ok(())
}

fn unmark_all(stack: &mut Stack) -> Result<(), StackFault> {
    for activation in 0..MARKS {
        stack.unmark(position(activation))?;
    }
    Ok(())
}

/// A thousand marks set and taken away, each below all that are left.
fn marks(mut stack: Stack, times: u32) -> Result<i64, StackFault> {
    for _ in 0..times {
        mark_all(&mut stack)?;
        unmark_all(&mut stack)?;
    }
    Ok(number_at(&stack, 3))
}

/// A cut at the lowest activation, as of a loop, and again what the left goes on with.
fn cuts(mut stack: Stack, times: u32) -> Result<i64, StackFault> {
    mark_all(&mut stack)?;
    for _ in 0..times {
        match stack.cut(0, u64::from(ACTIVATION), CutKind::Loop) {
            Ok(cut) => stack = cut.left,
            Err((_, fault)) => return Err(fault),
        }
    }
    Ok(number_at(&stack, position(MARKS - 1)))
}

fn number_at(stack: &Stack, at: i64) -> i64 {
    match stack.get(at) {
        Ok(Word::Int(number)) => number,
        Ok(Word::Label(_) | Word::Rec(_) | Word::Nil) | Err(_) => 0,
    }
}

fn load(alloc: Global, name: &str, times: u32) -> Result<i64, StackFault> {
    let mut stack = Stack::new(alloc, 0);
    stack.push(CELLS)?;
    stack.set(3, Word::Int(7))?;
    stack.set(position(MARKS - 1), Word::Int(8))?;
    if name == "cuts" {
        return cuts(stack, times);
    }
    marks(stack, times)
}

/// Writes what so many rounds of the load come to.
pub fn run(rt: &HostRuntime, name: &str, times: u32) -> io::Result<ExitCode> {
    match load(rt.alloc(), name, times) {
        Ok(sum) => {
            println!(rt; "{sum}")?;
            Ok(ExitCode::SUCCESS)
        }
        Err(_) => Ok(ExitCode::FAILURE),
    }
}
