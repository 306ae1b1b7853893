// A fork, and what its two sides hand over.

ghost use Rattle.std.specs.Prelude.{IfSome};
ghost use Rattle.tpal_machine.specs.Belonging.{RunsOn};

use crate::codes::{BARE, CALL, CELLS, Joint, ROWS, code_of, tables_of};
use crate::instructions::{MARK, ONE_CELL, TO_HEAD, load, number_at, set};
use crate::runs::PROMPT;
use std::process::Abort;
use std::test::Fail;
use tp_value::{NoMemory, Stop};
use tpal_machine::{End, Rest, Side, Task, Turn, answer, run_task};
use tpal_syntax::{Code, Instr, Term, Word};

// The left, the rest and the child of the first fork that a task comes to, in so many turns.
fn forked(task: Task, code: &Code, turns: u8) -> Option<(Task, Rest, Task)>
    requires { RunsOn code.now task }
    ensures left { IfSome result (λ parts. RunsOn code.now parts.0) }
    ensures child { IfSome result (λ parts. RunsOn code.now parts.2) }
{
    if turns == 0 {
        return None;
    }
    match run_task(task, code, PROMPT, 100).turn {
        Turn::Pause(next) => forked(next, code, turns - 1),
        Turn::NeedRecord(waits) => forked(answer(waits, Some(7)), code, turns - 1),
        Turn::Forked {
            left,
            rest,
            child,
            rec: _,
        } => Some((left, rest, child)),
        Turn::Stuck {
            fault: _,
            block: _,
            at: _,
        }
        | Turn::Arrived {
            rec: _,
            side: _,
            out: _,
        }
        | Turn::Halted(_)
        | Turn::NoMemory => None,
    }
}

// What a task arrives with in one turn.
fn arrived(task: Task, code: &Code) -> Option<Side>
    requires { RunsOn code.now task }
{
    match run_task(task, code, PROMPT, 100).turn {
        Turn::Arrived {
            rec: _,
            side: _,
            out,
        } => Some(out),
        Turn::Pause(_)
        | Turn::NeedRecord(_)
        | Turn::Forked {
            left: _,
            rest: _,
            child: _,
            rec: _,
        }
        | Turn::Stuck {
            fault: _,
            block: _,
            at: _,
        }
        | Turn::Halted(_)
        | Turn::NoMemory => None,
    }
}

// What both sides of the first fork of a code with this main and this side hand over at its join,
// left then right.
fn sides<R: Abort + AllocGlobal>(
    rt: &R,
    joint: Joint<'_>,
    main: &[Instr],
    side: &[Instr],
) -> Result<Option<(Side, Side)>, NoMemory> {
    sides_of(rt, joint, main, (side, Term::Join(4)))
}

// The same where the child's block has this end.
fn sides_of<R: Abort + AllocGlobal>(
    rt: &R,
    joint: Joint<'_>,
    main: &[Instr],
    side: (&[Instr], Term),
) -> Result<Option<(Side, Side)>, NoMemory> {
    let alloc = rt.alloc();
    let made = code_of(alloc, joint, (main, TO_HEAD), side)?;
    let code = made.expect(rt, "a code");
    let task = Task::first(alloc, &code, tables_of(alloc)?, 100)?;
    let Some((left, rest, child)) = forked(task, &code, 3) else {
        return Ok(None);
    };
    if rest.end() != End::Root {
        return Ok(None);
    }
    match (arrived(left, &code), arrived(child, &code)) {
        (Some(lower), Some(upper)) => Ok(Some((lower, upper))),
        (None, _) | (_, None) => Ok(None),
    }
}

// The word of the register that the join's renaming takes from a side.
fn word(side: &Side) -> Option<Word> {
    match side.words.items().first() {
        Some((_, word)) => Some(*word),
        None => None,
    }
}

// What a side hands over of the first table, row by row.
fn cells(side: &Side) -> [Option<i64>; 4] {
    match side.slices.items().first() {
        Some((_, held)) => [
            held.fetch(0, 0),
            held.fetch(0, 1),
            held.fetch(1, 0),
            held.fetch(1, 1),
        ],
        None => [None; 4],
    }
}

const fn put(row: u8, col: u8) -> Instr {
    Instr::Put {
        table: 0,
        row,
        col,
        value: 1,
    }
}

#[test]
fn rows_are_cut_and_handed_over(rt: HostRuntime) -> Result<(), Fail> {
    let main = [set(1, 10), set(3, 1), ONE_CELL, MARK];
    let side = [set(1, 20), put(3, 31)];
    let (left, right) = sides(&rt, ROWS, &main, &side)?.expect(&rt, "two sides");
    assert_eq!(rt; word(&left), Some(Word::Int(10)));
    assert_eq!(rt; cells(&left), [Some(1), Some(2), None, None]);
    assert_eq!(rt; word(&right), Some(Word::Int(20)));
    assert_eq!(rt; cells(&right), [None, None, Some(20), Some(4)]);
    Ok(())
}

// Row 1 is cut at column 1; the rest keeps row 0.
#[test]
fn cells_of_a_row_are_cut_and_handed_over(rt: HostRuntime) -> Result<(), Fail> {
    let main = [set(1, 10), set(3, 1), set(5, 1), ONE_CELL, MARK];
    let side = [set(1, 20), put(3, 5)];
    let (left, right) = sides(&rt, CELLS, &main, &side)?.expect(&rt, "two sides");
    assert_eq!(rt; cells(&left), [None, None, Some(3), None]);
    assert_eq!(rt; cells(&right), [None, None, None, Some(20)]);
    Ok(())
}

// A mark's activation begins at cell 1, and its second call is the child's: the child has cell 1
// alone, to which its register 31 points, and the left the cells above.
#[test]
fn a_call_is_cut(rt: HostRuntime) -> Result<(), Fail> {
    let mark = Instr::PrmPush {
        base: 6,
        off: 0,
        cells: 1,
        split: 1,
    };
    let main = [
        set(1, 10),
        set(6, 1),
        Instr::Salloc(3),
        number_at(0, 7),
        number_at(1, 8),
        number_at(2, 9),
        mark,
    ];
    let (left, right) = sides(&rt, CALL, &main, &[load(1, 0)])?.expect(&rt, "two sides");
    assert_eq!(rt; word(&left), Some(Word::Int(10)));
    assert_eq!(rt; word(&right), Some(Word::Int(8)));
    assert!(rt; sides(&rt, CALL, &main, &[load(1, 1)])?.is_none());
    Ok(())
}

// The left prints nothing and the child 2; what was printed before stays with the rest.
#[test]
fn two_sides_may_hand_nothing_over(rt: HostRuntime) -> Result<(), Fail> {
    let main = [set(1, 1), Instr::Print(1), ONE_CELL, MARK];
    let side = [set(1, 2), Instr::Print(1)];
    let (left, right) = sides(&rt, BARE, &main, &side)?.expect(&rt, "two sides");
    assert_eq!(rt; left.output.items(), b"".as_slice());
    assert_eq!(rt; right.output.items(), b"2\n".as_slice());
    assert!(rt; left.words.items().is_empty() && right.words.items().is_empty());
    assert!(rt; left.slices.items().is_empty() && right.slices.items().is_empty());
    Ok(())
}

// The child is left with what is in register 5: it hands over what it printed and no more.
#[test]
fn a_side_that_is_left_hands_nothing_over(rt: HostRuntime) -> Result<(), Fail> {
    let main = [set(3, 1), ONE_CELL, MARK];
    let side = [set(1, 2), set(5, -7), Instr::Print(1)];
    let end = Term::Leave { rec: 4, value: 5 };
    let both = sides_of(&rt, ROWS, &main, (&side, end))?;
    let (left, right) = both.expect(&rt, "two sides");
    assert_eq!(rt; left.stop, Stop::Done);
    assert_eq!(rt; right.stop, Stop::Left(-7));
    assert_eq!(rt; right.output.items(), b"2\n".as_slice());
    assert!(rt; right.words.items().is_empty() && right.slices.items().is_empty());
    Ok(())
}
