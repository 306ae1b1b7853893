// A code that has each instruction, note, renaming and carry once, beside its text written by hand.

use crate::{print_code, print_code_1};
use std::alloc::Global;
use std::test::Fail;
use tp_value::{Items, NoMemory, Place, TrapKind};
use tpal_syntax::{
    Alu, Block, CarryAt, Code, CodeTable, CutKind, Instr, Note, Target, Term, Value,
};

const TEXT: &[u8] = b"table t0 input a
table t1 made
main: plain
  r0 := -9223372036854775808
  r1 := nil
  r2 := @par
  r31 := r0
  r3 := r0 add 10
  r3 := r0 sub @main
  r3 := r0 affine r1
  if-jump r3, @meet
  r4 := mem[r31+511]
  mem[r31+0] := -1
  salloc 512
  sfree 0
  prmpush mem[r31+7], 12, @meet
  prmpop mem[r31+7]
  prmdrop
  prmempty r5
  prmsplit r6, r7
  halt
par: prppt @main
  r8 := jralloc @meet
  fork r8, @main
  r9 := fetch t0, r1, r2
  put t1, r1, r2, r3
  r10 := rows t0
  r11 := cols t1
  make t1, r1, r2, 1, 4294967295
  tick
  trap Divide, 12, 3
  print r0
  emit t1
  jump r7
meet: jtppt assoc-comm; {r0 -> r1, r2 -> r29}; @main; loop; carry t0 rows r4, t1 cells r5 r6
  join r8
last: jtppt assoc; {}; @main; call; carry none
  jump @last
";

fn first_body(alloc: Global) -> Result<Vec<Instr>, NoMemory> {
    Ok(Vec::from_slice(
        alloc,
        &[
            Instr::Move {
                to: 0,
                value: Value::Int(i64::MIN),
            },
            Instr::Move {
                to: 1,
                value: Value::Nil,
            },
            Instr::Move {
                to: 2,
                value: Value::Label(1),
            },
            Instr::Move {
                to: 31,
                value: Value::Reg(0),
            },
            Instr::Calc {
                to: 3,
                left: 0,
                alu: Alu::Add,
                right: Value::Int(10),
            },
            Instr::Calc {
                to: 3,
                left: 0,
                alu: Alu::Sub,
                right: Value::Label(0),
            },
            Instr::Calc {
                to: 3,
                left: 0,
                alu: Alu::Affine,
                right: Value::Reg(1),
            },
            Instr::IfJump { test: 3, label: 2 },
            Instr::Load {
                to: 4,
                base: 31,
                off: 511,
            },
            Instr::Store {
                base: 31,
                off: 0,
                value: Value::Int(-1),
            },
            Instr::Salloc(512),
            Instr::Sfree(0),
            Instr::PrmPush {
                base: 31,
                off: 7,
                cells: 12,
                split: 2,
            },
            Instr::PrmPop { base: 31, off: 7 },
            Instr::PrmDrop,
            Instr::PrmEmpty(5),
            Instr::PrmSplit { base: 6, split: 7 },
        ],
    )?)
}

fn second_body(alloc: Global) -> Result<Vec<Instr>, NoMemory> {
    let made = Place {
        line: 1,
        col: 4_294_967_295,
    };
    let trapped = Place { line: 12, col: 3 };
    Ok(Vec::from_slice(
        alloc,
        &[
            Instr::JrAlloc { to: 8, target: 2 },
            Instr::Fork { rec: 8, child: 0 },
            Instr::Fetch {
                to: 9,
                table: 0,
                row: 1,
                col: 2,
            },
            Instr::Put {
                table: 1,
                row: 1,
                col: 2,
                value: 3,
            },
            Instr::Rows { to: 10, table: 0 },
            Instr::Cols { to: 11, table: 1 },
            Instr::Make {
                table: 1,
                rows: 1,
                cols: 2,
                place: made,
            },
            Instr::Tick,
            Instr::Trap {
                kind: TrapKind::Divide,
                place: trapped,
            },
            Instr::Print(0),
            Instr::Emit(1),
        ],
    )?)
}

fn block(
    alloc: Global,
    name: &[u8],
    note: Note,
    body: Vec<Instr>,
    term: Term,
) -> Result<Block, NoMemory> {
    Ok(Block {
        name: Items::new(Vec::from_slice(alloc, name)?),
        note,
        body: Items::new(body),
        term,
    })
}

fn full_target(alloc: Global) -> Result<Note, NoMemory> {
    let carries = [
        CarryAt::Rows { table: 0, at: 4 },
        CarryAt::Cells {
            table: 1,
            row: 5,
            at: 6,
        },
    ];
    Ok(Note::Target(Target {
        comm: true,
        renames: Items::new(Vec::from_slice(alloc, &[(0, 1), (2, 29)])?),
        comb: 0,
        kind: CutKind::Loop,
        carries: Items::new(Vec::from_slice(alloc, &carries)?),
    }))
}

fn bare_target(alloc: Global) -> Note {
    Note::Target(Target {
        comm: false,
        renames: Items::new(Vec::new(alloc)),
        comb: 0,
        kind: CutKind::Call,
        carries: Items::new(Vec::new(alloc)),
    })
}

fn whole(alloc: Global) -> Result<Option<Code>, NoMemory> {
    let mut tables = Vec::new(alloc);
    tables.push(CodeTable::Input(Items::new(Vec::from_slice(alloc, b"a")?)))?;
    tables.push(CodeTable::Made)?;
    let mut blocks = Vec::new(alloc);
    blocks.push(block(alloc, b"main", Note::Plain, first_body(alloc)?, Term::Halt)?)?;
    let jump = Term::Jump(Value::Reg(7));
    blocks.push(block(alloc, b"par", Note::Ready(0), second_body(alloc)?, jump)?)?;
    let meet = full_target(alloc)?;
    blocks.push(block(alloc, b"meet", meet, Vec::new(alloc), Term::Join(8))?)?;
    let again = Term::Jump(Value::Label(3));
    blocks.push(block(alloc, b"last", bare_target(alloc), Vec::new(alloc), again)?)?;
    Code::new(alloc, tables, blocks)
}

#[test]
fn each_form_is_printed(rt: HostRuntime) -> Result<(), Fail> {
    let code = whole(rt.alloc())?.ok_or("a code")?;
    let text = print_code_1(rt.alloc(), &code)?.ok_or("a text")?;
    assert_eq!(rt; text.as_slice(), TEXT);
    Ok(())
}

fn short(alloc: Global, term: Term) -> Result<Option<Code>, NoMemory> {
    let body = [
        Instr::Move {
            to: 0,
            value: Value::Int(2),
        },
        Instr::Calc {
            to: 0,
            left: 0,
            alu: Alu::Add,
            right: Value::Int(3),
        },
        Instr::Print(0),
    ];
    let body = Vec::from_slice(alloc, &body)?;
    let mut blocks = Vec::new(alloc);
    blocks.push(block(
        alloc,
        b"main",
        Note::Plain,
        body,
        Term::Jump(Value::Label(1)),
    )?)?;
    blocks.push(block(alloc, b"end", Note::Plain, Vec::new(alloc), term)?)?;
    Code::new(alloc, Vec::new(alloc), blocks)
}

const SHORT_1: &[u8] = b"main: plain
  r0 := 2
  r0 := r0 add 3
  print r0
  jump @end
end: plain
  halt
";

const SHORT_2: &[u8] = b"tpal 2
main #0: plain
  r0 := 2
  r0 := r0 add 3
  print r0
  jump @end
end #1: plain
  halt
";

const LEFT: &[u8] = b"tpal 2
main #0: plain
  r0 := 2
  r0 := r0 add 3
  print r0
  jump @end
end #1: plain
  leave r24, r0
";

#[test]
fn a_short_code_is_printed(rt: HostRuntime) -> Result<(), Fail> {
    let code = short(rt.alloc(), Term::Halt)?.ok_or("a code")?;
    let one = print_code_1(rt.alloc(), &code)?.ok_or("a text")?;
    let two = print_code(rt.alloc(), &code)?;
    assert_eq!(rt; one.as_slice(), SHORT_1);
    assert_eq!(rt; two.as_slice(), SHORT_2);
    Ok(())
}

#[test]
fn a_code_with_leave_has_no_text_of_version_1(rt: HostRuntime) -> Result<(), Fail> {
    let code = short(rt.alloc(), Term::Leave { rec: 24, value: 0 })?.ok_or("a code")?;
    let one = print_code_1(rt.alloc(), &code)?;
    let two = print_code(rt.alloc(), &code)?;
    assert!(rt; one.is_none());
    assert_eq!(rt; two.as_slice(), LEFT);
    Ok(())
}
