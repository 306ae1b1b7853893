// Codes written by hand, of which a test says what differs, and the tables that they are run over.

ghost use Rattle.std.specs.Prelude.{◌≡◌, length, IfOk, IfSome};

use slices::Held;
use std::alloc::Global;
use tp_value::{Items, NoMemory};
use tpal_syntax::{Block, CarryAt, Code, CodeTable, CutKind, Instr, Note, Target, Term};

pub(crate) fn block(
    alloc: Global,
    name: &[u8],
    note: Note,
    body: &[Instr],
    term: Term,
) -> Result<Block, NoMemory> {
    Ok(Block {
        name: Items::new(Vec::from_slice(alloc, name)?),
        note,
        body: Items::new(Vec::from_slice(alloc, body)?),
        term,
    })
}

// What is cut, the renaming, and what is carried.
pub(crate) type Joint<'a> = (CutKind, &'a [(u8, u8)], &'a [CarryAt]);

// A loop with the rows of t0 from the number in r3 on.
pub(crate) const ROWS: Joint<'static> = (
    CutKind::Loop,
    &[(1, 2)],
    &[CarryAt::Rows { table: 0, at: 3 }],
);

// A loop with the cells of row r3 from column r5 on.
pub(crate) const CELLS: Joint<'static> = (
    CutKind::Loop,
    &[(1, 2)],
    &[CarryAt::Cells {
        table: 0,
        row: 3,
        at: 5,
    }],
);

// A call that carries nothing.
pub(crate) const CALL: Joint<'static> = (CutKind::Call, &[(1, 2)], &[]);

// A call that hands nothing over.
pub(crate) const BARE: Joint<'static> = (CutKind::Call, &[], &[]);

// A code of these blocks, where `main` and `side` are handed in with their ends, and the joint too:
//     main: plain
//     head: prppt @handler, halt
//     handler: plain, r4 := jralloc @joint, fork r4, @side, then the left's end
//     joint: jtppt assoc, the renaming, @both, what is cut and carried, halt
//     side: plain, the child's
//     both: plain, prints r1 and r2, emits t0, halt
pub(crate) fn code_of(
    alloc: Global,
    joint: Joint<'_>,
    main: (&[Instr], Term),
    side: (&[Instr], Term),
) -> Result<Option<Code>, NoMemory>
    ensures { IfOk result (λ made. IfSome made (λ code. length code.tables ≡ 2)) }
{
    let mut tables = Vec::new(alloc);
    tables.push(CodeTable::Input(Items::new(Vec::from_slice(alloc, b"a")?)))?;
    tables.push(CodeTable::Made)?;
    let target = Target {
        comm: false,
        renames: Items::new(Vec::from_slice(alloc, joint.1)?),
        comb: 5,
        kind: joint.0,
        carries: Items::new(Vec::from_slice(alloc, joint.2)?),
    };
    let fork = [
        Instr::JrAlloc { to: 4, target: 3 },
        Instr::Fork { rec: 4, child: 4 },
    ];
    let both = [Instr::Print(1), Instr::Print(2), Instr::Emit(0)];
    let mut blocks = Vec::new(alloc);
    blocks.push(block(alloc, b"main", Note::Plain, main.0, main.1)?)?;
    blocks.push(block(alloc, b"head", Note::Ready(2), &[], Term::Halt)?)?;
    blocks.push(block(alloc, b"handler", Note::Plain, &fork, Term::Join(4))?)?;
    blocks.push(block(alloc, b"joint", Note::Target(target), &[], Term::Halt)?)?;
    blocks.push(block(alloc, b"side", Note::Plain, side.0, side.1)?)?;
    blocks.push(block(alloc, b"both", Note::Plain, &both, Term::Halt)?)?;
    Code::new(alloc, tables, blocks)
}

// The input, 1 2 over 3 4, and a table that isn't made yet.
pub(crate) fn tables_of(alloc: Global) -> Result<Vec<Held>, NoMemory>
    ensures { IfOk result (λ tables. length tables.items ≡ 2) }
{
    let mut tables = Vec::new(alloc);
    tables.push(Held::whole(2, 2, Vec::from_slice(alloc, &[1, 2, 3, 4])?))?;
    tables.push(Held::none(alloc, 0, 0))?;
    Ok(tables)
}
