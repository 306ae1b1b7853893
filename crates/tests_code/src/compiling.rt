// From a source text to a program and its code, and what the code's first task holds.

ghost use Rattle.std.specs.Prelude.{◌≡◌, ◌≤◌, length, IfOk, IfSome, true};
ghost use Rattle.scene_laws.specs.Built.{program_is_built};
ghost use Rattle.scene_laws.specs.Tables.{AreHeld, AreNamed};
ghost use Rattle.code_laws.specs.Owing.{OwesMeaning};
ghost use Rattle.tests_code.specs.Owed.{given_to};

use block_lower::{lower, program_is_built};
use loop_check::{Checked, check};
use loop_lex::lex;
use loop_parse::parse;
use loop_rules::resolve;
use loop_syntax::TableDecl;
use slices::Held;
use std::alloc::Global;
use std::test::Fail;
use tp_value::NoMemory;
use tpal_syntax::{Code, CodeTable};

/// A program with its code.
#[derive(Drop)]
pub struct Compiled {
    /// The program, which keeps to all rules.
    pub program: Checked,
    /// Its code.
    pub code: Code,
}

/// The program of a source, where it keeps to all rules and there is code for it.
pub fn checked(alloc: Global, source: &[u8]) -> Option<Checked>
    ensures { IfSome result (λ program. program_is_built program ≡ true) }
{
    if source.len() > 1_048_576 {
        return None;
    }
    let Ok(tokens) = lex(alloc, source) else {
        return None;
    };
    let Ok(program) = parse(alloc, source, &tokens) else {
        return None;
    };
    let Ok(resolved) = resolve(alloc, program) else {
        return None;
    };
    match check(alloc, resolved) {
        Ok(program) => {
            if program_is_built(&program) {
                Some(program)
            } else {
                None
            }
        }
        Err(_fault) => None,
    }
}

/// The program of a source, with its code.
pub fn compile(alloc: Global, source: &[u8]) -> Result<Compiled, Fail>
    ensures { IfOk result (λ on. OwesMeaning on.program on.code) }
{
    let program = checked(alloc, source).ok_or("a program")?;
    let code = lower(alloc, &program)?;
    Ok(Compiled { program, code })
}

/// What is held of the tables of a code, where each input has one column, of these numbers.
pub fn columns(alloc: Global, tables: &[CodeTable], column: &[i64]) -> Result<Vec<Held>, NoMemory>
    requires few { length column.now ≤ 100 }
    ensures { IfOk result (λ all. length all.items ≡ length tables.now) }
{
    let mut all = Vec::new(alloc);
    for table in tables {
        let one = match table {
            CodeTable::Input(_) => {
                Held::whole(column.len() as u32, 1, Vec::from_slice(alloc, column)?)
            }
            CodeTable::Made => Held::none(alloc, 0, 0),
        };
        all.push(one)?;
    }
    Ok(all)
}

/// What the first task holds: of an input named `a` a column of 1 to 4, and nothing of a table that
/// is made. For programs that declare one table at most.
pub fn held(alloc: Global, on: &Compiled) -> Result<Option<Vec<Held>>, NoMemory>
    requires owes { OwesMeaning on.now.program on.now.code }
    ensures named { IfOk result
        (λ found. IfSome found
        (λ all. AreNamed on.now.program.tables.items (given_to on.now.program.tables.items))) }
    ensures held { IfOk result
        (λ found. IfSome found
        (λ all.
        AreHeld on.now.program.tables.items (given_to on.now.program.tables.items)
        all.items)) }
    ensures tables { IfOk result
        (λ found. IfSome found (λ all. length all.items ≡ length on.now.code.tables)) }
{
    match on.program.program().tables.as_slice() {
        [] => Ok(Some(Vec::new(alloc))),
        [TableDecl::Made(_, _, _)] => Ok(Some(vec![in alloc; Held::none(alloc, 0, 0)]?)),
        [TableDecl::Input(name)] if name.text.as_slice() == b"a".as_slice() => {
            let cells = Vec::from_slice(alloc, &[1, 2, 3, 4])?;
            Ok(Some(vec![in alloc; Held::whole(4, 1, cells)]?))
        }
        _ => Ok(None),
    }
}
