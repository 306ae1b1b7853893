// The texts of a code, assembled, beside the code that they came from.

use crate::compiling::{Compiled, compile};
use std::alloc::Global;
use std::test::Fail;
use tpal_asm::assemble;
use tpal_print::{print_code, print_code_1};
use tpal_syntax::{Block, Code, CodeTable, Note, Target};

fn assembled(alloc: Global, text: &[u8]) -> Option<Code> {
    if text.len() > 67_108_864 {
        return None;
    }
    assemble(alloc, text).ok()
}

fn is_same_table(one: &CodeTable, other: &CodeTable) -> bool {
    match (one, other) {
        (CodeTable::Input(name), CodeTable::Input(again)) => name.items() == again.items(),
        (CodeTable::Made, CodeTable::Made) => true,
        _ => false,
    }
}

fn is_same_target(one: &Target, other: &Target) -> bool {
    one.comm == other.comm
        && one.renames.items() == other.renames.items()
        && one.comb == other.comb
        && one.kind == other.kind
        && one.carries.items() == other.carries.items()
}

fn is_same_note(one: &Note, other: &Note) -> bool {
    match (one, other) {
        (Note::Plain, Note::Plain) => true,
        (Note::Ready(handler), Note::Ready(again)) => handler == again,
        (Note::Target(target), Note::Target(again)) => is_same_target(target, again),
        _ => false,
    }
}

fn is_same_block(one: &Block, other: &Block) -> bool {
    is_same_note(&one.note, &other.note)
        && one.name.items() == other.name.items()
        && one.body.items() == other.body.items()
        && one.term == other.term
}

fn are_same_tables(tables: &[CodeTable], others: &[CodeTable]) -> bool {
    for (table, other) in tables.iter().zip(others) {
        if !is_same_table(table, other) {
            return false;
        }
    }
    tables.len() == others.len()
}

fn are_same_blocks(blocks: &[Block], others: &[Block]) -> bool {
    for (block, other) in blocks.iter().zip(others) {
        if !is_same_block(block, other) {
            return false;
        }
    }
    blocks.len() == others.len()
}

fn is_same_code(one: &Code, other: &Code) -> bool {
    are_same_tables(one.tables(), other.tables()) && are_same_blocks(one.blocks(), other.blocks())
}

#[test]
fn a_text_of_a_code_assembles_to_that_code(rt: HostRuntime) -> Result<(), Fail> {
    let cases = [
        "main { }",
        "main { print 2 + 3 * -4; }",
        "input a; table b[rows(a)][2]; main { par i in 0..rows(a) carry b[i] { b[i][0] = a[i][0] \
        / i; } emit b; }",
        "fn f(k) { let r = k; if k { call r = f(k - 1); } return r; } main { let x = 0; let y = \
        0; both x = f(1), y = f(2); print x + y; }",
        "main { let s = 0; par i in 0..9 reduce s by affine { fold s with i; } while s { s = s / \
        2; } }",
        "table t[2][2]; main { loop i in 0..2 { if i == 1 { t[i][0] = i % 2; } else { t[i][1] = \
        9223372036854775807; } } emit t; }",
    ];
    let mut last: Option<Code> = None;
    for source in cases {
        let Compiled { code, .. } = compile(rt.alloc(), source.as_bytes())?;
        let text = print_code(rt.alloc(), &code)?;
        let again = assembled(rt.alloc(), text.as_slice()).ok_or("a code text")?;
        assert!(&rt; is_same_code(&again, &code), "{source}");
        let text = print_code_1(rt.alloc(), &code)?.ok_or("a text of version 1")?;
        let again = assembled(rt.alloc(), text.as_slice()).ok_or("a code text")?;
        assert!(&rt; is_same_code(&again, &code), "{source}");
        if let Some(other) = last {
            assert!(&rt;
                !is_same_code(&again, &other),
                "{source} and the one before"
            );
        }
        last = Some(code);
    }
    Ok(())
}
