// What each call answers, on texts and rows worked out by hand.

use crate::{TableFault, push_row_text, read_tables};
use std::alloc::Global;
use std::process::Abort;
use tp_value::{MAX_TABLES_BYTES, NoMemory, Table};

// What a text is read as.
fn tables_of(rt: &impl Abort, alloc: Global, text: &[u8]) -> Result<Vec<Table>, TableFault> {
    assert!(rt; text.len() <= MAX_TABLES_BYTES as usize);
    read_tables(alloc, text)
}

// The fault of a text that has one.
fn fault_of(rt: &impl Abort, alloc: Global, text: &[u8]) -> Option<TableFault> {
    match tables_of(rt, alloc, text) {
        Ok(_) => None,
        Err(fault) => Some(fault),
    }
}

#[test]
fn a_text_has_its_first_fault(rt: HostRuntime) {
    let cases = [
        (b"table a 2 2\n1 2 3\n".as_slice(), TableFault::Form(18)),
        (b"table a 2001 2000".as_slice(), TableFault::Cells(13)),
        (
            b"table a 1 1 5 table a 1 1 6".as_slice(),
            TableFault::Repeated(20),
        ),
        (b"tables".as_slice(), TableFault::Form(0)),
        (b" table 1a".as_slice(), TableFault::Form(7)),
        (b"table a -1 1".as_slice(), TableFault::Form(8)),
        (b"table a 4000001 0".as_slice(), TableFault::Cells(8)),
        (
            b"table a 0 99999999999999999999999".as_slice(),
            TableFault::Cells(10),
        ),
        (
            b"table a 4000000 0 table b 2 2000001".as_slice(),
            TableFault::Cells(28),
        ),
        (b"table a 1 1 5table b 0 0".as_slice(), TableFault::Form(12)),
        (
            b"table a 1 1 9223372036854775808".as_slice(),
            TableFault::Form(12),
        ),
        (b"table a 1 1 -".as_slice(), TableFault::Form(12)),
    ];
    for (text, fault) in cases {
        assert_eq!(rt; fault_of(&rt, rt.alloc(), text), Some(fault));
    }
}

#[test]
fn a_cut_text_lacks_a_token(rt: HostRuntime) {
    let whole = b"table a 2 2\n1 2 3 4\n";
    for n in 0..21 {
        let want = match n {
            0 | 19 | 20 => None,
            1..=4 => Some(TableFault::Form(0)),
            _ => Some(TableFault::Form(n as u64)),
        };
        assert_eq!(rt; fault_of(&rt, rt.alloc(), &whole[..n]), want);
    }
}

#[test]
fn blanks_and_zeros_are_free(rt: HostRuntime) {
    for text in [
        b"".as_slice(),
        b" \t\r\n".as_slice(),
        b"table a 0 1".as_slice(),
        b"\ttable _b 01 002\r\n-0 007\n".as_slice(),
    ] {
        assert_eq!(rt; fault_of(&rt, rt.alloc(), text), None);
    }
}

// A table: its name, rows, columns and cells.
type Wanted<'a> = (&'a [u8], u32, u32, &'a [i64]);

// That the text is read as these tables.
fn reads_as(
    rt: &impl Abort,
    alloc: Global,
    text: &[u8],
    wanted: &[Wanted<'_>],
) -> Result<(), TableFault> {
    let tables = tables_of(rt, alloc, text)?;
    assert_eq!(rt; tables.len(), wanted.len());
    for (table, (name, rows, cols, cells)) in tables.iter().zip(wanted) {
        assert_eq!(rt; table.name.items(), *name);
        assert_eq!(rt; (table.rows, table.cols), (*rows, *cols));
        assert_eq!(rt; table.cells.items(), *cells);
    }
    Ok(())
}

#[test]
fn tables_stand_in_order(rt: HostRuntime) -> Result<(), TableFault> {
    let wanted = [
        (b"b".as_slice(), 1, 1, [7].as_slice()),
        (b"a".as_slice(), 1, 1, [5].as_slice()),
    ];
    reads_as(&rt, rt.alloc(), b"table b 1 1 7 table a 1 1 5", &wanted)
}

#[test]
fn numbers_have_64_bits(rt: HostRuntime) -> Result<(), TableFault> {
    let cells = [-9223372036854775808, 9223372036854775807];
    let wanted = [(b"a".as_slice(), 2, 1, cells.as_slice())];
    let text = b"table a 2 1 -9223372036854775808 9223372036854775807";
    reads_as(&rt, rt.alloc(), text, &wanted)
}

#[test]
fn rows_are_lines(rt: HostRuntime) -> Result<(), NoMemory> {
    let mut out = Vec::new(rt.alloc());
    push_row_text(&mut out, &[1, -2])?;
    push_row_text(&mut out, &[])?;
    push_row_text(&mut out, &[0])?;
    assert_eq!(rt; out.as_slice(), b"1 -2\n\n0\n".as_slice());
    Ok(())
}
