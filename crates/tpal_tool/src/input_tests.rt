// What a run begins with.

use crate::code_inputs::{have_inputs, hold_inputs};
use crate::code_judging::judge_code;
use crate::inputs::tables_of;
use slices::Held;
use std::alloc::Global;
use std::test::Fail;

// What a run of a code over a tables text begins with.
fn held_of(alloc: Global, source: &[u8], tables: &[u8]) -> Option<Vec<Held>> {
    if source.len() > 1_048_576 || tables.len() > 1_048_576 {
        return None;
    }
    let code = judge_code(alloc, source).ok()?;
    let given = tables_of(alloc, tables).ok()?;
    have_inputs(alloc, code.code().tables(), &given).ok()?;
    hold_inputs(alloc, code.code(), given).ok()
}

#[test]
fn a_run_holds_its_inputs_by_name(rt: HostRuntime) -> Result<(), Fail> {
    let held = held_of(
        rt.alloc(),
        b"table t0 made\ntable t1 input b\ntable t2 input a\nmain: plain\n  halt\n",
        b"table a 2 3 1 2 3 4 5 6 table c 1 1 9 table b 1 2 -7 8",
    )
    .ok_or("tables")?;
    let cases: [(usize, u32, u32, i64, i64, Option<i64>); 6] = [
        (0, 0, 0, 0, 0, None),
        (1, 1, 2, 0, 0, Some(-7)),
        (1, 1, 2, 1, 0, None),
        (2, 2, 3, 0, 2, Some(3)),
        (2, 2, 3, 1, 0, Some(4)),
        (2, 2, 3, 2, 0, None),
    ];
    assert_eq!(&rt; held.len(), 3);
    for (at, rows, cols, row, col, cell) in cases {
        let table = held.get(at).ok_or("a table")?;
        assert_eq!(&rt; (table.rows(), table.cols()), (rows, cols), "{at}");
        assert_eq!(&rt; table.fetch(row, col), cell, "{at}: {row}, {col}");
    }
    Ok(())
}
