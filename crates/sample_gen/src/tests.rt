// The texts of samples, worked out from the rule of the generator.

use crate::{MAX_SAMPLE_CELLS, Sample, sample, sample_of};
use std::alloc::Global;
use std::process::Abort;
use tp_value::NoMemory;

// The sample of a few cells.
fn small(
    rt: &impl Abort,
    alloc: Global,
    (seed, rows, cols): (u32, u32, u32),
) -> Result<Sample, NoMemory> {
    assert!(rt; rows <= 1_000 && cols <= 1_000);
    assert!(rt; rows * cols <= MAX_SAMPLE_CELLS);
    sample_of(alloc, seed, rows, cols)
}

// That the sample of a few cells has this tables text.
fn has_tables(
    rt: &impl Abort,
    alloc: Global,
    asked: (u32, u32, u32),
    tables: &[u8],
) -> Result<(), NoMemory> {
    let made = small(rt, alloc, asked)?;
    assert_eq!(rt; made.tables.as_slice(), tables);
    Ok(())
}

#[test]
fn cells_follow_from_the_seed(rt: HostRuntime) -> Result<(), NoMemory> {
    let cases = [
        ((1, 2, 2), b"table a 2 2\n496 200\n46 195\n".as_slice()),
        ((0, 2, 2), b"table a 2 2\n470 256\n708 769\n".as_slice()),
        (
            (4_294_967_295, 2, 3),
            b"table a 2 3\n445 311 835\n343 29 284\n".as_slice(),
        ),
        ((7, 1, 3), b"table a 1 3\n648 866 140\n".as_slice()),
        ((7, 3, 1), b"table a 3 1\n648\n866\n140\n".as_slice()),
        ((1, 0, 5), b"table a 0 5\n".as_slice()),
        ((1, 3, 0), b"table a 3 0\n\n\n\n".as_slice()),
        ((1, 0, 0), b"table a 0 0\n".as_slice()),
    ];
    for (asked, tables) in cases {
        has_tables(&rt, rt.alloc(), asked, tables)?;
    }
    Ok(())
}

#[test]
fn a_sample_has_a_million_cells(rt: HostRuntime) -> Result<(), NoMemory> {
    let made = sample(rt.alloc(), 1)?;
    let tables = made.tables.as_slice();
    assert_eq!(rt; tables.len(), 3_889_163);
    assert!(rt; tables.starts_with(b"table a 1000 1000\n496 200 46 195 312 216 774 450 80 893 "));
    assert!(rt; tables.ends_with(b" 507 519 792 37 383 760 589\n"));
    Ok(())
}

#[test]
fn the_source_is_the_same_for_every_seed(rt: HostRuntime) -> Result<(), NoMemory> {
    for asked in [(1, 2, 2), (2, 0, 0)] {
        let made = small(&rt, rt.alloc(), asked)?;
        let source = made.source.as_slice();
        assert_eq!(rt; source.len(), 503);
        assert!(rt; source.starts_with(b"input a;\ntable s[rows(a)][1];\nmain {\n"));
        assert!(rt; source.ends_with(b"  print h;\n  print m;\n  print g;\n}\n"));
    }
    Ok(())
}
