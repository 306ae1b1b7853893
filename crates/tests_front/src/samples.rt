// The source of samples, run by the serial meaning on tables of a few cells, with outputs and ticks
// worked out by hand.

use crate::programs::resolved;
use loop_meaning::plain_run;
use sample_gen::{MAX_SAMPLE_CELLS, Sample, sample_of};
use std::alloc::Global;
use std::test::Fail;
use table_text::read_tables;
use tp_value::{MAX_FUEL, MAX_TABLES_BYTES, Outcome, Stop};

// How a sample ends, where its source breaks no rule and its tables are well formed.
fn outcome(alloc: Global, made: &Sample) -> Option<Outcome> {
    if made.tables.len() > MAX_TABLES_BYTES as usize {
        return None;
    }
    let program = resolved(alloc, made.source.as_slice())?;
    let tables = read_tables(alloc, made.tables.as_slice()).ok()?;
    plain_run(alloc, &program, tables.as_slice(), MAX_FUEL).ok()
}

// Whether the sample comes to its end with this output and so many ticks.
fn ends(alloc: Global, made: &Sample, output: &[u8], ticks: u64) -> bool {
    let Some(end) = outcome(alloc, made) else {
        return false;
    };
    end.stop == Stop::Done && end.output.items() == output && end.ticks == ticks
}

#[test]
fn small_samples_are_run(rt: HostRuntime) -> Result<(), Fail> {
    let g = rt.alloc();
    let cases = [
        ((1, 2, 2), b"4127463593273\n326157\n696\n".as_slice(), 16),
        (
            (4_294_967_295, 2, 3),
            b"4127463621433\n1191117\n1591\n".as_slice(),
            20,
        ),
        ((1, 0, 5), b"4294967296\n0\n0\n".as_slice(), 0),
        ((1, 3, 0), b"127951370715136\n0\n0\n".as_slice(), 12),
    ];
    for ((seed, rows, cols), output, ticks) in cases {
        assert!(rt; rows <= 1_000 && cols <= 1_000);
        assert!(rt; rows * cols <= MAX_SAMPLE_CELLS);
        let made = sample_of(g, seed, rows, cols)?;
        assert!(rt; ends(g, &made, output, ticks));
    }
    Ok(())
}
