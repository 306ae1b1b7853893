// Samples of a seed.

ghost use Rattle.std.specs.Prelude.{◌≡◌, ◌≤◌, ◌*◌, length, IfOk};
ghost use Rattle.tp_value.specs.declared.limits.TheConstants.{MAX_SOURCE_BYTES, MAX_TABLES_BYTES};
ghost use Rattle.sample_gen.specs.Texts.{sample_source, sample_tables};

use crate::laws::samples_fit;
use crate::texts::{Sample, source, tables_text};
use std::alloc::Global;
use tp_value::NoMemory;

/// The most cells of a sample.
pub const MAX_SAMPLE_CELLS: u32 = 1_000_000;

/// The source of every sample, and the tables text of a seed: one table of so many rows and
/// columns, whose cells, from 0 to 999, follow from the seed alone.
pub fn sample_of(alloc: Global, seed: u32, rows: u32, cols: u32) -> Result<Sample, NoMemory>
    requires { rows * cols ≤ MAX_SAMPLE_CELLS }
    ensures source { IfOk result (λ sample. sample.source.items ≡ sample_source) }
    ensures tables { IfOk result (λ sample.
        sample.tables.items ≡ sample_tables seed rows cols) }
{
    let source = source(alloc)?;
    let tables = tables_text(alloc, seed, rows, cols)?;
    Ok(Sample { source, tables })
}

/// The sample of a seed with 1,000 rows and 1,000 columns. Its texts keep within the limits of a
/// source and of a tables text.
pub fn sample(alloc: Global, seed: u32) -> Result<Sample, NoMemory>
    ensures source { IfOk result (λ sample. sample.source.items ≡ sample_source) }
    ensures tables { IfOk result (λ sample.
        sample.tables.items ≡ sample_tables seed 1000 1000) }
    ensures source_fits { IfOk result (λ sample.
        length sample.source.items ≤ MAX_SOURCE_BYTES) }
    ensures tables_fit { IfOk result (λ sample.
        length sample.tables.items ≤ MAX_TABLES_BYTES) }
{
    samples_fit();
    sample_of(alloc, seed, 1_000, 1_000)
}
