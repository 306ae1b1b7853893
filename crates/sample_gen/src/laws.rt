// Laws of samples, for what is built on them. A law has no code.

ghost use Rattle.std.specs.Prelude.{◌≤◌, ◌*◌, ℕ, length};
ghost use Rattle.tp_value.specs.declared.limits.TheConstants.{MAX_SOURCE_BYTES, MAX_TABLES_BYTES};
ghost use Rattle.tp_value.specs.declared.limits.TheConstants.{MAX_SIDE};
ghost use Rattle.sample_gen.specs.declared.sampling.TheConstants.{MAX_SAMPLE_CELLS};
ghost use Rattle.sample_gen.specs.Texts.{sample_source, sample_tables};

/// The texts of samples keep within the limits of a source and of a tables text.
pub fn samples_fit()
    ensures source { length sample_source ≤ MAX_SOURCE_BYTES }
    ensures tables { (seed rows cols : ℕ) → rows ≤ MAX_SIDE → cols ≤ MAX_SIDE →
        rows * cols ≤ MAX_SAMPLE_CELLS →
        length (sample_tables seed rows cols) ≤ MAX_TABLES_BYTES }
{}
