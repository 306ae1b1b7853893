// What holds of all texts.

ghost use Rattle.std.specs.Prelude.{◌≡◌, ℕ, List};
ghost use Rattle.tpal_syntax.specs.declared.blocks.Block.{Block};
ghost use Rattle.tpal_syntax.specs.declared.blocks.CodeTable.{CodeTable};
ghost use Rattle.tpal_syntax.specs.Text.{CodeText};

/// A text has at most one code.
pub fn one_code_a_text()
    ensures { (text : List ℕ) (tables tables' : List CodeTable) (blocks blocks' : List Block)
        → CodeText text tables blocks → CodeText text tables' blocks'
        → (tables ≡ tables') × (blocks ≡ blocks') }
{}
