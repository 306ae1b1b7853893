// What holds of all texts.

ghost use Rattle.std.specs.Prelude.{◌≡◌, ◌⊎◌, ℕ, List};
ghost use Rattle.tpal_syntax.specs.declared.blocks.Block.{Block};
ghost use Rattle.tpal_syntax.specs.declared.blocks.CodeTable.{CodeTable};
ghost use Rattle.tpal_syntax.specs.Text.{CodeText};
ghost use Rattle.tpal_asm.specs.declared.fault.AsmFault.{AsmFault as Fault};
ghost use Rattle.tpal_asm.specs.Faults.{FirstFault};

/// Each text has a code or a first fault: one of them, and only one of its kind.
pub fn text_is_read_one_way()
    ensures one_of_them { (text : List ℕ) →
        ((tables : List CodeTable) × (blocks : List Block) × CodeText text tables blocks) ⊎
        ((fault : Fault) × FirstFault text fault) }
    ensures one_code { (text : List ℕ) (tables others : List CodeTable) (blocks more : List Block)
        → CodeText text tables blocks → CodeText text others more →
        (tables ≡ others) × (blocks ≡ more) }
    ensures one_fault { (text : List ℕ) (fault other : Fault) → FirstFault text fault →
        FirstFault text other → fault ≡ other }
    ensures not_both { (text : List ℕ) (tables : List CodeTable) (blocks : List Block)
        (fault : Fault) → CodeText text tables blocks → ¬ FirstFault text fault }
{}
