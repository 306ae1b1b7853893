// Laws of tables texts, for what is built on them. A law has no code.

ghost use Rattle.std.specs.Prelude.{◌≡◌, ◌⊎◌, ℕ, List};
ghost use Rattle.tp_value.specs.declared.values.Table.{Table};
ghost use Rattle.table_text.specs.declared.fault.TableFault.{TableFault};
ghost use Rattle.table_text.specs.TablesText.{TablesOf, FirstTableFault};

/// Each text has one list of tables or one first fault, and never both.
pub fn text_is_read_one_way()
    ensures one_of_them { (text : List ℕ) →
        ((tables : List Table) × TablesOf text tables) ⊎
        ((fault : TableFault) × FirstTableFault text fault) }
    ensures one_list { (text : List ℕ) (a b : List Table) → TablesOf text a → TablesOf text b →
        a ≡ b }
    ensures one_fault { (text : List ℕ) (a b : TableFault) → FirstTableFault text a →
        FirstTableFault text b → a ≡ b }
    ensures not_both { (text : List ℕ) (tables : List Table) (fault : TableFault) →
        TablesOf text tables → FirstTableFault text fault → ⊥ }
{}
