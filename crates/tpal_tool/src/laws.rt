// What holds of all runs of a code.

ghost use Rattle.std.specs.Prelude.{◌≡◌, List};
ghost use Rattle.slices.specs.Holding.{Holding};
ghost use Rattle.tp_value.specs.declared.values.Table.{Table};
ghost use Rattle.tpal_syntax.specs.Listing.{Listing};
ghost use Rattle.tpal_syntax.specs.declared.blocks.CodeTable.{CodeTable};
ghost use Rattle.tpal_verify.specs.declared.report.ExecReport.{ExecReport};
ghost use Rattle.tpal_tool.specs.CodeInputs.{AreCodeHeld};
ghost use Rattle.tpal_tool.specs.ExecOwed.{ComesTo};
ghost use Rattle.tpal_tool.specs.Words.{ExecOptions};

/// What the first task of a run of a code holds of given tables is one list, and so the run comes
/// to one report.
pub fn a_code_comes_to_one_report()
    ensures one_list { (tables : List CodeTable) (given : List Table)
        (held others : List Holding) → AreCodeHeld tables given held →
        AreCodeHeld tables given others → held ≡ others }
    ensures one_report { (code : Listing) (inputs : List Table) (options : ExecOptions)
        (report other : ExecReport) → ComesTo code inputs options report →
        ComesTo code inputs options other → report ≡ other }
{}
