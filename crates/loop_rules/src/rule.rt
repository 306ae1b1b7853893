// The rules of the language.

ghost use Rattle.std.specs.Prelude.{◌≡◌};
ghost use Rattle.loop_rules.specs.Rules.{number_of};

/// A rule of the language, by what it asks of a program.
#[derive(Clone, Copy, PartialEq, Eq, Debug)]
pub enum Rule {
    /// Each name is visible as what it is used for and declared once, and calls fit.
    Names,
    /// The body of a `par` sets no variable that is declared outside it.
    OuterVariables,
    /// A reduced variable is only folded into, with its operator.
    Reductions,
    /// The body of a `par` writes only cells that it carries.
    TableWrites,
    /// The body of a `par` reads of a carried table only what it carries.
    TableReads,
    /// Carry lists are of cells that no other iteration touches.
    CarryLists,
    /// A function writes no table, prints and emits nothing and carries nothing.
    Functions,
    /// The body of a `par` calls no function that reads a carried table.
    ReadingCalls,
    /// The body of a `par` of main prints and emits nothing.
    Output,
    /// A loop's variable is not set.
    LoopVariables,
    /// Counts and heights are within their limits.
    Limits,
    /// A `par` that carries and reduces nothing is left with one variable, which is declared
    /// outside its body and inside those round it.
    Leaves,
}

impl Rule {
    /// The number in the rule's printed name, from 1 to 12.
    pub fn number(self) -> u8
        ensures { result ≡ number_of self }
    {
        match self {
            Rule::Names => 1,
            Rule::OuterVariables => 2,
            Rule::Reductions => 3,
            Rule::TableWrites => 4,
            Rule::TableReads => 5,
            Rule::CarryLists => 6,
            Rule::Functions => 7,
            Rule::ReadingCalls => 8,
            Rule::Output => 9,
            Rule::LoopVariables => 10,
            Rule::Limits => 11,
            Rule::Leaves => 12,
        }
    }
}
