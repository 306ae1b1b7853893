// What follows from the definitions alone.

ghost use Rattle.std.specs.Prelude.{◌+◌, ◌≤◌, ℕ, List};
ghost use Rattle.loop_syntax.specs.declared.Reduce.{Reduce};
ghost use Rattle.loop_syntax.specs.declared.Stmt as statement;
ghost use Rattle.loop_meaning.specs.State.{State};
ghost use Rattle.loop_meaning.specs.Statements.{run_list};
ghost use Rattle.loop_meaning.specs.Calls.{setting};
ghost use Rattle.loop_meaning.specs.Meaning.{meaning};
ghost use Rattle.cost_report.specs.Span.{span_list, spans, whole_span};

use loop_syntax::Program;
use tp_value::Table;

/// The span is at most the work: that of a program at most the ticks that its run counts, that of
/// statements at most the ticks that they add, at any depth of calls and under any reduce list,
/// wherever they begin within the fuel, and however they stop.
pub fn span_within_work(program: &Program, tables: &[Table], fuel: u64)
    ensures whole { whole_span program.now tables.now fuel
        ≤ (meaning program.now tables.now fuel).ticks }
    ensures statements { (depth : ℕ) (rs : List Reduce) (body : List statement.Stmt) (s : State) →
        s.ticks ≤ fuel →
        s.ticks + span_list (spans program.now fuel depth rs) body s
        ≤ (run_list (setting program.now fuel depth rs) body s).state.ticks }
{}
