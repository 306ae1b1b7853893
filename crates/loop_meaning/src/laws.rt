// What follows from the definitions alone.

ghost use Rattle.std.specs.Prelude.{◌≡◌, ◌+◌, ◌++◌, ◌<◌, ◌≤◌, ◌↔◌, ◌≢◌, ℕ, Bool, ℤ, List, [], map};
ghost use Rattle.std.specs.Prelude.{Contains, ◌∷◌, false};
ghost use Rattle.std.specs.Int.{int_gap};
ghost use Rattle.std.specs.List.{All};
ghost use Rattle.tp_value.specs.declared.limits.TheConstants.{MAX_CALL_DEPTH};
ghost use Rattle.tp_value.specs.declared.Op.{Op};
ghost use Rattle.tp_value.specs.declared.Place.{Place};
ghost use Rattle.tp_value.specs.declared.TrapKind.TheVariants.{Deep};
ghost use Rattle.loop_rules.specs.Names.{func_of};
ghost use Rattle.loop_rules.specs.Sites.{Loop};
ghost use Rattle.loop_syntax.specs.Tree.{program_of};
ghost use Rattle.loop_syntax.specs.declared.Name.{Name};
ghost use Rattle.loop_syntax.specs.declared.App.{App};
ghost use Rattle.loop_syntax.specs.declared.Expr.{Expr};
ghost use Rattle.loop_syntax.specs.declared.ParLoop.{ParLoop};
ghost use Rattle.loop_syntax.specs.declared.Reduce.{Reduce};
ghost use Rattle.loop_syntax.specs.declared.Stmt as statement;
ghost use Rattle.loop_syntax.specs.declared.Stmt.TheVariants.{Par, Both};
ghost use Rattle.loop_meaning.specs.declared.frame.Frame.TheVariants.{Range};
ghost use Rattle.loop_meaning.specs.declared.value.Answer.TheVariants.{Number};
ghost use Rattle.loop_meaning.specs.declared.value.Variable.{Variable};
ghost use Rattle.loop_meaning.specs.InRange.{InRange, TableInRange, StateInRange, ExprInRange};
ghost use Rattle.loop_meaning.specs.InRange.{StmtInRange, FuncInRange, ProgramInRange};
ghost use Rattle.loop_meaning.specs.Expressions.{eval};
ghost use Rattle.loop_meaning.specs.State.{State, Note, Ran, noted, trapped, out_of_fuel};
ghost use Rattle.loop_meaning.specs.Statements.{given_two, unless_wide, too_wide, iterate, run};
ghost use Rattle.loop_meaning.specs.Statements.{run_list};
ghost use Rattle.loop_meaning.specs.Leaving.{left_list, caught};
ghost use Rattle.loop_meaning.specs.Calls.{setting, enter, no_value};
ghost use Rattle.loop_meaning.specs.Frames.{OfPar, accs_of, run_frame};
ghost use Rattle.loop_meaning.specs.WholeFrames.{iterations, first_chance, both_by_frame};
ghost use Rattle.loop_meaning.specs.Meaning.{meaning, whole_run, chances};
ghost use Rattle.loop_meaning.specs.Cells.{Cell, write_cells, body_of, bodies, bodies_of_list};
ghost use Rattle.loop_meaning.specs.Told.{NotesTell, CallNotesTell, Moves, CallMoves, leaving};
ghost use Rattle.loop_meaning.specs.Only.{StmtOnly, PrintsNothing, OnlyCounts, Untouched};
ghost use Rattle.loop_meaning.specs.Only.{LeavesNothing, IsNeverLeft};

use loop_syntax::{ParLoop as Parallel, Program};
use tp_value::{Stop, Table};

/// A run counts at most one tick more than its fuel, and it stops for want of fuel exactly where it
/// counts that one.
pub fn keeps_within_fuel(program: &Program, tables: &[Table], fuel: u64)
    ensures ticks { (meaning program.now tables.now fuel).ticks ≤ fuel + 1 }
    ensures spent { ((meaning program.now tables.now fuel).stop ≡ Stop.NoFuel)
        ↔ (fuel < (meaning program.now tables.now fuel).ticks) }
{}

/// Statements only add to the output, and never take ticks back, at any depth of calls and under
/// any reduce list, wherever they begin within the fuel.
pub fn only_adds(program: &Program, fuel: u64)
    ensures output { (depth : ℕ) (rs : List Reduce) (body : List statement.Stmt) (s : State) →
        s.ticks ≤ fuel →
        (more : List ℕ)
        × ((run_list (setting program.now fuel depth rs) body s).state.output
        ≡ s.output ++ more) }
    ensures ticks { (depth : ℕ) (rs : List Reduce) (body : List statement.Stmt) (s : State) →
        s.ticks ≤ fuel →
        s.ticks ≤ (run_list (setting program.now fuel depth rs) body s).state.ticks }
{}

/// More fuel changes nothing where the first fuel was enough: the outcome and the chances to split
/// off a task are the same, and so is any run of statements, its state and its notes.
pub fn more_fuel_changes_nothing(program: &Program, tables: &[Table], fuel: u64)
    ensures outcome { (more : ℕ) → fuel ≤ more →
        (meaning program.now tables.now fuel).stop ≢ Stop.NoFuel →
        meaning program.now tables.now more ≡ meaning program.now tables.now fuel }
    ensures chances { (more : ℕ) → fuel ≤ more →
        (meaning program.now tables.now fuel).stop ≢ Stop.NoFuel →
        chances program.now tables.now more ≡ chances program.now tables.now fuel }
    ensures statements { (more : ℕ)
        → fuel ≤ more
        → (depth : ℕ) (rs : List Reduce) (body : List statement.Stmt) (s : State) →
        (run_list (setting program.now fuel depth rs) body s).stop ≢ Stop.NoFuel →
        run_list (setting program.now more depth rs) body s
        ≡ run_list (setting program.now fuel depth rs) body s }
{}

/// A `par` runs its iterations and catches one that is left. A frame of the whole range of a `par`,
/// with the reduced variables' own values as accumulators, runs its iterations, and ends with the
/// values of those variables; it stops as they do, left where one of them is, and it notes one
/// chance more, that of the first iteration, where that is begun. A frame of both calls is what a
/// `both` does between its arguments and its assignments.
pub fn whole_frames_are_the_loop(program: &Program, fuel: u64)
    ensures par { (depth : ℕ) (rs : List Reduce) (l : ParLoop) (s : State) →
        run (setting program.now fuel depth rs) (Par l) s ≡
        given_two l.from l.to s (λ i j.
        unless_wide (too_wide i j) l.place (λ t. caught (left_list l.body.items)
        (iterations program.now fuel depth l i j t)) s) }
    ensures range { (depth : ℕ) (l : ParLoop) (i j : ℤ) (accs : List (Op × ℤ)) (s : State) →
        map (λ (a : Op × ℤ). a.1) accs ≡ accs_of l.reduces.items s.vars →
        (run_frame program.now fuel depth (OfPar l) (Range i j accs) s).ran ≡
        noted (first_chance fuel (int_gap i j) s) (iterations program.now fuel depth l i j s) }
    ensures accumulators { (depth : ℕ) (l : ParLoop) (i j : ℤ) (accs : List (Op × ℤ)) (s : State) →
        map (λ (a : Op × ℤ). a.1) accs ≡ accs_of l.reduces.items s.vars →
        (run_frame program.now fuel depth (OfPar l) (Range i j accs) s).results ≡
        accs_of l.reduces.items (iterations program.now fuel depth l i j s).state.vars }
    ensures both { (depth : ℕ) (rs : List Reduce) (child : Bool)
        (x : Name) (f : App) (y : Name) (g : App) (s : State) →
        run (setting program.now fuel depth rs) (Both x f y g) s
        ≡ both_by_frame program.now fuel depth child x f y g s }
{}

/// A call at a depth below 10,000 counts its tick and runs the body one level deeper, so depth
/// 10,000 is reached; a call there counts its tick and traps at the function's name. Where no tick
/// is left, a call stops for want of fuel at every depth.
pub fn calls_reach_the_limit(program: &Program, fuel: u64)
    ensures enters { (depth : ℕ) (rs : List Reduce) (f : List ℕ) (place : Place) (ns : List ℤ)
        (begin : List Note) (s : State) →
        depth < MAX_CALL_DEPTH → s.ticks < fuel →
        (setting program.now fuel depth rs).call f place ns begin s ≡
        enter (setting program.now fuel (depth + 1) []) (func_of program.now.funcs.items f)
        ns begin (record s { ticks = s.ticks + 1 }) }
    ensures traps { (rs : List Reduce) (f : List ℕ) (place : Place) (ns : List ℤ)
        (begin : List Note) (s : State) →
        s.ticks < fuel →
        (setting program.now fuel MAX_CALL_DEPTH rs).call f place ns begin s
        ≡ no_value (trapped Deep place (record s { ticks = s.ticks + 1 })) }
    ensures spent { (depth : ℕ) (rs : List Reduce) (f : List ℕ) (place : Place) (ns : List ℤ)
        (begin : List Note) (s : State) →
        fuel ≤ s.ticks →
        (setting program.now fuel depth rs).call f place ns begin s
        ≡ no_value (out_of_fuel (record s { ticks = fuel + 1 })) }
{}

/// Numbers stay in the range of 64 bits: where the variables, the cells and sizes of the tables,
/// and the literals are in it, so are the values of expressions, and so are the variables and
/// tables after a run of statements at any depth, however it stops, and the number with which an
/// iteration is left. So are those after a whole program whose literals are in it, over given
/// tables that are in it.
pub fn numbers_stay_in_range(program: &Program, tables: &[Table], fuel: u64)
    ensures values { (s : State) (e : Expr) (n : ℤ)
        → StateInRange s
        → ExprInRange e
        → (eval s.vars s.tables e).answer ≡ Number n
        → InRange n }
    ensures runs { (depth : ℕ) (rs : List Reduce) (body : List statement.Stmt) (s : State) →
        All FuncInRange program.now.funcs.items → All StmtInRange body → StateInRange s →
        StateInRange (run_list (setting program.now fuel depth rs) body s).state }
    ensures left { (depth : ℕ) (rs : List Reduce) (body : List statement.Stmt) (s : State) (n : ℤ) →
        All FuncInRange program.now.funcs.items → All StmtInRange body → StateInRange s →
        (run_list (setting program.now fuel depth rs) body s).stop ≡ Stop.Left n → InRange n }
    ensures whole { ProgramInRange program.now
        → All TableInRange tables.now
        → StateInRange (whole_run program.now tables.now fuel).state }
{}

/// The notes of a run tell all that it does to tables and all that it sees of them, at any depth of
/// calls: names and sizes of tables stay, a cell of which no write is noted keeps its number, and
/// other numbers in cells of which neither a read nor an emit is noted change nothing else. So it
/// is with statements, with iterations, and with calls; what is noted at their beginning is no
/// write.
pub fn notes_tell_all(program: &Program, fuel: u64)
    ensures statements { (depth : ℕ) (rs : List Reduce) (body : List statement.Stmt)
        → NotesTell (run_list (setting program.now fuel depth rs) body) }
    ensures iterations { (depth : ℕ) (rs : List Reduce) (body : List statement.Stmt) (x : List ℕ)
        (again ns : List Note) →
        write_cells again ≡ [] → write_cells ns ≡ [] → (n : ℕ) (i : ℤ) →
        NotesTell
        (iterate fuel x (run_list (setting program.now fuel depth rs) body) again ns n i) }
    ensures calls { (depth : ℕ) (rs : List Reduce) (f : List ℕ) (place : Place) (ns : List ℤ)
        (begin : List Note)
        → write_cells begin ≡ [] →
        CallNotesTell ((setting program.now fuel depth rs).call f place ns begin) }
{}

/// More ticks and more output before a run only move its own, where the fuel suffices; else it
/// stops for want of fuel, having counted one tick more than that.
pub fn what_is_before_only_moves(program: &Program, fuel: u64)
    ensures statements { (depth : ℕ) (rs : List Reduce) (body : List statement.Stmt)
        → Moves fuel (run_list (setting program.now fuel depth rs) body) }
    ensures iterations { (depth : ℕ) (rs : List Reduce) (body : List statement.Stmt) (x : List ℕ)
        (again ns : List Note) →
        write_cells again ≡ [] → write_cells ns ≡ [] → (n : ℕ) (i : ℤ) →
        Moves fuel
        (iterate fuel x (run_list (setting program.now fuel depth rs) body) again ns n i) }
    ensures calls { (depth : ℕ) (rs : List Reduce) (f : List ℕ) (place : Place) (ns : List ℤ)
        (begin : List Note)
        → write_cells begin ≡ [] →
        CallMoves fuel ((setting program.now fuel depth rs).call f place ns begin) }
{}

/// A call sees no variables of its caller and leaves them as they are: with other variables it is
/// the same call, at any depth and however it stops.
pub fn calls_see_no_variables(program: &Program, fuel: u64)
    ensures kept { (depth : ℕ) (rs : List Reduce) (f : List ℕ) (place : Place) (ns : List ℤ)
        (begin : List Note) (s : State) →
        ((setting program.now fuel depth rs).call f place ns begin s).ran.state.vars ≡ s.vars }
    ensures unseen { (depth : ℕ) (rs : List Reduce) (f : List ℕ) (place : Place) (ns : List ℤ)
        (begin : List Note) (s : State) (vs : List Variable) →
        (setting program.now fuel depth rs).call f place ns begin (record s { vars = vs }) ≡
        leaving vs ((setting program.now fuel depth rs).call f place ns begin s) }
{}

/// Where the functions of a program neither print nor write cells, a call keeps the output and the
/// tables and notes no write. Statements with no `print` and no `emit` in them then keep the
/// output; those with no write to a cell in them keep the tables and note no write. So do their
/// iterations, and all this however they stop.
pub fn only_prints_print(program: &Program, fuel: u64)
    ensures statements { (depth : ℕ) (rs : List Reduce) (body : List statement.Stmt) (s : State) →
        All OnlyCounts program.now.funcs.items → All PrintsNothing body →
        (run_list (setting program.now fuel depth rs) body s).state.output ≡ s.output }
    ensures untouched { (prints : Bool) (depth : ℕ) (rs : List Reduce)
        (body : List statement.Stmt) (s : State) →
        All OnlyCounts program.now.funcs.items → All (StmtOnly false prints) body →
        Untouched s (run_list (setting program.now fuel depth rs) body s) }
    ensures iterations { (prints : Bool) (depth : ℕ) (rs : List Reduce)
        (body : List statement.Stmt) (x : List ℕ) (again ns : List Note) →
        write_cells again ≡ [] → write_cells ns ≡ [] → (n : ℕ) (i : ℤ) (s : State) →
        All OnlyCounts program.now.funcs.items → All (StmtOnly false prints) body →
        Untouched s
        (iterate fuel x (run_list (setting program.now fuel depth rs) body) again ns n i s) }
    ensures output { (depth : ℕ) (rs : List Reduce) (f : List ℕ) (place : Place) (ns : List ℤ)
        (begin : List Note) (s : State) →
        All OnlyCounts program.now.funcs.items →
        ((setting program.now fuel depth rs).call f place ns begin s).ran.state.output ≡ s.output }
    ensures tables { (depth : ℕ) (rs : List Reduce) (f : List ℕ) (place : Place) (ns : List ℤ)
        (begin : List Note) (s : State) →
        All OnlyCounts program.now.funcs.items →
        ((setting program.now fuel depth rs).call f place ns begin s).ran.state.tables ≡ s.tables }
    ensures writes { (depth : ℕ) (rs : List Reduce) (f : List ℕ) (place : Place) (ns : List ℤ)
        (begin : List Note) (s : State) →
        All OnlyCounts program.now.funcs.items → (c : Cell) →
        Contains
        (write_cells ((setting program.now fuel depth rs).call f place ns begin s).ran.notes) c →
        Contains (write_cells begin) c }
{}

/// Only a `leave` leaves, and only its nearest `par`: where no function has one outside of its
/// `par` loops, a call is never left; neither are statements with none outside of theirs, nor
/// iterations over such a body, nor the whole program where main is so.
pub fn only_leaves_leave(program: &Program, tables: &[Table], fuel: u64)
    ensures statements { (depth : ℕ) (rs : List Reduce) (body : List statement.Stmt) (s : State)
        (n : ℤ) →
        All IsNeverLeft program.now.funcs.items → LeavesNothing body →
        (run_list (setting program.now fuel depth rs) body s).stop ≢ Stop.Left n }
    ensures iterations { (depth : ℕ) (rs : List Reduce) (body : List statement.Stmt) (x : List ℕ)
        (again ns : List Note) (m : ℕ) (i : ℤ) (s : State) (n : ℤ) →
        All IsNeverLeft program.now.funcs.items → LeavesNothing body →
        (iterate fuel x (run_list (setting program.now fuel depth rs) body) again ns m i s).stop
        ≢ Stop.Left n }
    ensures calls { (depth : ℕ) (rs : List Reduce) (f : List ℕ) (place : Place) (ns : List ℤ)
        (begin : List Note) (s : State) (n : ℤ) →
        All IsNeverLeft program.now.funcs.items →
        ((setting program.now fuel depth rs).call f place ns begin s).ran.stop ≢ Stop.Left n }
    ensures outcome { (n : ℤ) →
        All IsNeverLeft program.now.funcs.items → LeavesNothing program.now.main.items →
        (meaning program.now tables.now fuel).stop ≢ Stop.Left n }
{}

/// Where a program lies in memory is no matter: two programs with one tree run in the same way over
/// the same tables, so they have the same outcome and the same chances to split off a task.
pub fn only_the_tree_counts(program: &Program, other: &Program, tables: &[Table], fuel: u64)
    ensures run { program_of program.now ≡ program_of other.now
        → whole_run program.now tables.now fuel ≡ whole_run other.now tables.now fuel }
    ensures outcome { program_of program.now ≡ program_of other.now
        → meaning program.now tables.now fuel ≡ meaning other.now tables.now fuel }
    ensures chances { program_of program.now ≡ program_of other.now
        → chances program.now tables.now fuel ≡ chances other.now tables.now fuel }
{}

/// The `par` loops of a `par` are itself and those of its body, where its variable is visible too
/// and where it is the nearest of the `par` loops round.
pub fn a_par_is_round_its_body(par: &Parallel)
    ensures { (vs : List (List ℕ)) (rounds : List Loop) → bodies vs rounds (Par par.now) ≡
        body_of vs rounds par.now
        ∷ bodies_of_list (vs ++ par.now.var.text.items ∷ [])
        ((body_of vs rounds par.now).loop ∷ rounds)
        par.now.body.items }
{}
