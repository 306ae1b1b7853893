// What follows from the definitions alone: a loop or a pair of calls that is cut and merged is what
// it was.

ghost use Rattle.std.specs.Prelude.{◌≡◌, ◌≤◌, ◌+ℤ◌, ◌≤ℤ◌, ◌<ℤ◌, ℕ, true, false, ℤ, pos, List, []};
ghost use Rattle.std.specs.Prelude.{Contains, Some};
ghost use Rattle.tp_value.specs.declared.Op.{Op};
ghost use Rattle.tp_value.specs.declared.Stop.TheVariants.{Done, Left};
ghost use Rattle.loop_syntax.specs.declared.ParLoop.{ParLoop};
ghost use Rattle.loop_syntax.specs.declared.Func.{Func};
ghost use Rattle.loop_rules.specs.Names.{func_of, texts};
ghost use Rattle.loop_rules.specs.Sites.{Loop, Calls, Spot, site, sites, in_func};
ghost use Rattle.loop_check.specs.Unbroken.{NoneBroken};
ghost use Rattle.loop_meaning.specs.declared.frame.Frame.{Frame};
ghost use Rattle.loop_meaning.specs.declared.frame.Frame.TheVariants.{Range};
ghost use Rattle.loop_meaning.specs.State.{State, Note};
ghost use Rattle.loop_meaning.specs.Cells.{body_of, bodies_of, bodies_of_list};
ghost use Rattle.loop_meaning.specs.Frames.{OfPar, run_frame};
ghost use Rattle.frame_machine.specs.Modes.{Modes, modes_of};
ghost use Rattle.frame_machine.specs.Lawful.{Callable, Lawful};
ghost use Rattle.frame_machine.specs.Parts.{AgreeOn, NotesKeep};
ghost use Rattle.frame_machine.specs.Joins.{SameRound, names_of};
ghost use Rattle.frame_machine.specs.Iterating.{iterations_in, UpperSeen, UpperWritten, LowerSeen};
ghost use Rattle.frame_machine.specs.Iterating.{LowerWritten, NoCell, OnlyChances, CutLoop};
ghost use Rattle.frame_machine.specs.Iterating.{LoopCut, LoopLaw, FromUnits};
ghost use Rattle.frame_machine.specs.Splitting.{cut_of, parts_of, with_units};
ghost use Rattle.frame_machine.specs.Fitting.{Begun, Fits, RangeFits};
ghost use Rattle.frame_machine.specs.FrameLaws.{child_start, CutRange, RangeCut, RangeLaw, CutPair};
ghost use Rattle.frame_machine.specs.FrameLaws.{LawfulCalls, PairLaw, WholeCells, pair_frame};

use loop_syntax::Program;

/// Iterations of a lawful `par`, cut anywhere, from any first state within the fuel and under any
/// number of calls: the lower ones, then the upper ones from units on any tables that agree where
/// the upper ones may read, merged, are all of them. This is what the rule on reduced variables
/// means where there are no lower ones: from any accumulators the iterations end with these
/// combined with what they come to from units, and else alike.
pub fn iterations_join(program: &Program, fuel: u64)
    ensures joins { (outer : Modes) (l : ParLoop) (c : CutLoop) →
        Lawful program.now outer (names_of c.state.vars) l → LoopCut program.now outer l fuel c →
        LoopLaw program.now fuel outer l c }
    ensures from_units { (outer : Modes) (l : ParLoop) (c : CutLoop) →
        Lawful program.now outer (names_of c.state.vars) l →
        LoopCut program.now outer l fuel c → c.below ≡ 0 →
        FromUnits program.now fuel outer l c }
{}

/// Iterations of a lawful `par` with numbers below `c` read and write only cells that are theirs,
/// and so do those with numbers from `c` on, however they stop; and they show nothing. Where those
/// below `c` are done, or one of them is left, they leave what those from `c` on may begin with.
pub fn iterations_keep_apart(program: &Program, fuel: u64)
    ensures lower { (outer : Modes) (l : ParLoop) (room : ℕ) (again begin : List Note) (n : ℕ)
        (i c : ℤ) (s : State) →
        Lawful program.now outer (names_of s.vars) l → OnlyChances again → OnlyChances begin →
        (i +ℤ pos n) ≤ℤ c →
        NotesKeep (LowerSeen outer l s.vars c) (LowerWritten outer l s.vars c)
        (iterations_in program.now fuel room l again begin n i s).notes }
    ensures upper { (outer : Modes) (l : ParLoop) (room : ℕ) (again begin : List Note) (n : ℕ)
        (i c : ℤ) (s : State) →
        Lawful program.now outer (names_of s.vars) l → OnlyChances again → OnlyChances begin →
        c ≤ℤ i →
        NotesKeep (UpperSeen outer l s.vars c) (UpperWritten outer l s.vars c)
        (iterations_in program.now fuel room l again begin n i s).notes }
    ensures leaves { (outer : Modes) (l : ParLoop) (room : ℕ) (again begin : List Note) (n : ℕ)
        (i c : ℤ) (s : State) →
        Lawful program.now outer (names_of s.vars) l → OnlyChances again → OnlyChances begin →
        (i +ℤ pos n) ≤ℤ c → (iterations_in program.now fuel room l again begin n i s).stop ≡ Done →
        SameRound l.reduces.items s.vars
        (iterations_in program.now fuel room l again begin n i s).state.vars
        × AgreeOn (UpperSeen outer l s.vars c)
        (iterations_in program.now fuel room l again begin n i s).state.tables s.tables }
    ensures left { (outer : Modes) (l : ParLoop) (room : ℕ) (again begin : List Note) (n : ℕ)
        (i c m : ℤ) (s : State) →
        Lawful program.now outer (names_of s.vars) l → OnlyChances again → OnlyChances begin →
        (i +ℤ pos n) ≤ℤ c →
        (iterations_in program.now fuel room l again begin n i s).stop ≡ Left m →
        SameRound l.reduces.items s.vars
        (iterations_in program.now fuel room l again begin n i s).state.vars
        × AgreeOn (UpperSeen outer l s.vars c)
        (iterations_in program.now fuel room l again begin n i s).state.tables s.tables }
    ensures output { (outer : Modes) (l : ParLoop) (room : ℕ) (again begin : List Note) (n : ℕ)
        (i : ℤ) (s : State) →
        Lawful program.now outer (names_of s.vars) l → OnlyChances again → OnlyChances begin →
        (iterations_in program.now fuel room l again begin n i s).state.output ≡ s.output }
{}

/// A range of a lawful `par`, cut anywhere: the lower frame, then the upper frame from units,
/// merged, is the frame. Each of the two touches only cells of its own part.
pub fn ranges_join(program: &Program, fuel: u64)
    ensures joins { (outer : Modes) (l : ParLoop) (depth : ℕ) (c : CutRange) →
        Lawful program.now outer (names_of c.state.vars) l → RangeCut program.now outer l fuel c →
        RangeLaw program.now fuel depth outer l c }
    ensures lower { (outer : Modes) (l : ParLoop) (depth : ℕ) (next end c : ℤ)
        (accs : List (Op × ℤ)) (s : State) →
        Lawful program.now outer (names_of s.vars) l → next ≤ℤ end → end ≤ℤ c →
        NotesKeep (LowerSeen outer l s.vars c) (LowerWritten outer l s.vars c)
        (run_frame program.now fuel depth (OfPar l) (Range next end accs) s).ran.notes }
    ensures upper { (outer : Modes) (l : ParLoop) (depth : ℕ) (next end c : ℤ)
        (accs : List (Op × ℤ)) (s : State) →
        Lawful program.now outer (names_of s.vars) l → c ≤ℤ next →
        NotesKeep (UpperSeen outer l s.vars c) (UpperWritten outer l s.vars c)
        (run_frame program.now fuel depth (OfPar l) (Range next end accs) s).ran.notes }
{}

/// A pair of calls that may be made side by side: the first call alone, then the second alone from
/// no ticks on any tables that agree where they are whole, joined, is both. Each call reads only
/// cells of whole tables and writes none.
pub fn pairs_join(program: &Program, fuel: u64)
    ensures joins { (m : Modes) (depth : ℕ) (c : CutPair) →
        LawfulCalls program.now m c.first.text.items c.second.text.items →
        c.state.ticks ≤ fuel → AgreeOn (WholeCells m) c.tables c.state.tables →
        PairLaw program.now fuel depth c }
    ensures first { (m : Modes) (depth : ℕ) (c : CutPair) →
        LawfulCalls program.now m c.first.text.items c.second.text.items →
        NotesKeep (WholeCells m) NoCell
        (pair_frame program.now fuel depth c true false c.state).ran.notes }
    ensures second { (m : Modes) (depth : ℕ) (c : CutPair) →
        LawfulCalls program.now m c.first.text.items c.second.text.items →
        NotesKeep (WholeCells m) NoCell
        (pair_frame program.now fuel depth c true true
        (child_start c.vars c.tables)).ran.notes }
{}

/// Where no rule is broken, every `par` and every `both` of the program may be cut so: a range of a
/// `par` under the loops round it, and one of a `par` of a function wherever the tables that the
/// function reads are whole; and the calls of a `both` likewise.
pub fn frames_join(program: &Program, fuel: u64)
    ensures ranges { NoneBroken program.now → (rounds : List Loop) (l : ParLoop) (depth : ℕ)
        (c : CutRange) →
        Contains (bodies_of program.now) (body_of (names_of c.state.vars) rounds l) →
        RangeCut program.now (modes_of rounds) l fuel c →
        RangeLaw program.now fuel depth (modes_of rounds) l c }
    ensures ranges_of_functions { NoneBroken program.now → (f : List ℕ) (g : Func)
        (outer : Modes) (rounds : List Loop) (l : ParLoop) (depth : ℕ) (c : CutRange) →
        func_of program.now.funcs.items f ≡ Some g → Callable program.now outer f →
        Contains (bodies_of_list (texts g.params.items) [] g.body.items)
        (body_of (names_of c.state.vars) rounds l) →
        RangeCut program.now outer l fuel c →
        RangeLaw program.now fuel depth outer l c }
    ensures pairs { NoneBroken program.now → (w : Spot) (i j : ℕ) (depth : ℕ) (c : CutPair) →
        Contains (sites program.now) (site w (Calls c.first i)) →
        Contains (sites program.now) (site w (Calls c.second j)) →
        c.state.ticks ≤ fuel → AgreeOn (WholeCells (modes_of w.rounds)) c.tables c.state.tables →
        PairLaw program.now fuel depth c }
    ensures pairs_of_functions { NoneBroken program.now → (f : List ℕ) (g : Func) (m : Modes)
        (w : Spot) (i j : ℕ) (depth : ℕ) (c : CutPair) →
        func_of program.now.funcs.items f ≡ Some g → Callable program.now m f →
        Contains (in_func program.now g) (site w (Calls c.first i)) →
        Contains (in_func program.now g) (site w (Calls c.second j)) →
        c.state.ticks ≤ fuel → AgreeOn (WholeCells m) c.tables c.state.tables →
        PairLaw program.now fuel depth c }
{}

/// Both parts of a frame that fits its source fit it too, wherever a range is cut, so that each may
/// be cut again; and `split_range` leaves at least one iteration to the upper part.
pub fn parts_fit(program: &Program)
    ensures split { (begun : Begun) (frame low up : Frame) →
        Fits begun frame → parts_of frame ≡ Some (low, up) → Fits begun low × Fits begun up }
    ensures lower { (l : ParLoop) (first last next middle end : ℤ) (accs : List (Op × ℤ)) →
        RangeFits l first last next end accs → next ≤ℤ middle → middle ≤ℤ end →
        RangeFits l first last next middle accs }
    ensures upper { (l : ParLoop) (first last next middle end : ℤ) (accs : List (Op × ℤ)) →
        RangeFits l first last next end accs → next ≤ℤ middle → middle ≤ℤ end →
        RangeFits l first last middle end (with_units accs) }
    ensures cut { (next end middle : ℤ) →
        cut_of next end ≡ Some middle → (next ≤ℤ middle) × (middle <ℤ end) }
{}
