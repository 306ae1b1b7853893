// What follows from the rules: which cells an iteration of a `par` touches, and that a program's
// tree alone decides which rule is the first broken one.

ghost use Rattle.std.specs.Prelude.{◌≡◌, ℕ};
ghost use Rattle.tp_value.specs.declared.Place.{Place};
ghost use Rattle.loop_syntax.specs.Tree.{program_of};
ghost use Rattle.loop_meaning.specs.Cells.{Disjoint};
ghost use Rattle.loop_check.specs.Checking.{IsFirstBroken};
ghost use Rattle.loop_check.specs.Parts.{Parted};
ghost use Rattle.loop_check.specs.Spared.{Spared};
ghost use Rattle.loop_check.specs.Unbroken.{NoneBroken};

use loop_syntax::Program;

/// Where no rule is broken, no cell that an iteration of a `par` writes is read or written by
/// another one.
pub fn disjoint(program: &Program)
    ensures { NoneBroken program.now → Disjoint program.now }
{}

/// Where no rule is broken, an iteration of a `par` writes carried tables alone, touches of each of
/// them only its item's part, and leaves the variables round the loop that it doesn't reduce.
pub fn parted(program: &Program)
    ensures { NoneBroken program.now → Parted program.now }
{}

/// Where no rule is broken, an iteration of a `par` reads and writes no table that a `par` round it
/// carries and its own doesn't, itself or in what it calls, and it prints nothing. A call writes no
/// cell and prints nothing.
pub fn spared(program: &Program)
    ensures { NoneBroken program.now → Spared program.now }
{}

/// Where a program lies in memory is no matter: of two programs with one tree both break no rule at
/// all or neither, and both have the same first broken one of those that `check` looks at.
pub fn only_the_tree_counts(program: &Program, other: &Program)
    ensures unbroken { program_of program.now ≡ program_of other.now → NoneBroken program.now →
        NoneBroken other.now }
    ensures broken { program_of program.now ≡ program_of other.now
        → (rule : ℕ) (place : Place)
        → IsFirstBroken program.now rule place
        → IsFirstBroken other.now rule place }
{}

/// Of the rules that `check` looks at a program has one first broken rule, and none where it breaks
/// no rule.
pub fn one_rule_is_first(program: &Program)
    ensures alone { (rule other : ℕ) (place elsewhere : Place)
        → IsFirstBroken program.now rule place
        → IsFirstBroken program.now other elsewhere
        → (rule ≡ other) × (place ≡ elsewhere) }
    ensures not_both { (rule : ℕ) (place : Place) → NoneBroken program.now →
        IsFirstBroken program.now rule place → ⊥ }
{}
