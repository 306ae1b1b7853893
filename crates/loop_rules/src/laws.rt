// What follows from the rules alone.

ghost use Rattle.std.specs.Prelude.{◌≡◌, ℕ};
ghost use Rattle.tp_value.specs.declared.Place.{Place};
ghost use Rattle.loop_syntax.specs.Tree.{program_of};
ghost use Rattle.loop_rules.specs.Resolving.{IsFirstBroken};
ghost use Rattle.loop_rules.specs.Unbroken.{IsResolved};

use loop_syntax::Program;

/// Where a program lies in memory is no matter: of two programs with one tree both break no rule
/// that `resolve` looks at, or both have the same first broken one.
pub fn only_the_tree_counts(program: &Program, other: &Program)
    ensures resolved { program_of program.now ≡ program_of other.now → IsResolved program.now →
        IsResolved other.now }
    ensures broken { program_of program.now ≡ program_of other.now → (rule : ℕ) (place : Place) →
        IsFirstBroken program.now rule place → IsFirstBroken other.now rule place }
{}

/// A program has one first broken rule, and none where it breaks none.
pub fn one_rule_is_first(program: &Program)
    ensures alone { (rule other : ℕ) (place elsewhere : Place) →
        IsFirstBroken program.now rule place →
        IsFirstBroken program.now other elsewhere
        → (rule ≡ other) × (place ≡ elsewhere) }
    ensures not_both { (rule : ℕ) (place : Place) → IsResolved program.now →
        IsFirstBroken program.now rule place → ⊥ }
{}
