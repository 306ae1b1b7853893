// Laws of the verifier's definitions. The functions do nothing: their contracts are the laws.

ghost use Rattle.std.specs.Prelude.{◌≡◌, ◌↔◌, true, Some, None, List, [], ◌∷◌};
ghost use Rattle.tpal_syntax.specs.Listing.{Listing};
ghost use Rattle.tpal_verify.specs.Shapes.{Shape as Known, shape_below, joined};
ghost use Rattle.tpal_verify.specs.Flat.{ground_of};
ghost use Rattle.tpal_verify.specs.Rounds.{Shapes, flows_of, with_flows, holds_all, round, least};
ghost use Rattle.tpal_verify.specs.Rounds.{shapes_below};
ghost use Rattle.tpal_verify.specs.Walk.{Flow};
ghost use Rattle.tpal_syntax.specs.declared.instructions.Instr.TheVariants as instr;
ghost use Rattle.tpal_verify.specs.Breaks.{first_break, Accepted, MeetsRules};
ghost use Rattle.tpal_verify.specs.Sample.{sum, forks_twice, halts_at_end, swapped, goes_back};
ghost use Rattle.tpal_verify.specs.Sample.{tests_nil, tests_number, stops, writes_base};

/// What is known by two shapes together is known by each, and whatever is known by each is known by
/// them together.
pub fn joins_are_least()
    ensures left { (s t : Known) → shape_below s (joined s t) ≡ true }
    ensures right { (s t : Known) → shape_below t (joined s t) ≡ true }
    ensures least { (s t u : Known)
        → shape_below s u ≡ true
        → shape_below t u ≡ true
        → shape_below (joined s t) u ≡ true }
{}

/// A code is accepted exactly where some assignment of shapes meets the rules.
pub fn accepted_where_rules_are_met()
    ensures { (code : Listing) → Accepted code ↔ ((shapes : Shapes) × MeetsRules code shapes) }
{}

/// One more round changes nothing of the least assignment: all that flows by it is held by it. It
/// is below each assignment that meets the rules.
pub fn least_assignment()
    ensures held { (code : Listing)
        → holds_all (least (ground_of code)) (flows_of (ground_of code) (least (ground_of code)))
        ≡ true }
    ensures settled { (code : Listing)
        → round (ground_of code) (least (ground_of code)) ≡ least (ground_of code) }
    ensures below { (code : Listing) (shapes : Shapes)
        → MeetsRules code shapes
        → shapes_below (least (ground_of code)) shapes ≡ true }
{}

/// Flows may be joined in any order, and what is held already may be left out: where each of two
/// lists of flows is held by what the other one comes to, both come to the same.
pub fn flows_come_in_any_order()
    ensures { (shapes : Shapes) (flows others : List Flow)
        → holds_all (with_flows shapes others) flows ≡ true
        → holds_all (with_flows shapes flows) others ≡ true
        → with_flows shapes flows ≡ with_flows shapes others }
{}

/// What is answered of sample codes: none is broken of a sum that can be cut in two, of one whose
/// first block is entered again, of a test of nil, and of a stop; the others break a rule.
pub fn samples()
    ensures sum { first_break sum ≡ None }
    ensures second_fork { first_break forks_twice ≡ Some (5, 7, 5) }
    ensures halt_of_side { first_break halts_at_end ≡ Some (3, 4, 6) }
    ensures swapped_tests { first_break swapped ≡ Some (3, 2, 2) }
    ensures entered_again { first_break
        (goes_back (instr.PrmPop 31 0 ∷ instr.PrmPush 31 0 1 2 ∷ [])) ≡ None }
    ensures second_mark { first_break (goes_back (instr.PrmPush 31 0 1 2 ∷ []))
        ≡ Some (0, 1, 3) }
    ensures nil { first_break tests_nil ≡ None }
    ensures number { first_break tests_number ≡ Some (0, 3, 7) }
    ensures stop { first_break stops ≡ None }
    ensures base { first_break writes_base ≡ Some (1, 0, 1) }
{}
