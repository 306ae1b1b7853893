// The first broken rule that was found so far.

ghost use Rattle.std.specs.Prelude.{◌≡◌, ◌∷◌, [], cond};
ghost use Rattle.loop_rules.specs.Scopes.{is_before};
ghost use Rattle.loop_rules.specs.Search.{is_first, lower, lowest};

use crate::rule::Rule;
use tp_value::Place;

/// A broken rule, and where.
#[derive(Clone, Copy, PartialEq, Eq, Debug)]
pub struct Fault {
    /// The rule.
    pub rule: Rule,
    /// The place.
    pub place: Place,
}

/// Whether one place comes before another.
pub fn is_before(place: Place, other: Place) -> bool
    ensures { result ≡ is_before place other }
{
    place.line < other.line || (place.line == other.line && place.col < other.col)
}

/// Whether a fault comes first: by place, and at one place by the rule's number.
fn is_first(fault: Fault, other: Fault) -> bool
    ensures { result ≡ is_first fault other }
{
    let is_smaller = fault.rule.number() < other.rule.number();
    is_before(fault.place, other.place)
        || (fault.place.line == other.place.line
            && fault.place.col == other.place.col
            && is_smaller)
}

/// Keeps the first of what was found and one more fault.
pub fn note(found: &mut Option<Fault>, rule: Rule, place: Place)
    ensures { found.new ≡ lower found.old (record { rule = rule; place = place }) }
{
    let fault = Fault { rule, place };
    match *found {
        None => *found = Some(fault),
        Some(before) => {
            if is_first(fault, before) {
                *found = Some(fault);
            }
        }
    }
}

/// The same, where the rule is broken.
pub fn note_if(found: &mut Option<Fault>, rule: Rule, broken: bool, place: Place)
    ensures { found.new ≡ lowest found.old rule (cond broken (place ∷ []) []) }
{
    if broken {
        note(found, rule, place);
    }
}
