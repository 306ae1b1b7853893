// What a pool puts into records.

/// What lies in records, and what is known of it. A type that implements it has no functions: the
/// facts are relations that contracts speak of, and the laws are what the pool must prove of them.
pub trait Load {
    ghost use Rattle.std.specs.Prelude.{◌≡◌};
    ghost use Rattle.tpal_machine.specs.declared.ends.End.{End};

    /// What waits at a record until both sides have arrived, and is merged with their outcomes.
    type Rest: Drop + Send;

    /// What starts at the right end of a record, once it is claimed.
    type Child: Drop + Send;

    /// The outcome of a side.
    type Side: Drop + Send;

    /// What is owed at an end. No value of it is ever made.
    type Ending;

    /// Whether a child has this end.
    ghost has_end: { Self.Child → End → Type 0 };

    /// Whether a rest keeps this end.
    ghost keeps: { Self.Rest → End → Type 0 };

    /// Whether a child owes this ending.
    ghost owes: { Self.Child → Self.Ending → Type 0 };

    /// Whether a side that arrives at this end is this ending.
    ghost is_ending: { Self.Side → End → Self.Ending → Type 0 };

    /// Whether a rest owes the last of these endings, where the first two are those of its record's
    /// left and right ends.
    ghost rest_owes: { Self.Rest → Self.Ending → Self.Ending → Self.Ending → Type 0 };

    /// A child owes at most one ending.
    ghost child_owes_one: { (c : Self.Child) (a b : Self.Ending) → owes c a → owes c b → a ≡ b };

    /// A side is at most one ending for an end.
    ghost side_is_one: { (s : Self.Side) (e : End) (a b : Self.Ending) → is_ending s e a →
        is_ending s e b
        → a ≡ b };

    /// A rest owes at most one ending for two endings.
    ghost rest_owes_one: { (r : Self.Rest) (p q a b : Self.Ending) → rest_owes r p q a →
        rest_owes r p q b → a ≡ b };
}
