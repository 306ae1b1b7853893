// What lies in the slots of a record: a rest, a child, and the outcomes of the two sides.

ghost use Rattle.std.specs.Prelude.{◌≡◌, Some};
ghost use Rattle.join_records.specs.declared.slot.Item.TheVariants.{Rest, Child, Side};

/// What lies in a slot of a record that isn't empty.
#[derive(Drop)]
pub enum Item<R, C, D> {
    /// What waits for both sides.
    Rest(R),
    /// What starts at the right end.
    Child(C),
    /// The outcome of a side.
    Side(D),
}

pub(crate) fn child_in<R: Drop, C: Drop, D: Drop>(item: Option<Item<R, C, D>>) -> C
    requires { (c : C) × (item ≡ Some (Child c)) }
    ensures { item ≡ Some (Child result) }
{
    match item {
        Some(Item::Child(child)) => child,
        Some(Item::Rest(_)) => unreachable!(),
        Some(Item::Side(_)) => unreachable!(),
        None => unreachable!(),
    }
}

pub(crate) fn rest_in<R: Drop, C: Drop, D: Drop>(item: Option<Item<R, C, D>>) -> R
    requires { (r : R) × (item ≡ Some (Rest r)) }
    ensures { item ≡ Some (Rest result) }
{
    match item {
        Some(Item::Rest(rest)) => rest,
        Some(Item::Child(_)) => unreachable!(),
        Some(Item::Side(_)) => unreachable!(),
        None => unreachable!(),
    }
}

pub(crate) fn side_in<R: Drop, C: Drop, D: Drop>(item: Option<Item<R, C, D>>) -> D
    requires { (d : D) × (item ≡ Some (Side d)) }
    ensures { item ≡ Some (Side result) }
{
    match item {
        Some(Item::Side(side)) => side,
        Some(Item::Rest(_)) => unreachable!(),
        Some(Item::Child(_)) => unreachable!(),
        None => unreachable!(),
    }
}
