// What the joins of sides find: one join that stands for all.

ghost use Rattle.std.specs.Prelude.{◌≡◌, IfOk, [], ◌∷◌};
ghost use Rattle.tpal_verify.specs.Rounds.{join_in, with_join, all_joins, found};
ghost use Rattle.tpal_verify.specs.Agreement.{kind_agreed, kinds_agreed, agreed_with, StandsFor};

use crate::kinds::{Kind, is_same};
use crate::shape::{copied, kind_in};
use crate::trace::Trace;
use std::alloc::{AllocError, Global};
use tp_value::{Items, NoMemory};

fn agreed(a: Kind, b: Kind) -> Kind
    ensures { result ≡ kind_agreed a b }
{
    if is_same(a, b) { a } else { Kind::Any }
}

fn agreed_kinds(alloc: Global, kinds: &[Kind], others: &[Kind]) -> Result<Vec<Kind>, AllocError>
    ensures { IfOk result (λ both. both.items ≡ kinds_agreed kinds.now others.now) }
{
    kinds
        .iter()
        .zip(others)
        .map(|(a, b)| agreed(*a, *b))
        .collect(alloc)
}

/// The kinds on which a join agrees with those so far.
fn agreed_with(
    alloc: Global,
    kinds: Option<Items<Kind>>,
    join: &[Kind],
) -> Result<Items<Kind>, NoMemory>
    ensures { IfOk result (λ both. Some both ≡ agreed_with kinds (Some join.now)) }
{
    match kinds {
        None => Ok(Items::new(copied(alloc, join)?)),
        Some(kinds) => Ok(Items::new(agreed_kinds(alloc, kinds.items(), join)?)),
    }
}

/// The same for a block, which may have no such join.
fn agreed_in(
    alloc: Global,
    kinds: Option<Items<Kind>>,
    trace: &Option<Trace>,
) -> Result<Option<Items<Kind>>, NoMemory>
    ensures { IfOk result (λ both. both ≡ agreed_with kinds (join_in trace.now)) }
{
    match trace {
        Some(trace) => match &trace.join {
            Some(join) => Ok(Some(agreed_with(alloc, kinds, join.items())?)),
            None => Ok(kinds),
        },
        None => Ok(kinds),
    }
}

/// One join in the place of all: of each register the kind that it has at every one, else Any.
pub(crate) fn agreement(
    alloc: Global,
    traces: &[Option<Trace>],
) -> Result<Option<Items<Kind>>, NoMemory>
    ensures { IfOk result (λ kinds. StandsFor (with_join kinds []) (all_joins traces.now)) }
{
    let mut kinds = None;
    let mut rest = traces;
    while let Some((trace, behind)) = rest.split_first() {
        kinds = agreed_in(alloc, kinds, trace)?;
        rest = behind;
    }
    Ok(kinds)
}

/// The kind in which a listed register comes back, where one join stands for all.
pub(crate) fn found(join: &[Kind], r: u8) -> Kind
    ensures { result ≡ found (join.now ∷ []) r }
{
    match kind_in(join, r as usize) {
        Kind::Number => Kind::Number,
        Kind::Empty => Kind::Any,
        Kind::Own => Kind::Met,
        Kind::Up => Kind::Any,
        Kind::Pend => Kind::Any,
        Kind::Met => Kind::Any,
        Kind::Back(_) => Kind::Any,
        Kind::Any => Kind::Any,
    }
}
