// Fetching the texts that a call names.

ghost use Rattle.std.specs.Prelude.{◌≡◌, ◌≤◌, ℕ, List, IfErr, IfOk, IfSome, IsSomeAnd, length};
ghost use Rattle.std.specs.Prelude.{option_map};
ghost use Rattle.tp_value.specs.declared.limits.TheConstants.{MAX_TABLES_BYTES};
ghost use Rattle.tpal_tool.specs.Answering.{IsFaultOf, RefusesLength, RefusesTablesLength};
ghost use Rattle.tpal_tool.specs.Shelf.{HasRisen};
ghost use Rattle.tpal_tool.specs.Told.{text_over};

use crate::refusal::{CallFault, Refusal};
use crate::shelf::{Shelf, ShelfFault};
use std::alloc::Global;
use tp_value::MAX_TABLES_BYTES;

/// The most bytes of a code text.
pub const MAX_CODE_BYTES: u32 = 67_108_864;

/// The text of a name, of at most `limit` bytes.
pub fn fetched<S: Shelf>(
    alloc: Global,
    name: &str,
    limit: u32,
    shelf: &mut S,
) -> Result<Vec<u8>, CallFault>
    ensures told { IfOk result
        (λ text. IfSome (S.text shelf.old name.now) (λ told. text.items ≡ told)) }
    ensures within { IfOk result (λ text. length text.items ≤ limit) }
    ensures fault { IfErr result
        (IsFaultOf (RefusesLength (S.text shelf.old name.now) limit name.now)
        (HasRisen (S.faults shelf.old name.now) (S.faults shelf.new name.now))) }
    ensures texts { (other : List ℕ) → S.text shelf.new other ≡ S.text shelf.old other }
    ensures counts { (other : List ℕ) → S.faults shelf.old other ≤ S.faults shelf.new other }
{
    match shelf.fetch(alloc, name, limit) {
        Ok(text) => Ok(text),
        Err(ShelfFault::Failed) => Err(CallFault::ReadFailed),
        Err(ShelfFault::Long) => {
            let name = String::from_str(alloc, name)?;
            Err(CallFault::Refused(Refusal::TooLong(name)))
        }
        Err(ShelfFault::NoMemory) => Err(CallFault::NoMemory),
    }
}

/// The tables text of a name, or the empty one.
pub fn fetched_tables<S: Shelf>(
    alloc: Global,
    name: Option<&str>,
    shelf: &mut S,
) -> Result<Vec<u8>, CallFault>
    ensures told { IfOk result
        (λ text. IfSome (text_over (S.text shelf.old) (option_map (λ t. t.now) name.entry))
        (λ told. told ≡ text.items)) }
    ensures within { IfOk result (λ text. length text.items ≤ MAX_TABLES_BYTES) }
    ensures fault { IfErr result
        (IsFaultOf (RefusesTablesLength (S.text shelf.old) (option_map (λ t. t.now) name.entry))
        (IsSomeAnd (option_map (λ t. t.now) name.entry)
        (λ n. HasRisen (S.faults shelf.old n) (S.faults shelf.new n)))) }
{
    match name {
        None => Ok(Vec::new(alloc)),
        Some(name) => fetched(alloc, name, MAX_TABLES_BYTES, shelf),
    }
}
