// Shelves in memory.

ghost use Rattle.std.specs.Prelude.{◌≡◌, ◌≢◌, ◌⊎◌, ◌↔◌, ◌<◌, ◌≤◌, ℕ, List, Some, None, Contains};
ghost use Rattle.std.specs.Prelude.{length, option_copied, Err, IfOk, OnOk, IfSome, IsNone};
ghost use Rattle.std.specs.Prelude.{IsErrOf};
ghost use Rattle.tpal_tool.specs.Shelf.{HasRisen, call_after, count_after, text_of, text_or_empty};

use crate::shelf::{Shelf, ShelfFault};
use std::alloc::Global;

/// A shelf that tells its texts and fails where it is told to. Calls are numbered from 0, and a
/// call whose number is in `fails`, or that asks for an absent name, fails. A call that finds no
/// memory changes nothing, so the next one has its number.
#[derive(Drop)]
pub struct MemShelf {
    /// Names with their texts. Of two with one name the first counts.
    pub texts: Vec<(String, Vec<u8>)>,
    /// The numbers of calls that fail.
    pub fails: Vec<u32>,
    /// The number of the next call. It stands still at its type's end.
    pub calls: u32,
    /// How many calls have failed. It stands still at its type's end.
    pub faults: u64,
}

impl Shelf for MemShelf {
    ghost text = { λ shelf name. text_of shelf.texts.items name };

    ghost faults = { λ shelf _. shelf.faults };

    fn fetch(&mut self, alloc: Global, name: &str, limit: u32) -> Result<Vec<u8>, ShelfFault>
        ensures told { IfOk result
            (λ bytes. IfSome (text_of self.old.texts.items name.now) (λ told. bytes.items ≡ told)) }
        ensures within { IfOk result (λ bytes. length bytes.items ≤ limit) }

        ensures failed { IsErrOf result ShelfFault.Failed
            → HasRisen self.old.faults self.new.faults }
        ensures long { IsErrOf result ShelfFault.Long
            → IfSome (text_of self.old.texts.items name.now) (λ told. limit < length told) }

        ensures texts { (other : List ℕ)
            → text_of self.new.texts.items other ≡ text_of self.old.texts.items other }
        ensures counts { self.old.faults ≤ self.new.faults }

        // It fails where it is told to, and at absent names.
        ensures fails { IsErrOf result ShelfFault.Failed
            ↔ (Contains self.old.fails.items self.old.calls
            ⊎ IsNone (text_of self.old.texts.items name.now)) }

        // What it leaves.
        ensures after_ok { OnOk result
            (self.new ≡ record self.old { calls = call_after self.old.calls }) }
        ensures after_failed { IsErrOf result ShelfFault.Failed
            → self.new
            ≡ record self.old
            { calls = call_after self.old.calls; faults = count_after self.old.faults } }
        ensures after_long { IsErrOf result ShelfFault.Long
            → self.new ≡ record self.old { calls = call_after self.old.calls } }
        ensures after_no_memory { IsErrOf result ShelfFault.NoMemory → self.new ≡ self.old }
    {
        let found = if self.fails.contains(&self.calls) {
            None
        } else {
            find_text(&self.texts, name)
        };
        let Some(text) = found else {
            self.calls = self.calls.saturating_add(1);
            self.faults = self.faults.saturating_add(1);
            return Err(ShelfFault::Failed);
        };
        if text.len() > limit as usize {
            self.calls = self.calls.saturating_add(1);
            return Err(ShelfFault::Long);
        }
        let bytes = Vec::from_slice(alloc, text)?;
        self.calls = self.calls.saturating_add(1);
        Ok(bytes)
    }
}

/// A shelf that never fails. An absent name stands for the empty text.
#[derive(Drop)]
pub struct SureShelf {
    /// Names with their texts. Of two with one name the first counts.
    pub texts: Vec<(String, Vec<u8>)>,
}

impl Shelf for SureShelf {
    ghost text = { λ shelf name. Some (text_or_empty shelf.texts.items name) };

    ghost faults = { λ _ _. 0 };

    fn fetch(&mut self, alloc: Global, name: &str, limit: u32) -> Result<Vec<u8>, ShelfFault>
        ensures told { IfOk result
            (λ bytes. bytes.items ≡ text_or_empty self.old.texts.items name.now) }
        ensures within { IfOk result (λ bytes. length bytes.items ≤ limit) }

        ensures never_fails { result ≢ Err ShelfFault.Failed }
        ensures long { IsErrOf result ShelfFault.Long
            ↔ (limit < length (text_or_empty self.old.texts.items name.now)) }

        ensures same { self.new ≡ self.old }
    {
        let bytes = find_text(&self.texts, name).unwrap_or(&[]);
        if bytes.len() > limit as usize {
            return Err(ShelfFault::Long);
        }
        Ok(Vec::from_slice(alloc, bytes)?)
    }
}

// The text that stands first under a name.
fn find_text<'a>(texts: &'a [(String, Vec<u8>)], name: &str) -> Option<&'a [u8]>
    ensures { option_copied result ≡ text_of texts.now name.now }
{
    texts
        .iter()
        .find(|entry| entry.0.as_str() == name)
        .map(|entry| entry.1.as_slice())
}
