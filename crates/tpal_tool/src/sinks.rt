// A sink in memory.

ghost use Rattle.std.specs.Prelude.{◌≡◌, ◌≤◌, ◌++◌, [], Some, None, take, OnOk, IsNone, IsSomeAnd};
ghost use Rattle.std.specs.Prelude.{IsErrOf};
ghost use Rattle.tpal_tool.specs.Shelf.{HasRisen, call_after, count_after};
ghost use Rattle.tpal_tool.specs.Sink.{Appended, PrefixAppended, kept_at};

use crate::sink::{Sink, SinkFault};

/// A sink that tells its bytes and fails where it is told to. Calls are numbered from 0. A call
/// that finds no memory changes nothing, so the next one has its number.
#[derive(Drop)]
pub struct MemSink {
    /// The bytes written so far.
    pub bytes: Vec<u8>,
    /// The numbers of calls that fail, each with the number of bytes that it keeps of its piece, at
    /// most the piece. Of two entries for one call the first counts.
    pub fails: Vec<(u32, u32)>,
    /// The number of the next call. It stands still at its type's end.
    pub calls: u32,
    /// How many calls have failed. It stands still at its type's end.
    pub faults: u64,
}

impl Sink for MemSink {
    ghost written = { λ sink. Some sink.bytes.items };

    ghost faults = { λ sink. sink.faults };

    fn write(&mut self, piece: &[u8]) -> Result<(), SinkFault>
        ensures appended { OnOk result
            (Appended (Some self.old.bytes.items) (Some self.new.bytes.items) piece.now) }

        ensures failed { IsErrOf result SinkFault.Failed
            → HasRisen self.old.faults self.new.faults }
        ensures prefix { IsErrOf result SinkFault.Failed
            → PrefixAppended (Some self.old.bytes.items) (Some self.new.bytes.items) piece.now }
        ensures no_memory { IsErrOf result SinkFault.NoMemory
            → Appended (Some self.old.bytes.items) (Some self.new.bytes.items) [] }

        ensures count { self.old.faults ≤ self.new.faults }

        // It fails where it is told to, and keeps what it is told to.
        ensures listed { IsErrOf result SinkFault.Failed
            → IsSomeAnd (kept_at self.old.fails.items self.old.calls)
            (λ kept. self.new.bytes.items ≡ self.old.bytes.items ++ take kept piece.now) }
        ensures unlisted { OnOk result (IsNone (kept_at self.old.fails.items self.old.calls)) }

        // What it leaves.
        ensures fails { self.new.fails ≡ self.old.fails }
        ensures after_ok { OnOk result
            ((self.new.calls ≡ call_after self.old.calls) × (self.new.faults ≡ self.old.faults)) }
        ensures after_failed { IsErrOf result SinkFault.Failed
            → (self.new.calls ≡ call_after self.old.calls)
            × (self.new.faults ≡ count_after self.old.faults) }
        ensures after_no_memory { IsErrOf result SinkFault.NoMemory
            → (self.new.calls ≡ self.old.calls) × (self.new.faults ≡ self.old.faults)
            × (self.new.bytes.items ≡ self.old.bytes.items) }
    {
        match kept_of(&self.fails, self.calls) {
            None => {
                self.bytes.extend_from_slice(piece)?;
                self.calls = self.calls.saturating_add(1);
                Ok(())
            }
            Some(kept) => {
                let kept = piece.len().min(kept as usize);
                self.bytes.extend_from_slice(&piece[..kept])?;
                self.calls = self.calls.saturating_add(1);
                self.faults = self.faults.saturating_add(1);
                Err(SinkFault::Failed)
            }
        }
    }
}

// How many bytes a call keeps, where it is listed.
fn kept_of(fails: &[(u32, u32)], call: u32) -> Option<u32>
    ensures { result ≡ kept_at fails.now call }
{
    fails
        .iter()
        .find(|entry| entry.0 == call)
        .map(|entry| entry.1)
}
