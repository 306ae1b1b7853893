// The standard output as a sink.

ghost use Rattle.std.specs.Prelude.{◌≡◌, ◌≢◌, ◌≤◌, None, Err, OnOk, OnErr};
ghost use Rattle.tpal_tool.specs.Shelf.{HasRisen, count_after};
ghost use Rattle.tpal_tool.specs.Sink.{Appended, PrefixAppended};

use crate::sink::{Sink, SinkFault};
use std::io;
use std::io::Write;

/// The standard output of a runtime, as a sink. It tells no bytes and takes no memory.
#[derive(Drop)]
pub struct OutSink<R: Print> {
    /// What prints.
    pub rt: R,
    /// How many writes have failed. It stands still at its type's end.
    pub faults: u64,
}

impl<R: Print> Sink for OutSink<R> {
    ghost written = { λ _. None };

    ghost faults = { λ sink. sink.faults };

    fn write(&mut self, piece: &[u8]) -> Result<(), SinkFault>
        ensures failed { OnErr result (HasRisen self.old.faults self.new.faults) }
        ensures count { self.old.faults ≤ self.new.faults }

        ensures takes_no_memory { result ≢ Err SinkFault.NoMemory }

        // What it leaves.
        ensures after_ok { OnOk result (self.new ≡ self.old) }
        ensures after_failed { OnErr result
            (self.new ≡ record self.old { faults = count_after self.old.faults }) }
    {
        match write_whole(&mut io::writer(&self.rt), piece) {
            Ok(()) => Ok(()),
            Err(_) => {
                self.faults = self.faults.saturating_add(1);
                Err(SinkFault::Failed)
            }
        }
    }
}

// Writes all of a piece, one write after another. A write that takes nothing is an error.
fn write_whole<W: Write>(to: &mut W, piece: &[u8]) -> io::Result<()>
    ensures whole { OnOk result (Appended (W.contents to.old) (W.contents to.new) piece.now) }
    ensures prefix { OnErr result
        (PrefixAppended (W.contents to.old) (W.contents to.new) piece.now) }
{
    let mut rest = piece;
    while !rest.is_empty() {
        match to.write(rest) {
            Ok(0) => return Err(io::ErrorKind::WriteZero.into()),
            Ok(taken) => rest = &rest[taken..],
            Err(error) => return Err(error),
        }
    }
    Ok(())
}
