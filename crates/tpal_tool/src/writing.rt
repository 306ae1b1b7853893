// Writing texts, each on its own and in pieces.

ghost use Rattle.std.specs.Prelude.{◌≡◌, ◌≢◌, ◌<◌, ◌≤◌, [], length, OnOk, OnErr, IsErrOf};
ghost use Rattle.tpal_tool.specs.Answering.{whole_of};
ghost use Rattle.tpal_tool.specs.Shelf.{HasRisen};
ghost use Rattle.tpal_tool.specs.Sink.{Appended, PrefixAppended};

use crate::answer::Texts;
use crate::sink::{Sink, SinkFault};

/// The bytes of each piece but the last, which has 1 to so many.
pub const PIECE_BYTES: usize = 65_536;

/// Writes a text, in pieces of `PIECE_BYTES` bytes. An empty text makes no write. After a fault
/// nothing more is written.
pub fn write_text<K: Sink>(sink: &mut K, text: &[u8]) -> Result<(), SinkFault>
    ensures whole { OnOk result (Appended (K.written sink.old) (K.written sink.new) text.now) }

    ensures failed { IsErrOf result SinkFault.Failed
        → HasRisen (K.faults sink.old) (K.faults sink.new) }
    ensures some { OnErr result (0 < length text.now) }
    ensures prefix { OnErr result
        (PrefixAppended (K.written sink.old) (K.written sink.new) text.now) }

    ensures empty { text.now ≡ [] → sink.new ≡ sink.old }
    ensures count { K.faults sink.old ≤ K.faults sink.new }
{
    let mut rest = text;
    while !rest.is_empty() {
        let (piece, later) = rest.split_at(rest.len().min(PIECE_BYTES));
        sink.write(piece)?;
        rest = later;
    }
    Ok(())
}

/// Writes texts, one behind the other and each on its own. After a fault nothing more is written.
pub fn write_texts<K: Sink>(sink: &mut K, texts: &Texts) -> Result<(), SinkFault>
    ensures whole { OnOk result
        (Appended (K.written sink.old) (K.written sink.new) (whole_of texts.now)) }

    ensures failed { IsErrOf result SinkFault.Failed
        → HasRisen (K.faults sink.old) (K.faults sink.new) }
    ensures some { OnErr result (whole_of texts.now ≢ []) }
    ensures prefix { OnErr result
        (PrefixAppended (K.written sink.old) (K.written sink.new) (whole_of texts.now)) }
{
    match texts {
        Texts::One(text) => write_text(sink, text),
        Texts::Shown {
            code,
            output,
            counts,
        } => {
            write_text(sink, code)?;
            write_text(sink, output)?;
            write_text(sink, counts)
        }
    }
}
