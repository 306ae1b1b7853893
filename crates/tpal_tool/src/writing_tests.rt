// The pieces in which a text is written.

ghost use Rattle.std.specs.Prelude.{None};

use crate::writing::write_text;
use crate::{MemSink, Sink, SinkFault};
use std::alloc::AllocError;
use std::test::Fail;

// A sink that keeps the length of each piece.
#[derive(Drop)]
struct Lengths {
    pieces: Vec<usize>,
}

impl Sink for Lengths {
    ghost written = { λ _. None };

    ghost faults = { λ _. 0 };

    fn write(&mut self, piece: &[u8]) -> Result<(), SinkFault> {
        self.pieces.push(piece.len()).map_err(AllocError::from)?;
        Ok(())
    }
}

#[test]
fn texts_are_written_in_pieces(rt: HostRuntime) -> Result<(), Fail> {
    let cases = [
        (0, [].as_slice()),
        (1, &[1]),
        (65_536, &[65_536]),
        (65_537, &[65_536, 1]),
        (131_072, &[65_536, 65_536]),
    ];
    for (length, pieces) in cases {
        let mut sink = Lengths {
            pieces: Vec::new(rt.alloc()),
        };
        let text = vec![in rt.alloc(); b'x'; length]?;
        write_text(&mut sink, &text)?;
        assert_eq!(rt; sink.pieces.as_slice(), pieces);
    }
    Ok(())
}

#[test]
fn a_text_ends_at_a_fault(rt: HostRuntime) -> Result<(), Fail> {
    let mut sink = MemSink {
        bytes: Vec::new(rt.alloc()),
        fails: Vec::from_slice(rt.alloc(), &[(1, 3)])?,
        calls: 0,
        faults: 0,
    };
    let text = vec![in rt.alloc(); b'x'; 200_000]?;
    assert_eq!(rt; write_text(&mut sink, &text), Err(SinkFault::Failed));
    assert_eq!(rt; sink.bytes.len(), 65_539);
    assert_eq!(rt; sink.calls, 2);
    Ok(())
}
