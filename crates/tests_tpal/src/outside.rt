// Each shelf and sink once.

use crate::harness::{empty_sink, texts_of, words_of};
use std::alloc::{AllocError, Global};
use std::process::Abort;
use std::test::Fail;
use tpal_tool::{
    FileShelf, MemShelf, MemSink, OutSink, Shelf, ShelfFault, Sink, SinkFault, Status, SureShelf,
    asks_for_many, tpal_alone,
};

fn texts(alloc: Global) -> Result<Vec<(String, Vec<u8>)>, AllocError> {
    texts_of(alloc, &[("p", b"abc"), ("t", b"12345")])
}

// Fetches once by this name and with this limit, and compares the text or the fault.
fn expect_fetch<R: Abort + AllocGlobal, S: Shelf>(
    rt: &R,
    shelf: &mut S,
    (name, limit): (&str, u32),
    wanted: Result<&[u8], ShelfFault>,
) {
    match (shelf.fetch(rt.alloc(), name, limit), wanted) {
        (Ok(bytes), Ok(text)) => assert_eq!(rt; bytes.as_slice(), text, "{name}"),
        (Err(found), Err(fault)) => assert_eq!(rt; found, fault, "{name}"),
        (Ok(_), Err(_)) => panic!(rt; "{name} is there"),
        (Err(_), Ok(_)) => panic!(rt; "{name} isn't there"),
    }
}

#[test]
fn a_shelf_in_memory_fails_where_told(rt: HostRuntime) -> Result<(), Fail> {
    let mut shelf = MemShelf {
        texts: texts(rt.alloc())?,
        fails: Vec::from_slice(rt.alloc(), &[2])?,
        calls: 0,
        faults: 0,
    };
    let cases = [
        (("p", 3), Ok(b"abc".as_slice()), 0),
        (("p", 2), Err(ShelfFault::Long), 0),
        (("p", 3), Err(ShelfFault::Failed), 1),
        (("q", 3), Err(ShelfFault::Failed), 2),
        (("t", 5), Ok(b"12345"), 2),
    ];
    for (asked, wanted, faults) in cases {
        expect_fetch(&rt, &mut shelf, asked, wanted);
        assert_eq!(rt; shelf.faults, faults, "{}", asked.0);
    }
    assert_eq!(rt; shelf.calls, 5);
    Ok(())
}

#[test]
fn a_sure_shelf_has_every_name(rt: HostRuntime) -> Result<(), Fail> {
    let mut shelf = SureShelf {
        texts: texts(rt.alloc())?,
    };
    let cases = [
        (("p", 3), Ok(b"abc".as_slice())),
        (("p", 2), Err(ShelfFault::Long)),
        (("q", 0), Ok(b"")),
    ];
    for (asked, wanted) in cases {
        expect_fetch(&rt, &mut shelf, asked, wanted);
    }
    Ok(())
}

#[test]
fn a_shelf_that_never_fails_has_the_program(rt: HostRuntime) -> Result<(), Fail> {
    let texts = texts_of(rt.alloc(), &[("p", b"main { print 2 + 3; }")])?;
    let mut shelf = SureShelf { texts };
    let mut sink = empty_sink(rt.alloc());
    let words = words_of(rt.alloc(), &["run", "p"])?;
    assert!(&rt; !asks_for_many(&words));
    let status = tpal_alone(rt.alloc(), &words, &mut shelf, &mut sink);
    assert_eq!(rt; sink.bytes.as_slice(), b"5\n".as_slice());
    assert_eq!(rt; status, Status::Done);
    Ok(())
}

#[test]
fn a_sink_in_memory_keeps_what_it_is_told_to(rt: HostRuntime) -> Result<(), Fail> {
    let mut sink = MemSink {
        bytes: Vec::new(rt.alloc()),
        fails: Vec::from_slice(rt.alloc(), &[(1, 2), (2, 9)])?,
        calls: 0,
        faults: 0,
    };
    let cases = [
        (b"ab".as_slice(), Ok(()), b"ab".as_slice(), 0),
        (b"cde", Err(SinkFault::Failed), b"abcd", 1),
        (b"fg", Err(SinkFault::Failed), b"abcdfg", 2),
        (b"h", Ok(()), b"abcdfgh", 2),
    ];
    for (piece, answer, bytes, faults) in cases {
        assert_eq!(rt; sink.write(piece), answer);
        assert_eq!(rt; sink.bytes.as_slice(), bytes);
        assert_eq!(rt; sink.faults, faults);
    }
    Ok(())
}

#[test]
fn files_are_a_shelf(rt: HostRuntime) -> Result<(), Fail> {
    let mut shelf = FileShelf { rt: &rt, faults: 0 };
    // The second file has no end, so this also shows that no more than one byte too many is read.
    let cases = [
        (("/dev/null", 0), Ok(b"".as_slice()), 0),
        (("/dev/zero", 5), Err(ShelfFault::Long), 0),
        (("no such file", 5), Err(ShelfFault::Failed), 1),
    ];
    for (asked, wanted, faults) in cases {
        expect_fetch(&rt, &mut shelf, asked, wanted);
        assert_eq!(rt; shelf.faults, faults, "{}", asked.0);
    }
    Ok(())
}

#[test]
fn the_standard_output_is_a_sink(rt: HostRuntime) {
    let mut sink = OutSink { rt: &rt, faults: 0 };
    assert_eq!(rt; sink.write(b"written to the standard output\n"), Ok(()));
    assert_eq!(rt; sink.faults, 0);
}
