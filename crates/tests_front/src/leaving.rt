// What programs with `leave` come to by the serial meaning, which alone runs them before they have
// code. Outputs, stops and ticks are worked out by hand.

use crate::programs::resolved;
use loop_meaning::plain_run;
use std::alloc::Global;
use std::test::Fail;
use table_text::read_tables;
use tp_value::{MAX_FUEL, MAX_TABLES_BYTES, Outcome, Place, Stop, TrapKind};

// The first row that holds a 7; the row behind one that holds a 9 isn't looked at.
const FIND: &[u8] = b"input a;
main {
  let x = 0 - 1;
  par i in 0..rows(a) {
    if a[i][0] == 7 { leave x = i; }
    let q = 1 / (a[i][0] - 9);
  }
  print x;
}
";

// How a program ends on these tables and that much fuel.
fn outcome(alloc: Global, source: &[u8], tables: &[u8], fuel: u64) -> Option<Outcome> {
    if tables.len() > MAX_TABLES_BYTES as usize || fuel > MAX_FUEL {
        return None;
    }
    let program = resolved(alloc, source)?;
    let tables = read_tables(alloc, tables).ok()?;
    plain_run(alloc, &program, tables.as_slice(), fuel).ok()
}

// Whether it ends with this stop and output, and so many ticks.
fn ends(end: Option<Outcome>, stop: Stop, output: &[u8], ticks: u64) -> bool {
    let Some(end) = end else {
        return false;
    };
    end.stop == stop && end.output.items() == output && end.ticks == ticks
}

#[test]
fn the_first_row_is_found(rt: HostRuntime) -> Result<(), Fail> {
    let g = rt.alloc();
    let trap = Stop::Trap(TrapKind::Divide, Place { line: 6, col: 15 });
    let cases = [
        (
            b"table a 4 1 3 7 9 7".as_slice(),
            2,
            (Stop::Done, b"1\n".as_slice(), 2),
        ),
        (b"table a 4 1 3 7 9 7", 1, (Stop::NoFuel, b"", 2)),
        (b"table a 2 1 9 7", 1_000, (trap, b"", 1)),
        (b"table a 2 1 3 3", 1_000, (Stop::Done, b"-1\n", 2)),
        (b"table a 1 1 7", 1_000, (Stop::Done, b"0\n", 1)),
    ];
    for (tables, fuel, (stop, output, ticks)) in cases {
        assert!(rt; ends(outcome(g, FIND, tables, fuel), stop, output, ticks));
    }
    Ok(())
}

#[test]
fn a_leave_ends_all_that_stands_between(rt: HostRuntime) -> Result<(), Fail> {
    let g = rt.alloc();
    let cases = [
        // out of `if`, `while` and `loop`; what is behind it in the iteration isn't done
        (
            b"main { let x = 5; let y = 0; par i in 0..9 { loop k in 0..9 { while 1 { if k { \
              leave x = i + k; } leave x = 7; } } leave x = 8; } print x; }"
                .as_slice(),
            (Stop::Done, b"7\n".as_slice(), 3),
        ),
        // the inner `par` catches its own, and the outer one goes on
        (
            b"main { let n = 0; par i in 0..3 reduce n by add { let x = 0; par j in 0..9 { if \
              j == i { leave x = j; } } fold n with x; } print n; }",
            (Stop::Done, b"3\n", 9),
        ),
        // the value is one of the inner variables, which are gone behind the loop
        (
            b"main { let x = 0; par i in 0..9 { let v = i * i; if 20 < v { let w = v + 1; leave \
              x = w; } } let y = x + 1; print y; }",
            (Stop::Done, b"27\n", 6),
        ),
        // a `leave` whose value traps
        (
            b"main { let x = 0; par i in 0..9 { leave x = 1 / i; } print x; }",
            (
                Stop::Trap(TrapKind::Divide, Place { line: 1, col: 47 }),
                b"",
                1,
            ),
        ),
        // in a function
        (
            b"fn f(n) { let x = 0; par i in 0..n { if i == 2 { leave x = 40 + i; } } return x; \
              } main { let x = 0; call x = f(9); print x; }",
            (Stop::Done, b"42\n", 4),
        ),
        // no iteration
        (
            b"main { let x = 3; par i in 0..0 { leave x = 1; } print x; }",
            (Stop::Done, b"3\n", 0),
        ),
    ];
    for (source, (stop, output, ticks)) in cases {
        assert!(rt; ends(outcome(g, source, b"", 1_000), stop, output, ticks));
    }
    Ok(())
}

// Such programs break the rule on `leave`, and still mean something.
#[test]
fn a_leave_that_breaks_its_rule_runs(rt: HostRuntime) -> Result<(), Fail> {
    let g = rt.alloc();
    let cases = [
        // without a `par` it stops the whole run
        (
            b"main { let x = 0; print 1; leave x = 5; print x; }".as_slice(),
            (Stop::Left(5), b"1\n".as_slice(), 0),
        ),
        // of two targets the first in the text is set
        (
            b"main { let x = 0; let y = 0; par i in 0..4 { if i == 9 { leave y = i; } leave x = \
              i + 5; } print x; print y; }",
            (Stop::Done, b"0\n5\n", 1),
        ),
        // a function that is left leaves the loop of its caller, which sets nothing
        (
            b"fn f(n) { leave n = 6; return n; } main { let x = 2; par i in 0..4 { let y = 0; \
              call y = f(i); } print x; }",
            (Stop::Done, b"2\n", 2),
        ),
    ];
    for (source, (stop, output, ticks)) in cases {
        assert!(rt; ends(outcome(g, source, b"", 1_000), stop, output, ticks));
    }
    Ok(())
}
