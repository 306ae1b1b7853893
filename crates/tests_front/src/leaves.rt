// What the rules say of programs with `leave`: each sentence of C12, accepted and refused, alone
// and beside other rules. Rules and columns are worked out by hand; the rule 0 is none.

use loop_check::check;
use loop_lex::lex;
use loop_parse::parse;
use loop_rules::{RuleFault, resolve};
use std::alloc::Global;
use std::test::Fail;

// The first broken rule and its column, where the source is one line that is a program.
fn verdict(alloc: Global, source: &[u8]) -> Option<(u8, u32)> {
    if source.len() > 1_048_576 {
        return None;
    }
    let Ok(tokens) = lex(alloc, source) else {
        return None;
    };
    let Ok(program) = parse(alloc, source, &tokens) else {
        return None;
    };
    let fault = match resolve(alloc, program) {
        Ok(resolved) => check(alloc, resolved).err(),
        Err(fault) => Some(fault),
    };
    match fault {
        None => Some((0, 0)),
        Some(RuleFault::Broken { rule, place }) => Some((rule, place.col)),
        Some(RuleFault::NoMemory) => None,
    }
}

#[test]
fn each_way_to_leave_is_judged(rt: HostRuntime) -> Result<(), Fail> {
    let g = rt.alloc();
    let cases = [
        // out of the body itself, and out of all that stands between
        (
            b"main { let x = 0; par i in 0..2 { leave x = i; } }".as_slice(),
            (0, 0),
        ),
        (
            b"main { let x = 0; par i in 0..2 { if i { while i { loop k in 0..2 { leave x = \
              k; } } } } }",
            (0, 0),
        ),
        (
            b"main { let x = 0; par i in 0..2 { if i { } else { leave x = x + 1; } } }",
            (0, 0),
        ),
        (
            b"fn f(n) { par i in 0..n { leave n = i; } return n; } main { }",
            (0, 0),
        ),
        // by two loops, each with its own target
        (
            b"main { par i in 0..2 { let x = 0; par j in 0..2 { leave x = j; } } }",
            (0, 0),
        ),
        (
            b"main { let x = 0; par i in 0..2 { let y = 0; par j in 0..2 { leave y = j; } \
              leave x = y; } }",
            (0, 0),
        ),
        // inside of loops that carry or reduce, and round them
        (
            b"main { let s = 0; par i in 0..2 reduce s by add { let x = 0; par j in 0..2 { \
              leave x = j; } fold s with x; } }",
            (0, 0),
        ),
        (
            b"table t[2][1]; main { par i in 0..2 carry t[i] { let x = 0; par j in 0..2 { \
              leave x = j; } t[i][0] = x; } }",
            (0, 0),
        ),
        (
            b"main { let x = 0; par i in 0..2 { let s = 0; par j in 0..2 reduce s by add { \
              fold s with j; } leave x = s; } }",
            (0, 0),
        ),
        // with a variable of the body of a loop, and with one target at several places
        (
            b"main { loop k in 0..2 { let x = k; par i in 0..2 { leave x = i; } } }",
            (0, 0),
        ),
        (
            b"main { let x = 0; par i in 0..2 { if i { leave x = 1; } leave x = 2; } par i in \
              0..2 { leave x = 3; } }",
            (0, 0),
        ),
        (
            b"main { let x = 0; let y = 0; par i in 0..2 { leave x = 1; } par i in 0..2 { \
              leave y = 2; } }",
            (0, 0),
        ),
        // it has no `par` round it
        (b"main { let x = 0; leave x = 1; }", (12, 25)),
        (
            b"main { let x = 0; loop k in 0..2 { if k { leave x = k; } } }",
            (12, 49),
        ),
        (
            b"main { let x = 0; par i in 0..2 { } leave x = 1; }",
            (12, 43),
        ),
        (b"fn f(n) { leave n = 1; return n; } main { }", (12, 17)),
        // its nearest `par` carries or reduces
        (
            b"table t[2][1]; main { let x = 0; par i in 0..2 carry t[i] { leave x = i; } }",
            (12, 67),
        ),
        (
            b"main { let s = 0; let x = 0; par i in 0..2 reduce s by add { leave x = i; } }",
            (12, 68),
        ),
        (
            b"main { par i in 0..2 { let s = 0; let x = 0; par j in 0..2 reduce s by add { \
              leave x = 1; } } }",
            (12, 84),
        ),
        // its target is declared inside the body of that `par`
        (
            b"main { par i in 0..2 { let x = 0; leave x = i; } }",
            (12, 41),
        ),
        (
            b"main { par i in 0..2 { if i { let x = 0; loop k in 0..2 { leave x = k; } } } }",
            (12, 65),
        ),
        // its target is declared outside the body of another `par` round it
        (
            b"main { let x = 0; par i in 0..2 { par j in 0..2 { leave x = j; } } }",
            (12, 57),
        ),
        (
            b"main { par i in 0..2 { let y = 0; par j in 0..2 { let z = 0; par k in 0..2 { \
              leave y = k; } } } }",
            (12, 84),
        ),
        (
            b"main { let x = 0; par i in 0..2 { let z = 0; par j in 0..2 { par k in 0..2 { \
              leave x = k; } } } }",
            (12, 84),
        ),
        // its target is the variable of a `loop` or `par`
        (
            b"main { loop k in 0..2 { par i in 0..2 { leave k = i; } } }",
            (12, 47),
        ),
        (
            b"main { par i in 0..2 { par j in 0..2 { leave i = j; } } }",
            (12, 46),
        ),
        (b"main { par i in 0..2 { leave i = 1; } }", (12, 30)),
        (
            b"main { par i in 0..2 { loop k in 0..2 { leave k = 1; } } }",
            (12, 47),
        ),
        // an earlier one with the same nearest `par` has another target
        (
            b"main { let x = 0; let y = 0; par i in 0..2 { leave x = 1; leave y = 2; } }",
            (12, 65),
        ),
        (
            b"main { let x = 0; let y = 0; par i in 0..2 { if i { leave x = 1; } else { leave \
              y = 2; } } }",
            (12, 81),
        ),
        (
            b"main { let x = 0; let y = 0; par i in 0..2 { while i { leave x = 1; } loop k in \
              0..2 { leave y = k; } leave x = 2; } }",
            (12, 94),
        ),
        (
            b"main { let x = 0; let y = 0; par i in 0..2 { leave x = 1; let z = 0; par j in \
              0..2 { leave z = j; } leave y = z; } }",
            (12, 107),
        ),
        // beside another sentence of the rule at one place
        (
            b"main { let x = 0; par i in 0..2 { let s = 0; par j in 0..2 reduce s by add { \
              leave x = j; } } }",
            (12, 84),
        ),
        (
            b"main { let x = 0; par i in 0..2 { let y = 0; par j in 0..2 { leave y = 1; leave \
              x = 2; } } }",
            (12, 81),
        ),
        // beside another rule, whose place is the same or comes first, or which is looked at before
        (b"main { leave x = 1; }", (1, 14)),
        (b"input a; main { par i in 0..2 { leave a = 1; } }", (1, 39)),
        (
            b"main { let x = 0; par i in 0..2 { leave x = y; } }",
            (1, 45),
        ),
        (b"main { let x = 0; leave x = 1; print y; }", (1, 38)),
        (
            b"main { let x = 0; par i in 0..2 { x = 1; par j in 0..2 { leave x = j; } } }",
            (2, 35),
        ),
        (
            b"main { let x = 0; let y = 0; par i in 0..2 { leave x = 1; y = 2; leave y = 3; } }",
            (2, 59),
        ),
        (
            b"main { let s = 0; par i in 0..2 reduce s by add { leave s = i; } }",
            (3, 57),
        ),
        (
            b"main { let s = 0; par i in 0..2 reduce s by add { par j in 0..2 { leave s = j; } } }",
            (3, 73),
        ),
        (
            b"table t[2][2]; main { par i in 0..2 carry t[i] { let x = 0; par j in 0..2 { \
              leave x = t[i][j]; } } }",
            (5, 87),
        ),
        (
            b"main { let x = 0; par i in 0..2 { print i; leave i = x; } }",
            (9, 35),
        ),
        (
            b"main { let x = 0; leave x = 1 + 1 + 1 + 1 + 1 + 1 + 1 + 1 + 1 + 1 + 1 + 1 + 1 + \
              1 + 1 + 1 + 1 + 1 + 1 + 1 + 1 + 1 + 1 + 1 + 1; }",
            (11, 29),
        ),
        (
            b"main { let x = 0; par i in 0..2 { par j in 0..2 { leave x = j; } x = 1; } }",
            (12, 57),
        ),
    ];
    for (source, expected) in cases {
        assert_eq!(rt; verdict(g, source), Some(expected));
    }
    Ok(())
}
