// How many blocks programs are counted with, worked out by hand.

use crate::compiling::checked;
use block_lower::block_count;
use std::test::Fail;

#[test]
fn blocks_are_counted(rt: HostRuntime) -> Result<(), Fail> {
    let cases: [(&[u8], u64); 4] = [
        (b"main { }", 8),
        (b"main { while 0 { } while 0 { } while 0 { } }", 80),
        (
            b"input a; table b[2][rows(a)]; main { b[0][1] = -a[0][0]; emit b; }",
            8 + 8 + 24 + 64 + 16,
        ),
        (
            b"fn f(n) { return n; } main { let x = 0; let y = 0; both x = f(1), y = f(x + 2); \
              par i in 0..2 { let q = 1; } }",
            8 + 16 + 24 + 24 + 96 + 104,
        ),
    ];
    for (source, count) in cases {
        let program = checked(rt.alloc(), source).ok_or("a program")?;
        assert_eq!(&rt; block_count(&program), count);
    }
    Ok(())
}
