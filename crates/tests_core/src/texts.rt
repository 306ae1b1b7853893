// Texts of codes: assembled, run event by event, and printed back.

use crate::events::printed;
use std::alloc::Global;
use std::test::Fail;
use sum_code::sum_below;
use tp_value::MAX_CODE_BYTES;
use tpal_asm::{AsmFault, assemble};
use tpal_print::{print_code, print_code_1};

const FIVE: &[u8] = b"main: plain
  r0 := 2
  r0 := r0 add 3
  print r0
  halt
";

/// The numbers below 100 are added by a loop that may be cut.
const SUM: &[u8] = b"main: plain
  salloc 2
  mem[r31+1] := nil
  r0 := 0
  r1 := 100
  r2 := 0
  prmpush mem[r31+0], 2, @beat
  jump @body
loop: prppt @beat
  jump @body
body: plain
  r2 := r2 add r0
  r0 := r0 add 1
  r3 := r0 lt r1
  if-jump r3, @loop
  jump @end
end: plain
  prmpop mem[r31+0]
  r4 := mem[r31+1]
  r3 := r4 eq nil
  if-jump r3, @out
  join r4
out: plain
  print r2
  halt
beat: plain
  r4 := jralloc @joined
  r3 := r4 eq nil
  if-jump r3, @back
  r5 := r1 sub r0
  r5 := r5 div 2
  r5 := r5 add r0
  fork r4, @child
  mem[r31+1] := r4
  r1 := r5
  r3 := r0 lt r1
  if-jump r3, @back
  jump @end
back: plain
  jump r30
child: plain
  mem[r31+1] := r4
  r0 := r5
  r2 := 0
  prmpush mem[r31+0], 2, @beat
  jump @body
comb: plain
  r2 := r2 add r6
  join r4
joined: jtppt assoc; {r2 -> r6, r4 -> r7}; @comb; loop; carry none
  jump @end
";

/// Whether a text of version 1 is printed back, and whether its run prints the output, with its
/// instructions and tasks.
fn tried(
    alloc: Global,
    text: &[u8],
    steps: u16,
    output: &[u8],
) -> Result<(bool, Option<(bool, u64, u64)>), AsmFault> {
    if text.len() > MAX_CODE_BYTES as usize {
        return Ok((false, None));
    }
    let code = assemble(alloc, text)?;
    let Some(back) = print_code_1(alloc, &code)? else {
        return Ok((false, None));
    };
    if !code.tables().is_empty() {
        return Ok((false, None));
    }
    let run = printed(alloc, &code, steps, output)?;
    Ok((back.as_slice() == text, run))
}

#[test]
fn texts_are_run_and_printed_back(rt: HostRuntime) -> Result<(), Fail> {
    let cases: [(&[u8], u16, &[u8]); 2] = [(FIVE, 4, b"5\n"), (SUM, 513, b"4950\n")];
    for (text, steps, output) in cases {
        assert_eq!(rt;
            tried(rt.alloc(), text, steps, output),
            Ok((true, Some((true, u64::from(steps), 0))))
        );
    }
    Ok(())
}

#[test]
fn the_sum_has_its_text(rt: HostRuntime) -> Result<(), Fail> {
    let code = sum_below(rt.alloc(), 100)?.expect(&rt, "a code");
    let text = print_code_1(rt.alloc(), &code)?.ok_or("a text")?;
    assert!(rt; text.as_slice() == SUM);
    Ok(())
}

const FIVE_2: &[u8] = b"tpal 2
main #0: plain
  r0 := 2
  r0 := r0 add 3
  print r0
  halt
";

const FIVE_MISNUMBERED: &[u8] = b"tpal 2
main #1: plain
  r0 := 2
  r0 := r0 add 3
  print r0
  halt
";

fn printed_anew(alloc: Global, text: &[u8]) -> Result<Vec<u8>, AsmFault> {
    if text.len() > MAX_CODE_BYTES as usize {
        return Err(AsmFault::NoMemory);
    }
    let code = assemble(alloc, text)?;
    Ok(print_code(alloc, &code)?)
}

#[test]
fn a_text_has_two_versions(rt: HostRuntime) -> Result<(), Fail> {
    for text in [FIVE, FIVE_2] {
        let again = printed_anew(rt.alloc(), text).ok().ok_or("a code")?;
        assert!(&rt; again.as_slice() == FIVE_2);
    }
    let fault = printed_anew(rt.alloc(), FIVE_MISNUMBERED).err();
    assert_eq!(rt; fault, Some(AsmFault::Form(2)));
    Ok(())
}
