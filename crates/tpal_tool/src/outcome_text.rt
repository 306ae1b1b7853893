// The text that an outcome owes, and the line of what a run counted.

ghost use Rattle.std.specs.Prelude.{◌≡◌, IfOk, OnOk, ◌++◌};
ghost use Rattle.loop_meaning.specs.Answers.{kind_name, stop_line, text_of};
ghost use Rattle.tpal_tool.specs.Lines.{counts_line};

use schedule_core::Tally;
use std::alloc::{AllocError, Global};
use tp_value::{Outcome, Place, Stop, TrapKind};

fn kind_name(kind: TrapKind) -> &'static str
    ensures { result.now ≡ kind_name kind }
{
    match kind {
        TrapKind::Divide => "Divide",
        TrapKind::Index => "Index",
        TrapKind::Deep => "Deep",
        TrapKind::Size => "Size",
        TrapKind::Wide => "Wide",
    }
}

fn trap_line(alloc: Global, kind: TrapKind, place: Place) -> Result<Vec<u8>, AllocError>
    ensures { IfOk result (λ line. line.items ≡ stop_line (Stop.Trap kind place)) }
{
    let name = kind_name(kind);
    let line = place.line;
    let col = place.col;
    let text = format!(in alloc; "trap {name} at {line}:{col}\n")?;
    Ok(text.into_bytes())
}

fn stop_line(alloc: Global, stop: Stop) -> Result<Vec<u8>, AllocError>
    ensures { IfOk result (λ line. line.items ≡ stop_line stop) }
{
    match stop {
        Stop::Done | Stop::Left(_) => Ok(Vec::new(alloc)),
        Stop::Trap(kind, place) => trap_line(alloc, kind, place),
        Stop::NoFuel => Vec::from_slice(alloc, b"out of fuel\n"),
    }
}

/// The output of a run, and then a line where it stopped early.
pub fn text_of(alloc: Global, outcome: Outcome) -> Result<Vec<u8>, AllocError>
    ensures { IfOk result (λ text. text.items ≡ text_of outcome) }
{
    let Outcome {
        stop,
        output,
        ticks: _,
    } = outcome;
    let mut text = output.into_vec();
    let line = stop_line(alloc, stop)?;
    text.extend_from_slice(&line)?;
    Ok(text)
}

/// The line of a run's counts, with the ticks of its outcome.
pub fn counts_line(alloc: Global, tally: Tally, ticks: u64) -> Result<Vec<u8>, AllocError>
    ensures { IfOk result (λ line. line.items ≡ counts_line tally ticks) }
{
    let Tally {
        tasks,
        beats,
        skipped,
        instructions,
    } = tally;
    let text = format!(in alloc;
        "tasks {tasks} beats {beats} skipped {skipped} instructions {instructions} ticks {ticks}\n"
    )?;
    Ok(text.into_bytes())
}
