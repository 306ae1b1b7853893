// The text of a run of a code.

ghost use Rattle.std.specs.Prelude.{◌≡◌, IfOk};
ghost use Rattle.tpal_tool.specs.ExecLines.{fault_name, name_at, spent_line, stuck_line};
ghost use Rattle.tpal_tool.specs.ExecOwed.{exec_text};

use crate::outcome_text::text_of;
use std::alloc::{AllocError, Global};
use tpal_machine::Fault;
use tpal_syntax::Code;
use tpal_verify::ExecEnd;

fn fault_name(fault: Fault) -> &'static str
    ensures { result.now ≡ fault_name fault }
{
    match fault {
        Fault::NotInt => "NotInt",
        Fault::DivZero => "DivZero",
        Fault::OutOfRange => "OutOfRange",
        Fault::TooLong => "TooLong",
        Fault::MarkedCell => "MarkedCell",
        Fault::MarkOrder => "MarkOrder",
        Fault::NoMark => "NoMark",
        Fault::Pending => "Pending",
        Fault::BadTarget => "BadTarget",
        Fault::NotRec => "NotRec",
        Fault::WrongRecord => "WrongRecord",
        Fault::NoBeat => "NoBeat",
        Fault::NotHeld => "NotHeld",
        Fault::Made => "Made",
        Fault::NotLabel => "NotLabel",
        Fault::NotRoot => "NotRoot",
    }
}

/// The name of a block.
pub fn name_at(code: &Code, block: u32) -> &[u8]
    ensures { result.now ≡ name_at code.now block }
{
    match code.blocks().get(block as usize) {
        Some(block) => block.name.items(),
        None => &[],
    }
}

/// The line of a run that is stuck, at this position of the block of that name.
fn stuck_line(alloc: Global, fault: Fault, name: &[u8], at: u32) -> Result<Vec<u8>, AllocError>
    ensures { IfOk result (λ line. line.items ≡ stuck_line fault name.now at) }
{
    let fault = fault_name(fault);
    let front = format!(in alloc; "stuck {fault} at ")?;
    let back = format!(in alloc; ":{at}\n")?;
    let mut line = front.into_bytes();
    line.extend_from_slice(name)?;
    line.extend_from_slice(back.as_bytes())?;
    Ok(line)
}

/// The text of a run that ended so.
pub fn exec_text(alloc: Global, code: &Code, end: ExecEnd) -> Result<Vec<u8>, AllocError>
    ensures { IfOk result (λ text. text.items ≡ exec_text code.now end) }
{
    match end {
        ExecEnd::Ended(outcome) => text_of(alloc, outcome),
        ExecEnd::Spent => Vec::from_slice(alloc, b"out of steps\n"),
        ExecEnd::Stuck { fault, block, at } => {
            stuck_line(alloc, fault, name_at(code, block), at)
        }
    }
}
