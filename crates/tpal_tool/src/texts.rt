// The answers of a call: a status with texts, of a refusal, of a code, and of a run.

ghost use Rattle.std.specs.Prelude.{◌≡◌, IfOk, false, true};
ghost use Rattle.loop_meaning.specs.Answers.{status_of, text_of};
ghost use Rattle.schedule_core.specs.Counting.{tally_of};
ghost use Rattle.tpal_syntax.specs.declared.versions.Version.TheVariants.{Two};
ghost use Rattle.tpal_syntax.specs.Text.{CodeTextIn};
ghost use Rattle.tpal_tool.specs.Answering.{status_with, whole_of};
ghost use Rattle.tpal_tool.specs.ExecOwed.{exec_status, exec_text};
ghost use Rattle.tpal_tool.specs.Lines.{line_of};
ghost use Rattle.tpal_tool.specs.Owed.{ShowsRun};

use crate::answer::{Answer, Texts};
use crate::exec_text::exec_text;
use crate::lines::refusal_line;
use crate::outcome_text::{counts_line, text_of};
use crate::refusal::Refusal;
use crate::running::{EndedExec, EndedRun};
use crate::status::{Status, status_of};
use schedule_core::{Report, Tally};
use std::alloc::Global;
use tp_value::NoMemory;
use tpal_print::print_code;
use tpal_syntax::Code;
use tpal_verify::ExecEnd;

fn status_with(refusal: &Refusal) -> Status
    ensures { result ≡ status_with refusal.now }
{
    match refusal {
        Refusal::Words => Status::BadWords,
        _ => Status::Refused,
    }
}

/// The answer of what is refused: its line.
pub fn refused(alloc: Global, refusal: Refusal) -> Result<Answer, NoMemory>
    ensures status { IfOk result (λ answer. answer.status ≡ status_with refusal) }
    ensures text { IfOk result (λ answer. whole_of answer.texts ≡ line_of refusal) }
{
    let status = status_with(&refusal);
    let texts = Texts::One(refusal_line(alloc, refusal)?);
    Ok(Answer { status, texts })
}

/// The answer that is a code: its text.
pub fn compiled(alloc: Global, code: &Code) -> Result<Answer, NoMemory>
    ensures status { IfOk result (λ answer. answer.status ≡ Status.Done) }
    ensures text { IfOk result
        (λ answer. CodeTextIn Two (whole_of answer.texts) code.now.tables code.now.blocks) }
{
    let status = Status::Done;
    let texts = Texts::One(print_code(alloc, code)?);
    Ok(Answer { status, texts })
}

/// The texts of a run: what it printed, and where it is shown the code before and the counts
/// behind.
fn texts_of(alloc: Global, code: &Code, report: Report, show: bool) -> Result<Texts, NoMemory>
    ensures plain { show ≡ false
        → IfOk result (λ texts. whole_of texts ≡ text_of report.outcome) }
    ensures shown { show ≡ true
        → IfOk result
        (λ texts. ShowsRun code.now report.outcome (tally_of report) (whole_of texts)) }
{
    let Report {
        outcome,
        tasks,
        beats,
        skipped,
        instructions,
    } = report;
    let ticks = outcome.ticks;
    let output = text_of(alloc, outcome)?;
    if !show {
        return Ok(Texts::One(output));
    }
    let code = print_code(alloc, code)?;
    let tally = Tally {
        tasks,
        beats,
        skipped,
        instructions,
    };
    let counts = counts_line(alloc, tally, ticks)?;
    Ok(Texts::Shown {
        code,
        output,
        counts,
    })
}

/// The answer of a run that came to its end.
pub fn ran(alloc: Global, run: EndedRun) -> Result<Answer, NoMemory>
    ensures status { IfOk result
        (λ answer. answer.status
        ≡ status_of Status.Done Status.Trap Status.OutOfFuel run.report.outcome) }
    ensures plain { run.show ≡ false
        → IfOk result (λ answer. whole_of answer.texts ≡ text_of run.report.outcome) }
    ensures shown { run.show ≡ true
        → IfOk result
        (λ answer. ShowsRun run.code run.report.outcome (tally_of run.report)
        (whole_of answer.texts)) }
{
    let EndedRun { code, report, show } = run;
    let status = status_of(report.outcome.stop);
    let texts = texts_of(alloc, &code, report, show)?;
    Ok(Answer { status, texts })
}

/// The status of a run of a code that ended so.
fn exec_status(end: &ExecEnd) -> Status
    ensures { result ≡ exec_status end.now }
{
    match end {
        ExecEnd::Ended(outcome) => status_of(outcome.stop),
        ExecEnd::Spent => Status::OutOfFuel,
        ExecEnd::Stuck { .. } => Status::Trap,
    }
}

/// The answer of a run of a code that came to an end.
pub fn executed(alloc: Global, run: EndedExec) -> Result<Answer, NoMemory>
    ensures status { IfOk result (λ answer. answer.status ≡ exec_status run.report.«end») }
    ensures text { IfOk result
        (λ answer. whole_of answer.texts ≡ exec_text run.code run.report.«end») }
{
    let EndedExec { code, report } = run;
    let status = exec_status(&report.end);
    let texts = Texts::One(exec_text(alloc, code.code(), report.end)?);
    Ok(Answer { status, texts })
}
