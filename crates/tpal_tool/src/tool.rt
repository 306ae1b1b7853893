// The top call.

ghost use Rattle.std.specs.Prelude.{◌≡◌, ℕ, ◌≤◌, Option, List, IfErr, IfOk, None};
ghost use Rattle.std.specs.Prelude.{false, true};
ghost use Rattle.tpal_tool.specs.Answering.{IsFaultOf, OwesRefusal, whole_of};
ghost use Rattle.tpal_tool.specs.Owed.{Ends, Finished, IsFinal, IsWritten, Owed, ReadFailed};
ghost use Rattle.tpal_tool.specs.Promises.{HasCause, RefusesRightly, RunsOrCompiles};
ghost use Rattle.tpal_tool.specs.ExecPromises.{ExecsRightly};
ghost use Rattle.tpal_tool.specs.Words.{Command, asked_by, file_asked, workers_asked};

use crate::answer::Answer;
use crate::prepared::Prepared;
use crate::preparing::prepare;
use crate::refusal::CallFault;
use crate::request::Request;
use crate::running::{run_alone, run_code, run_in_pool};
use crate::shelf::Shelf;
use crate::sink::{Sink, SinkFault};
use crate::status::Status;
use crate::texts::{compiled, executed, ran, refused};
use crate::words::asked;
use crate::writing::write_texts;
use std::alloc::Global;
use std::sync::Wait;
use std::thread::Threads;
use steal_pool::Gate;
use table_text::laws::text_is_read_one_way;
use tp_value::NoMemory;

/// The answer to words that ask for one worker.
fn answer_alone<S: Shelf>(
    alloc: Global,
    words: &[String],
    shelf: &mut S,
) -> Result<Answer, CallFault>
    requires { workers_asked (asked_by words.now) ≡ 1 }
    ensures answer { IfOk result
        (λ answer. Owed (asked_by words.now) (S.text shelf.old) answer.status
        (whole_of answer.texts)) }
    ensures fault { IfErr result
        (IsFaultOf (OwesRefusal (Owed (asked_by words.now) (S.text shelf.old)))
        (ReadFailed (asked_by words.now) (S.text shelf.old) (S.faults shelf.old)
        (S.faults shelf.new))) }
    ensures unread { file_asked (asked_by words.now) ≡ None
        → shelf.new ≡ shelf.old }
{
    match prepare(alloc, words, shelf)? {
        Prepared::Compiled(code) => Ok(compiled(alloc, &code)?),
        Prepared::Run(prepared) => {
            let ended = run_alone(alloc, prepared)?;
            Ok(ran(alloc, ended)?)
        }
        Prepared::Exec(prepared) => {
            let ended = run_code(alloc, prepared)?;
            Ok(executed(alloc, ended)?)
        }
    }
}

/// The answer to words that ask for several workers.
fn answer_in_pool<R: Threads + Wait + Sync, S: Shelf, G: Gate + Sync>(
    rt: &R,
    alloc: Global,
    words: &[String],
    shelf: &mut S,
    gate: &G,
) -> Result<Answer, CallFault>
    requires { 2 ≤ workers_asked (asked_by words.now) }
    ensures answer { IfOk result
        (λ answer. Owed (asked_by words.now) (S.text shelf.old) answer.status
        (whole_of answer.texts)) }
    ensures fault { IfErr result
        (IsFaultOf (OwesRefusal (Owed (asked_by words.now) (S.text shelf.old)))
        (ReadFailed (asked_by words.now) (S.text shelf.old) (S.faults shelf.old)
        (S.faults shelf.new))) }
    ensures unread { file_asked (asked_by words.now) ≡ None
        → shelf.new ≡ shelf.old }
{
    match prepare(alloc, words, shelf)? {
        Prepared::Compiled(code) => Ok(compiled(alloc, &code)?),
        Prepared::Run(prepared) => {
            let ended = run_in_pool(rt, alloc, prepared, gate)?;
            Ok(ran(alloc, ended)?)
        }
        Prepared::Exec(prepared) => {
            let ended = run_code(alloc, prepared)?;
            Ok(executed(alloc, ended)?)
        }
    }
}

/// Writes an answer's texts, and answers its status where all of them were written.
fn written<K: Sink>(sink: &mut K, answer: &Answer) -> Status
    ensures { IsWritten (K.written sink.old) (K.written sink.new) (K.faults sink.old)
        (K.faults sink.new) answer.now.status (whole_of answer.now.texts) result }
{
    match write_texts(sink, &answer.texts) {
        Ok(()) => answer.status,
        Err(SinkFault::Failed) => Status::WriteFault,
        Err(SinkFault::NoMemory) => Status::NoMemory,
    }
}

/// Writes what a call came to, and answers how it ended.
fn ended<K: Sink>(alloc: Global, answer: Result<Answer, CallFault>, sink: &mut K) -> Status
    ensures { (wanted : Option Command) (told : List ℕ → Option (List ℕ))
        (reads reads' : List ℕ → ℕ)
        → IfOk answer (λ a. Owed wanted told a.status (whole_of a.texts))
        → IfErr answer
        (IsFaultOf (OwesRefusal (Owed wanted told)) (ReadFailed wanted told reads reads'))
        → Ends wanted told reads reads' (K.written sink.old) (K.written sink.new)
        (K.faults sink.old) (K.faults sink.new) result }
{
    match answer {
        Ok(answer) => written(sink, &answer),
        Err(CallFault::Refused(refusal)) => match refused(alloc, refusal) {
            Ok(answer) => written(sink, &answer),
            Err(NoMemory) => Status::NoMemory,
        },
        Err(CallFault::ReadFailed) => Status::ReadFault,
        Err(CallFault::NoMemory) => Status::NoMemory,
    }
}

fn call_alone<S: Shelf, K: Sink>(
    alloc: Global,
    words: &[String],
    shelf: &mut S,
    sink: &mut K,
) -> Status
    requires { workers_asked (asked_by words.now) ≡ 1 }
    ensures ends { Ends (asked_by words.now) (S.text shelf.old)
        (S.faults shelf.old) (S.faults shelf.new) (K.written sink.old) (K.written sink.new)
        (K.faults sink.old) (K.faults sink.new) result }
    ensures unread { file_asked (asked_by words.now) ≡ None
        → shelf.new ≡ shelf.old }
{
    let answer = answer_alone(alloc, words, shelf);
    ended(alloc, answer, sink)
}

fn call_in_pool<R: Threads + Wait + Sync + AllocGlobal, S: Shelf, K: Sink, G: Gate + Sync>(
    rt: &R,
    words: &[String],
    shelf: &mut S,
    sink: &mut K,
    gate: &G,
) -> Status
    requires { 2 ≤ workers_asked (asked_by words.now) }
    ensures ends { Ends (asked_by words.now) (S.text shelf.old)
        (S.faults shelf.old) (S.faults shelf.new) (K.written sink.old) (K.written sink.new)
        (K.faults sink.old) (K.faults sink.new) result }
    ensures unread { file_asked (asked_by words.now) ≡ None
        → shelf.new ≡ shelf.old }
{
    let answer = answer_in_pool(rt, rt.alloc(), words, shelf, gate);
    ended(rt.alloc(), answer, sink)
}

/// Whether the words ask for several workers.
pub fn asks_for_many(words: &[String]) -> bool
    ensures many { result ≡ true → 2 ≤ workers_asked (asked_by words.now) }
    ensures one { result ≡ false → workers_asked (asked_by words.now) ≡ 1 }
{
    match asked(words) {
        Some(Request::Run(run)) => run.options.workers > 1,
        Some(Request::Compile(_)) => false,
        Some(Request::Sample(sample)) => sample.options.workers > 1,
        Some(Request::Exec(_)) => false,
        None => false,
    }
}

fn call<R: Threads + Wait + Sync + AllocGlobal, S: Shelf, K: Sink, G: Gate + Sync>(
    rt: &R,
    words: &[String],
    shelf: &mut S,
    sink: &mut K,
    gate: &G,
) -> Status
    ensures ends { Ends (asked_by words.now) (S.text shelf.old)
        (S.faults shelf.old) (S.faults shelf.new) (K.written sink.old) (K.written sink.new)
        (K.faults sink.old) (K.faults sink.new) result }
    ensures unread { file_asked (asked_by words.now) ≡ None
        → shelf.new ≡ shelf.old }
{
    if asks_for_many(words) {
        call_in_pool(rt, words, shelf, sink, gate)
    } else {
        call_alone(rt.alloc(), words, shelf, sink)
    }
}

/// Does what words ask for that ask for one worker, as `tpal` does. It never waits.
pub fn tpal_alone<S: Shelf, K: Sink>(
    alloc: Global,
    words: &[String],
    shelf: &mut S,
    sink: &mut K,
) -> Status
    requires { workers_asked (asked_by words.now) ≡ 1 }

    // The headline: a call that ends without a fault and with memory wrote what it owes.
    ensures answered { IsFinal result
        → Finished (asked_by words.now) (S.text shelf.old) (K.written sink.old)
        (K.written sink.new) result }

    // Each way to end without that has its cause.
    ensures cause { HasCause (asked_by words.now) (S.text shelf.old)
        (S.faults shelf.old) (S.faults shelf.new) (K.written sink.old) (K.written sink.new)
        (K.faults sink.old) (K.faults sink.new) result }

    // Each refusal comes exactly where its cause stands.
    ensures refuses { RefusesRightly (asked_by words.now) (S.text shelf.old)
        (K.written sink.old) (K.written sink.new) result }

    // A program that is accepted runs over its tables text, or is compiled.
    ensures runs { RunsOrCompiles (asked_by words.now) (S.text shelf.old)
        (S.faults shelf.old) (S.faults shelf.new) (K.written sink.old) (K.written sink.new)
        (K.faults sink.old) (K.faults sink.new) result }

    // A code that is accepted runs over its tables text, and else is refused rightly.
    ensures executes { ExecsRightly (asked_by words.now) (S.text shelf.old)
        (S.faults shelf.old) (S.faults shelf.new) (K.written sink.old) (K.written sink.new)
        (K.faults sink.old) (K.faults sink.new) result }

    // Words that name no program and no code, as those of `sample`, leave the shelf alone.
    ensures unread { file_asked (asked_by words.now) ≡ None
        → shelf.new ≡ shelf.old }
{
    text_is_read_one_way();
    tpal_asm::text_is_read_one_way();
    call_alone(alloc, words, shelf, sink)
}

/// Does what the words ask for, and writes what comes of it.
///
/// The words are `run`, a name, and optionally a second name, with the options `--beat`, `--forks`,
/// `--fuel` and `--workers`, each with a number in one word with `=` or in two, and `--show`, each
/// of them once and in any order; or `sample`, a seed of at most 4,294,967,295, and these options
/// but `--show`; or `compile` and a name; or `exec`, a name, and optionally a second name, with the
/// options `--beat`, `--forks`, `--fuel` and `--steps`. `--` ends the options. All others are bad
/// words.
///
/// `run` runs the program whose text has the first name, over the tables text of the second, or
/// over the empty one: by 1 to 16 workers, with a heartbeat of 1 to 1,000,000,000 instructions,
/// each worker diverted at most `--forks` times, of at most 1,000,000, and with a fuel of at most
/// 1,000,000,000,000 ticks. Where none is given these are 1, 10,000, 1,000,000 and 1,000,000,000.
/// With `--show` the program's code stands before its output, and a line of counts behind it.
/// `sample` runs the program of `sample_gen` over the table of a million cells that the seed makes.
/// `compile` writes the program's code. The texts are fetched from the shelf; `sample` needs none.
/// `exec` runs the code whose text has the first name, where the verifier accepts it, by one worker
/// and for at most `--steps` instructions, 1,000,000,000 where none are given, of at most
/// 1,000,000,000,000. A run that isn't over then, and one that is stuck, writes one line alone.
///
/// `ReadFault` comes only where the count of the first name's faults rose, or, where the program
/// was accepted, that of the second name's, and nothing is written then; `WriteFault` only where
/// the sink's count rose, and a prefix of a text that isn't empty was written. `NoMemory` is free.
/// Every other status comes with the whole text.
///
/// Words that ask for one worker go the road of `tpal_alone`. With more it may wait, and the gate
/// hears of each worker's moments.
pub fn tpal<R: Threads + Wait + Sync + AllocGlobal, S: Shelf, K: Sink, G: Gate + Sync>(
    rt: &R,
    words: &[String],
    shelf: &mut S,
    sink: &mut K,
    gate: &G,
) -> Status
    // The headline: a call that ends without a fault and with memory wrote what it owes.
    ensures answered { IsFinal result
        → Finished (asked_by words.now) (S.text shelf.old) (K.written sink.old)
        (K.written sink.new) result }

    // Each way to end without that has its cause.
    ensures cause { HasCause (asked_by words.now) (S.text shelf.old)
        (S.faults shelf.old) (S.faults shelf.new) (K.written sink.old) (K.written sink.new)
        (K.faults sink.old) (K.faults sink.new) result }

    // Each refusal comes exactly where its cause stands.
    ensures refuses { RefusesRightly (asked_by words.now) (S.text shelf.old)
        (K.written sink.old) (K.written sink.new) result }

    // A program that is accepted runs over its tables text, or is compiled.
    ensures runs { RunsOrCompiles (asked_by words.now) (S.text shelf.old)
        (S.faults shelf.old) (S.faults shelf.new) (K.written sink.old) (K.written sink.new)
        (K.faults sink.old) (K.faults sink.new) result }

    // A code that is accepted runs over its tables text, and else is refused rightly.
    ensures executes { ExecsRightly (asked_by words.now) (S.text shelf.old)
        (S.faults shelf.old) (S.faults shelf.new) (K.written sink.old) (K.written sink.new)
        (K.faults sink.old) (K.faults sink.new) result }

    // Words that name no program and no code, as those of `sample`, leave the shelf alone.
    ensures unread { file_asked (asked_by words.now) ≡ None
        → shelf.new ≡ shelf.old }
{
    text_is_read_one_way();
    tpal_asm::text_is_read_one_way();
    call(rt, words, shelf, sink, gate)
}
