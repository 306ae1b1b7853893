// The merge of two sides.

ghost use Rattle.std.specs.Prelude.{◌≡◌, ◌+◌, ◌≤◌, ◌^◌, ◌++◌, [], if◌then◌else◌, IfOk, OnOk};
ghost use Rattle.std.specs.Prelude.{slice_set};
ghost use Rattle.tpal_machine.specs.Answer.{IsMerged};
ghost use Rattle.tpal_machine.specs.Belonging.{IsMergedOf};
ghost use Rattle.tpal_machine.specs.Belongs.{RestBelongsTo, SideBelongsTo};
ghost use Rattle.tpal_machine.specs.Merge as merging;
ghost use Rattle.tpal_machine.specs.Merge.{AreSides};
ghost use Rattle.tpal_machine.specs.Reading.{the_target, table_at};
ghost use Rattle.tpal_machine.specs.Seen.{rest_state, IsRestSound};
ghost use Rattle.beat_count.specs.FuelState.{IsFuel};
ghost use Rattle.slices.specs.Holding.{together};

use crate::blocks::{comb_of, renames_of};
use crate::ending::is_done;
use crate::ends::{Goal, Side, SideName, Tie};
use crate::fork::position;
use crate::records::set_register;
use crate::rest::{Kept, Rest};
use crate::task::{Machine, Task};
use beat_count::{Beat, Fuel, join_stops};
use slices::Held;
use std::alloc::Global;
use std::mem::replace;
use tp_value::{Items, NoMemory, Outcome, Stop};
use tpal_syntax::{Code, Word};

/// What a rest and its two sides came to.
#[derive(Drop)]
pub enum Merged {
    /// The task behind the join, which goes on at the combining block: both are done, or they were
    /// left.
    Runs(Task),
    /// Both ended by a stop, as a side of the record that the rest ends at.
    Arrived { rec: u32, side: SideName, out: Side },
    /// Both ended by a stop, and so does the whole run.
    Halted(Outcome),
}

/// Puts words into the registers of their numbers.
fn fill(registers: &mut [Word; 32], words: &[(u8, Word)])
    ensures { registers.new ≡ merging.filled registers.old words.now }
{
    for word in words {
        set_register(registers, word.0, word.1);
    }
}

/// Puts words into the registers of the right names of a renaming, in their order.
#[tactic(auto, using(crate::proofs::Merging::renamed_more, crate::proofs::Merging::names_end, crate::proofs::Merging::words_end))]
fn fill_renamed(registers: &mut [Word; 32], renames: &[(u8, u8)], words: &[(u8, Word)])
    ensures { registers.new ≡ merging.filled registers.old (merging.renamed renames.now words.now) }
{
    for at in 0..renames.len() {
        if at >= words.len() {
            return;
        }
        set_register(registers, renames[at].1, words[at].1);
    }
}

/// The registers behind a join.
fn merged_registers(
    base: u64,
    renames: &[(u8, u8)],
    left: &[(u8, Word)],
    right: &[(u8, Word)],
) -> [Word; 32]
    requires { base ≤ 2 ^ 62 }
    ensures { result ≡ merging.merged_registers base renames.now left.now right.now }
{
    let mut registers = [Word::Nil; 32];
    registers[31] = position(base);
    fill(&mut registers, left);
    fill_renamed(&mut registers, renames, right);
    registers
}

/// Puts a part to what is held of its table.
#[tactic(auto, using(crate::proofs::Lists::set_beyond))]
fn append_part(tables: &mut Vec<Held>, table: u8, part: Held) -> Result<(), NoMemory>
    ensures { OnOk result
        (tables.new.items
        ≡ slice_set tables.old.items table (together (table_at tables.old.items table) part)) }
{
    if (table as usize) >= tables.len() {
        return Ok(());
    }
    match tables[table as usize].append(part) {
        Ok(()) => Ok(()),
        Err(_) => Err(NoMemory),
    }
}

/// Puts parts to what is held of their tables.
#[tactic(auto, using(crate::proofs::Merging::together_more))]
fn append_parts(tables: &mut Vec<Held>, slices: Vec<(u8, Held)>) -> Result<(), NoMemory>
    ensures { OnOk result (tables.new.items ≡ merging.put_together tables.old.items slices.items) }
{
    for slice in slices {
        append_part(tables, slice.0, slice.1)?;
    }
    Ok(())
}

/// What was printed before the fork, by the left, and by the right where the left is done.
fn joined_output(
    before: Vec<u8>,
    left: &[u8],
    right: &[u8],
    is_left_done: bool,
) -> Result<Vec<u8>, NoMemory>
    ensures { IfOk result
        (λ output. output.items
        ≡ before.items ++ left.now ++ (if is_left_done then right.now else [])) }
{
    let mut output = before;
    output.extend_from_slice(left)?;
    if is_left_done {
        output.extend_from_slice(right)?;
    }
    Ok(output)
}

/// The task behind a join.
fn merged_task(
    kept: Kept,
    left: Side,
    right: Side,
    code: &Code,
    ticks: u64,
    output: Vec<u8>,
) -> Result<Task, NoMemory>
    requires sound { IsRestSound kept }
    requires ticks { IsFuel kept.limit ticks }
    ensures { IfOk result
        (λ task. task
        ≡ merging.merged_task (the_target code.now kept.target) (rest_state kept) left right ticks
        output.items) }
{
    let alloc = *output.allocator();
    let registers = merged_registers(
        kept.base,
        renames_of(code, kept.target),
        left.words.items(),
        right.words.items(),
    );
    let mut tables = kept.tables;
    append_parts(&mut tables, left.slices.into_vec())?;
    append_parts(&mut tables, right.slices.into_vec())?;
    let machine = Box::new(
        alloc,
        Machine {
            registers,
            stack: kept.stack,
            tables,
            made: kept.made,
            fuel: Fuel::at(kept.limit, ticks),
            beat: Beat::new(),
            output,
            goal: kept.goal,
            block: comb_of(code, kept.target),
            at: 0,
            pending: None,
            met: Some(Tie {
                rec: kept.rec,
                target: kept.target,
            }),
            waiting: None,
        },
    )?;
    Ok(Task { machine })
}

/// The task behind a join that was left with a number.
fn left_task(
    kept: Kept,
    number: i64,
    code: &Code,
    ticks: u64,
    output: Vec<u8>,
) -> Result<Task, NoMemory>
    requires sound { IsRestSound kept }
    requires ticks { IsFuel kept.limit ticks }
    ensures { IfOk result
        (λ task. task
        ≡ merging.left_task (the_target code.now kept.target) (rest_state kept) number ticks
        output.items) }
{
    let alloc = *output.allocator();
    let mut registers = [Word::Nil; 32];
    registers[31] = position(kept.base);
    registers[29] = Word::Int(number);
    let fuel = Fuel::at(kept.limit, ticks);
    let machine = Box::new(
        alloc,
        Machine {
            registers,
            stack: kept.stack,
            tables: kept.tables,
            made: kept.made,
            fuel,
            beat: Beat::new(),
            output,
            goal: kept.goal,
            block: comb_of(code, kept.target),
            at: 0,
            pending: None,
            met: None,
            waiting: None,
        },
    )?;
    Ok(Task { machine })
}

/// Both ended by a stop.
fn ended_together(alloc: Global, goal: Goal, stop: Stop, ticks: u64, output: Vec<u8>) -> Merged
    ensures { IsMerged (merging.Ends (merging.ended_together goal stop ticks output.items)) result }
{
    let output = Items::new(output);
    match goal {
        Goal::Root => Merged::Halted(Outcome {
            stop,
            output,
            ticks,
        }),
        Goal::At {
            rec,
            side,
            target: _,
        } => Merged::Arrived {
            rec,
            side,
            out: Side {
                stop,
                ticks,
                output,
                words: Items::new(Vec::new(alloc)),
                slices: Items::new(Vec::new(alloc)),
            },
        },
    }
}

/// What a rest and two sides come to, left then right.
pub(crate) fn merge_parts(
    rest: Rest,
    left: Side,
    right: Side,
    code: &Code,
) -> Result<Merged, NoMemory>
    requires left { left.ticks ≤ rest.limit + 1 }
    requires right { right.ticks ≤ rest.limit + 1 }
    ensures { IfOk result (λ merged. IsMerged (merging.joined code.now rest left right) merged) }
{
    let Rest { mut kept } = rest;
    let (stop, ticks) = join_stops(left.stop, left.ticks, right.stop, right.ticks, kept.limit);
    let alloc = *kept.output.allocator();
    let before = replace(&mut kept.output, Vec::new(alloc));
    let is_left_done = is_done(left.stop);
    let output = joined_output(
        before,
        left.output.items(),
        right.output.items(),
        is_left_done,
    )?;
    match stop {
        Stop::Done => {
            let task = merged_task(kept, left, right, code, ticks, output)?;
            Ok(Merged::Runs(task))
        }
        Stop::Left(number) => {
            let task = left_task(kept, number, code, ticks, output)?;
            Ok(Merged::Runs(task))
        }
        Stop::Trap(_, _) | Stop::NoFuel => Ok(ended_together(
            alloc, kept.goal, stop, ticks, output,
        )),
    }
}

/// Puts the two sides of a rest's record together, left then right: the task behind the join, or
/// where the two together don't come to their end and weren't left, what both end with.
pub fn merge(rest: Rest, left: Side, right: Side, code: &Code) -> Result<Merged, NoMemory>
    requires sides { AreSides code.now rest left right }
    requires rest { RestBelongsTo code.now rest }
    requires left { SideBelongsTo code.now left }
    requires right { SideBelongsTo code.now right }
    ensures merged { IfOk result (λ merged.
        IsMerged (merging.joined code.now rest left right) merged) }
    ensures belongs { IfOk result (IsMergedOf code.now) }
{
    let _blocks = code.blocks();
    merge_parts(rest, left, right, code)
}
