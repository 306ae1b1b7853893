// The `leave` statements of a `par`.

ghost use Rattle.std.specs.Prelude.{◌≡◌, ◌||◌, ◌++◌, [], not, bytes_eq, IfOk};
ghost use Rattle.loop_rules.specs.Leaves.{is_empty, cannot_leave, is_inner, bad_lefts, misleft};
ghost use Rattle.loop_rules.specs.Names.{is_in};
ghost use Rattle.loop_rules.specs.Reductions.{misreduced, any_loop};
ghost use Rattle.loop_rules.specs.Sites.{Leaves, LeavesAll};
ghost use Rattle.loop_rules.specs.Search.{lowest};
ghost use Rattle.loop_rules.specs.Targets.{targets_in, targets_list};
ghost use Rattle.loop_rules.specs.Walk.{named};
ghost use Rattle.loop_check.specs.Walk.{texts_of, rounds_of, inside};

use crate::expression::occurs;
use crate::names::is_in;
use crate::round::{Round, Test, any_round};
use crate::spot::Spot;
use loop_rules::{Fault, Rule, note_if};
use loop_syntax::{Carry, Name, ParLoop, Reduce, Stmt};
use std::alloc::Global;
use tp_value::NoMemory;

/// Whether a carry list has an item.
fn carries_any(carries: &[Carry]) -> bool
    ensures { result ≡ not (is_empty carries.now) }
{
    !carries.is_empty()
}

/// Whether a reduce list has a variable.
fn reduces_any(reduces: &[Reduce]) -> bool
    ensures { result ≡ not (is_empty reduces.now) }
{
    !reduces.is_empty()
}

/// Whether there is no loop to leave, or the nearest one carries or reduces.
fn cannot_leave(rounds: &[Round]) -> bool
    ensures { result ≡ cannot_leave (rounds_of rounds.now) }
{
    match rounds.first() {
        Some(round) => carries_any(&round.par.carries) || reduces_any(&round.par.reduces),
        None => true,
    }
}

/// Whether a visible variable is declared inside the body of the nearest loop.
fn is_inner(spot: &Spot, variable: &[u8]) -> bool
    ensures { result
        ≡ is_inner (texts_of spot.now.scope.items) (rounds_of spot.now.rounds.now) variable.now }
{
    match spot.rounds.first() {
        Some(round) => is_in(&spot.scope, variable) && !is_in(round.outside, variable),
        None => false,
    }
}

/// The target of a `leave`.
pub fn leaves(spot: &Spot, found: &mut Option<Fault>, target: &Name)
    ensures { found.new
        ≡ lowest (lowest found.old Rule.Reductions (misreduced (Leaves target.now)
        (inside spot.now)))
        Rule.Leaves
        (misleft (Leaves target.now) (inside spot.now)) }
{
    occurs(spot, found, target);
    let broken = cannot_leave(spot.rounds) || is_inner(spot, &target.text);
    note_if(found, Rule::Leaves, broken, target.place);
}

/// Adds the targets of a statement, in order.
#[cycle(targets)]
fn push_targets<'a>(targets: &mut Vec<&'a Name>, statement: &'a Stmt) -> Result<(), NoMemory>
    ensures { IfOk result (λ u.
        named targets.new.items ≡ named targets.old.items ++ targets_in statement.now) }
{
    match statement {
        Stmt::Leave(x, _) => {
            targets.push(x)?;
            Ok(())
        }
        Stmt::If(_, body, other) => {
            push_all(targets, body)?;
            push_all(targets, other)
        }
        Stmt::While(_, body) => push_all(targets, body),
        Stmt::Loop(_, _, _, body) => push_all(targets, body),
        _ => Ok(()),
    }
}

/// Adds the targets of the statements of a list, in order.
#[cycle(targets)]
fn push_all<'a>(targets: &mut Vec<&'a Name>, body: &'a [Stmt]) -> Result<(), NoMemory>
    ensures { IfOk result (λ u.
        named targets.new.items ≡ named targets.old.items ++ targets_list body.now) }
{
    for s in body {
        push_targets(targets, s)?;
    }
    Ok(())
}

/// Whether a target may not stand there, by what is round the `par`, or behind another target.
fn is_bad(spot: &Spot, target: &Name, behind_other: bool) -> bool
    ensures { result
        ≡ ((any_loop (λ loop. is_in loop.outside target.now.text.items)
        (rounds_of spot.now.rounds.now)
        || is_in (texts_of spot.now.loops.items) target.now.text.items)
        || behind_other) }
{
    any_round(spot.rounds, &Test::Outside(&target.text))
        || is_in(&spot.loops, &target.text)
        || behind_other
}

/// Whether there was more than one name before, or this one isn't the first.
fn is_mixed(mixed: bool, target: &Name, first: &Name) -> bool
    ensures { result
        ≡ (mixed || not (bytes_eq target.now.text.items first.now.text.items)) }
{
    mixed || target.text.as_slice() != first.text.as_slice()
}

/// The targets of one `par`. Where one isn't the first, each one from it on stands behind another
/// name.
fn go_over(spot: &Spot, found: &mut Option<Fault>, targets: &[&Name])
    ensures { found.new
        ≡ lowest found.old Rule.Leaves (bad_lefts [] (named targets.now) (inside spot.now)) }
{
    let mut mixed = false;
    for i in 0..targets.len() {
        let target = targets[i];
        mixed = is_mixed(mixed, target, targets[0]);
        note_if(
            found,
            Rule::Leaves,
            is_bad(spot, target, mixed),
            target.place,
        );
    }
}

/// All the `leave` statements of a `par`.
pub fn all_leave(
    alloc: Global,
    spot: &Spot,
    found: &mut Option<Fault>,
    par: &ParLoop,
) -> Result<(), NoMemory>
    ensures { IfOk result (λ u. found.new
        ≡ lowest found.old Rule.Leaves
        (misleft (LeavesAll (targets_list par.now.body.items)) (inside spot.now))) }
{
    let mut all = Vec::new(alloc);
    push_all(&mut all, &par.body)?;
    go_over(spot, found, &all);
    Ok(())
}
