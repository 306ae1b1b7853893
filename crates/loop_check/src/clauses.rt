// The clauses of a `par`.

ghost use Rattle.std.specs.Prelude.{◌≡◌, ◌||◌, []};
ghost use Rattle.loop_rules.specs.Carries.{miscarried, last_index, row_reduced, outside_nearest};
ghost use Rattle.loop_rules.specs.Carries.{bad_item};
ghost use Rattle.loop_rules.specs.Carries.{bad_items};
ghost use Rattle.loop_rules.specs.Names.{is_in, table_name};
ghost use Rattle.loop_rules.specs.Reductions.{misreduced, any_loop, other_operator};
ghost use Rattle.loop_rules.specs.Reductions.{reduced_otherwise};
ghost use Rattle.loop_rules.specs.Reductions.{bad_targets};
ghost use Rattle.loop_rules.specs.Sites.{Parallel};
ghost use Rattle.tp_value.specs.declared.Place.{Place};
ghost use Rattle.loop_rules.specs.Search.{lowest};
ghost use Rattle.loop_check.specs.Walk.{loop_of, rounds_of, inside, targets_of, carried_tables};

use crate::round::{Round, Test, any_round};
use crate::shape::is_within;
use crate::spot::Spot;
use loop_rules::{Fault, Rule, note_if};
use loop_syntax::{Carry, Reduce, RowAt, operator_of};

/// Whether a reduction doesn't agree with the loops round.
fn disagrees(rounds: &[Round], reduce: &Reduce) -> bool
    ensures { result
        ≡ (any_loop (other_operator reduce.now) (rounds_of rounds.now) || any_loop
        (reduced_otherwise reduce.now) (rounds_of rounds.now)) }
{
    any_round(rounds, &Test::OtherOperator(reduce))
        || any_round(rounds, &Test::ReducedOtherwise(reduce))
}

/// Whether a variable is the target of one of these.
fn is_target(before: &[Reduce], name: &[u8]) -> bool
    ensures { result ≡ is_in (targets_of before.now) name.now }
{
    for q in before {
        if q.target.text.as_slice() == name {
            return true;
        }
    }
    false
}

/// Whether a reduction may not stand there, behind those.
fn bad_target(rounds: &[Round], before: &[Reduce], reduce: &Reduce) -> bool
    ensures { result
        ≡ ((any_loop (other_operator reduce.now) (rounds_of rounds.now) || any_loop
        (reduced_otherwise reduce.now) (rounds_of rounds.now))
        || is_in (targets_of before.now) reduce.now.target.text.items) }
{
    disagrees(rounds, reduce) || is_target(before, &reduce.target.text)
}

/// The variables of a reduce list.
fn targets(spot: &Spot, found: &mut Option<Fault>, reduces: &[Reduce])
    ensures { found.new
        ≡ lowest found.old Rule.Reductions (bad_targets [] reduces.now (rounds_of
        spot.now.rounds.now)) }
{
    for i in 0..reduces.len() {
        let q = &reduces[i];
        note_if(
            found,
            Rule::Reductions,
            bad_target(spot.rounds, &reduces[..i], q),
            q.target.place,
        );
    }
}

/// The last index of a carry item.
fn last_index(item: &Carry) -> &[u8]
    ensures { result.now ≡ last_index item.now }
{
    match item {
        Carry::Rows(_, i) => &i.text,
        Carry::Cells(_, _, j) => &j.text,
    }
}

/// Whether the item's row is a variable that the loop reduces.
fn row_reduced(round: &Round, item: &Carry) -> bool
    ensures { result ≡ row_reduced (loop_of round.now) item.now }
{
    match item {
        Carry::Rows(_, _) => false,
        Carry::Cells(_, RowAt::Var(k), _) => operator_of(&round.par.reduces, &k.text).is_some(),
        Carry::Cells(_, RowAt::Int(_), _) => false,
    }
}

/// Whether there is a loop round, and the item isn't `t[i][j]` where the nearest carries `t[i]`.
fn outside_nearest(rounds: &[Round], item: &Carry) -> bool
    ensures { result ≡ outside_nearest (rounds_of rounds.now) item.now }
{
    match rounds.first() {
        Some(round) => !is_within(round, item),
        None => false,
    }
}

/// Whether an item may not stand there, whatever stands before it.
fn bad_item(rounds: &[Round], round: &Round, item: &Carry) -> bool
    ensures { result ≡ bad_item (rounds_of rounds.now) (loop_of round.now) item.now }
{
    last_index(item) != round.par.var.text.as_slice()
        || row_reduced(round, item)
        || outside_nearest(rounds, item)
}

/// Whether a table is carried by one of these.
fn is_carried(before: &[Carry], table: &[u8]) -> bool
    ensures { result ≡ is_in (carried_tables before.now) table.now }
{
    for c in before {
        if c.table().text.as_slice() == table {
            return true;
        }
    }
    false
}

/// Whether an item may not stand there, behind those.
fn bad_carry(rounds: &[Round], round: &Round, before: &[Carry], item: &Carry) -> bool
    ensures { result
        ≡ (bad_item (rounds_of rounds.now) (loop_of round.now) item.now || is_in
        (carried_tables before.now) (table_name item.now).text.items) }
{
    bad_item(rounds, round, item) || is_carried(before, &item.table().text)
}

/// The items of the carry list.
fn items(spot: &Spot, found: &mut Option<Fault>, round: &Round, carries: &[Carry])
    ensures { found.new
        ≡ lowest found.old Rule.CarryLists (bad_items [] carries.now (loop_of round.now)
        (rounds_of spot.now.rounds.now)) }
{
    for i in 0..carries.len() {
        let c = &carries[i];
        note_if(
            found,
            Rule::CarryLists,
            bad_carry(spot.rounds, round, &carries[..i], c),
            c.table().place,
        );
    }
}

/// The head of a `par`.
pub fn parallel(spot: &Spot, found: &mut Option<Fault>, round: &Round)
    ensures { (place carry_place : Place)
        → let act = Parallel place carry_place (loop_of round.now) in found.new
        ≡ lowest (lowest found.old Rule.Reductions (misreduced act (inside spot.now)))
        Rule.CarryLists
        (miscarried act (inside spot.now)) }
{
    targets(spot, found, &round.par.reduces);
    items(spot, found, round, &round.par.carries);
}
