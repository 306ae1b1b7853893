// A record's life, in one thread and in two. Each step is a function with a contract, so that the
// calls of a test are short to prove.

ghost use Rattle.std.specs.Prelude.{◌≡◌, ℕ, ◌+◌, Some, IfOk, IfSome, IfNone};
ghost use Rattle.tpal_machine.specs.declared.ends.End.TheVariants.{Root, At};
ghost use Rattle.tpal_machine.specs.declared.ends.SideName.TheVariants.{Left, Right};
ghost use Rattle.join_records.specs.declared.views.Grip.TheVariants.{Reserved};
ghost use Rattle.join_records.specs.Views.{Holds, HoldsNothing, in_hand, NoneMet};
ghost use Rattle.join_records.specs.Passes.{IsPassOf, record_count, taken_number, view};

use crate::load::Load;
use crate::table::{Arrival, Pass, Records, Taken};
use std::alloc::Global;
use std::test::Fail;
use std::thread::{Threads, join};
use tp_value::NoMemory;
use tpal_machine::{End, SideName};

/// Plain numbers: every child has each end and owes its own number, every side is its own number as
/// an ending, and every rest keeps Root and owes the sum of its own number and both endings.
struct Numbers;

impl Load for Numbers {
    ghost use Rattle.std.specs.Prelude.{◌≡◌, ◌+◌};
    ghost use Rattle.std.proofs.Common.{sym, ◌∙◌};
    ghost use Rattle.tpal_machine.specs.declared.ends.End.TheVariants.{Root};

    type Rest = u64;

    type Child = u64;

    type Side = u64;

    type Ending = u64;

    ghost has_end = { λ child end. Unit {0} };

    ghost keeps = { λ rest end. end ≡ Root };

    ghost owes = { λ child ending. ending ≡ child };

    ghost is_ending = { λ side end ending. ending ≡ side };

    ghost rest_owes = { λ rest left right ending. ending ≡ rest + left + right };

    ghost child_owes_one = { λ c a b x y. x ∙ sym y };

    ghost side_is_one = { λ s e a b x y. x ∙ sym y };

    ghost rest_owes_one = { λ r p q a b x y. x ∙ sym y };
}

/// A table of one record and its two passes. What is owed at Root is 7.
fn two_passes(alloc: Global) -> Result<(Records<Numbers>, Pass<Numbers>, Pass<Numbers>), NoMemory>
    ensures table { IfOk result (λ r. record_count r.0 ≡ 1) }
    ensures first { IfOk result
        (λ r. IsPassOf r.0 r.1
        × Holds (view r.1) Root 7
        × NoneMet (view r.1)
        × ((view r.1).opens ≡ 0)
        × ((view r.1).parts ≡ 15)) }
    ensures second { IfOk result
        (λ r. IsPassOf r.0 r.2
        × HoldsNothing (view r.2)
        × NoneMet (view r.2)
        × ((view r.2).opens ≡ 0)
        × ((view r.2).parts ≡ 1)) }
{
    let (table, mut passes) = Records::new(alloc, 1, 2, &7)?;
    let Some(second) = passes.pop() else {
        unreachable!()
    };
    let Some(first) = passes.pop() else {
        unreachable!()
    };
    Ok((table, first, second))
}

/// Whether no record is free.
fn finds_none(table: &Records<Numbers>, pass: &mut Pass<Numbers>) -> bool
    requires table { IsPassOf table.now pass.old }
    requires end { HoldsNothing (view pass.old) }
    requires none_met { NoneMet (view pass.old) }
    ensures pass { IsPassOf table.now pass.new
        × HoldsNothing (view pass.new)
        × NoneMet (view pass.new)
        × ((view pass.new).parts ≡ (view pass.old).parts)
        × ((view pass.new).opens ≡ (view pass.old).opens) }
{
    match table.find_free(pass) {
        None => true,
        Some(_) => false,
    }
}

/// Takes the record where it is free.
fn take_one(table: &Records<Numbers>, pass: &mut Pass<Numbers>) -> Option<Taken>
    requires table { IsPassOf table.now pass.old × (record_count table.now ≡ 1) }
    requires root { Holds (view pass.old) Root 7 }
    requires none_met { NoneMet (view pass.old) }
    ensures taken { IfSome result
        (λ taken. (taken_number taken ≡ 0) × (in_hand (view pass.new).hand 0 ≡ Some Reserved)) }
    ensures pass { IsPassOf table.now pass.new
        × Holds (view pass.new) Root 7
        × NoneMet (view pass.new)
        × ((view pass.new).parts ≡ (view pass.old).parts)
        × ((view pass.new).opens ≡ (view pass.old).opens) }
{
    table.find_free(pass)
}

/// Opens the record that was taken: 1 waits there for 2 and 4.
fn open_one(table: &Records<Numbers>, pass: &mut Pass<Numbers>, taken: Taken) -> u32
    requires table { IsPassOf table.now pass.old × (record_count table.now ≡ 1) }
    requires taken { (taken_number taken ≡ 0) × (in_hand (view pass.old).hand 0 ≡ Some Reserved) }
    requires root { Holds (view pass.old) Root 7 }
    requires none_met { NoneMet (view pass.old) }
    requires opens { (view pass.old).opens ≡ 0 }
    ensures opened { (result ≡ 0)
        × Holds (view pass.new) (At 0 Left) 2
        × ((view pass.new).opens ≡ 1) }
    ensures pass { IsPassOf table.now pass.new
        × NoneMet (view pass.new)
        × ((view pass.new).parts ≡ (view pass.old).parts) }
{
    table.open_at(pass, taken, 1, &2, 4, End::Root)
}

/// Arrives at the record, and frees it where it was the second to arrive.
fn settle(
    table: &Records<Numbers>,
    pass: &mut Pass<Numbers>,
    side: SideName,
    out: u64,
) -> Option<(u64, u64, u64)>
    requires table { IsPassOf table.now pass.old × (record_count table.now ≡ 1) }
    requires end { Holds (view pass.old) (At 0 side) out }
    requires none_met { NoneMet (view pass.old) }
    ensures first { IfNone result (HoldsNothing (view pass.new)) }
    ensures second { IfSome result (λ r. Holds (view pass.new) Root (r.0 + r.1 + r.2)) }
    ensures pass { IsPassOf table.now pass.new
        × NoneMet (view pass.new)
        × ((view pass.new).parts ≡ (view pass.old).parts)
        × ((view pass.new).opens ≡ (view pass.old).opens) }
{
    match table.arrive(pass, 0, side, out) {
        Arrival::First => None,
        Arrival::Second {
            rest,
            left,
            right,
            met,
        } => {
            table.free(pass, met);
            Some((rest, left, right))
        }
    }
}

/// Claims the record's child, and arrives with it at the record's right end.
fn right_half(table: &Records<Numbers>, pass: &mut Pass<Numbers>) -> Option<Option<(u64, u64, u64)>>
    requires table { IsPassOf table.now pass.old × (record_count table.now ≡ 1) }
    requires end { HoldsNothing (view pass.old) }
    requires none_met { NoneMet (view pass.old) }
    ensures none { IfNone result (HoldsNothing (view pass.new)) }
    ensures first { IfSome result (λ r. IfNone r (HoldsNothing (view pass.new))) }
    ensures second { IfSome result (λ r.
        IfSome r (λ t. Holds (view pass.new) Root (t.0 + t.1 + t.2))) }
    ensures pass { IsPassOf table.now pass.new
        × NoneMet (view pass.new)
        × ((view pass.new).parts ≡ (view pass.old).parts)
        × ((view pass.new).opens ≡ (view pass.old).opens) }
{
    let child = table.claim(pass, 0)?;
    Some(settle(table, pass, SideName::Right, child))
}

/// Makes the finish where the pass holds Root, and looks whether it was made.
fn finish_seen(table: &Records<Numbers>, pass: &mut Pass<Numbers>, owed: u64) -> bool
    requires table { IsPassOf table.now pass.old }
    requires root { Holds (view pass.old) Root owed }
    requires none_met { NoneMet (view pass.old) }
    ensures pass { IsPassOf table.now pass.new
        × ((view pass.new).parts ≡ (view pass.old).parts)
        × ((view pass.new).opens ≡ (view pass.old).opens) }
{
    let _ = owed;
    table.finish(pass);
    table.finished(pass)
}

/// Closes the table, and answers how many records were opened.
fn closed_opens(
    alloc: Global,
    table: Records<Numbers>,
    first: Pass<Numbers>,
    second: Pass<Numbers>,
) -> Result<u64, NoMemory>
    requires first { IsPassOf table first × ((view first).parts ≡ 15) }
    requires second { IsPassOf table second × ((view second).parts ≡ 1) }
    ensures { IfOk result (λ n. n ≡ (view first).opens + (view second).opens) }
{
    let mut passes = Vec::new(alloc);
    passes.push(first)?;
    passes.push(second)?;
    Ok(table.close(passes).opens())
}

#[test]
fn both_sides_meet_at_a_record(rt: HostRuntime) -> Result<(), Fail> {
    let (table, mut first, mut second) = two_passes(rt.alloc())?;
    let Some(taken) = take_one(&table, &mut first) else {
        panic!(rt; "the record is free");
    };
    assert_eq!(rt; taken.number(), 0);
    assert!(rt; finds_none(&table, &mut second), "the record is taken");
    assert_eq!(rt; open_one(&table, &mut first, taken), 0);
    assert!(rt; finds_none(&table, &mut second), "the record is open");
    let Some(right) = right_half(&table, &mut second) else {
        panic!(rt; "the child is unclaimed");
    };
    if right.is_some() {
        panic!(rt; "the right side is the first");
    }
    if table.claim(&mut second, 0).is_some() {
        panic!(rt; "the child was claimed");
    }
    let Some(met) = settle(&table, &mut first, SideName::Left, 2) else {
        panic!(rt; "the left side is the second");
    };
    assert_eq!(rt; met, (1, 2, 4));
    assert!(rt; finish_seen(&table, &mut first, met.0 + met.1 + met.2));
    let Some(again) = table.find_free(&mut first) else {
        panic!(rt; "the record is free again");
    };
    assert_eq!(rt; again.number(), 0);
    assert_eq!(rt; closed_opens(rt.alloc(), table, first, second)?, 1);
    Ok(())
}

/// The left half of a record's life, for a thread of its own.
fn left_there(
    table: &Records<Numbers>,
    mut pass: Pass<Numbers>,
) -> (Pass<Numbers>, Option<(u64, u64, u64)>)
    requires table { IsPassOf table.now pass × (record_count table.now ≡ 1) }
    requires end { Holds (view pass) (At 0 Left) 2 }
    requires none_met { NoneMet (view pass) }
    ensures second { IfSome result.1 (λ r. Holds (view result.0) Root (r.0 + r.1 + r.2)) }
    ensures pass { IsPassOf table.now result.0
        × NoneMet (view result.0)
        × ((view result.0).parts ≡ (view pass).parts)
        × ((view result.0).opens ≡ (view pass).opens) }
{
    let met = settle(table, &mut pass, SideName::Left, 2);
    (pass, met)
}

/// The right half, for another.
fn right_there(
    table: &Records<Numbers>,
    mut pass: Pass<Numbers>,
) -> (Pass<Numbers>, Option<Option<(u64, u64, u64)>>)
    requires table { IsPassOf table.now pass × (record_count table.now ≡ 1) }
    requires end { HoldsNothing (view pass) }
    requires none_met { NoneMet (view pass) }
    ensures second { IfSome result.1 (λ r.
        IfSome r (λ t. Holds (view result.0) Root (t.0 + t.1 + t.2))) }
    ensures pass { IsPassOf table.now result.0
        × NoneMet (view result.0)
        × ((view result.0).parts ≡ (view pass).parts)
        × ((view result.0).opens ≡ (view pass).opens) }
{
    let met = right_half(table, &mut pass);
    (pass, met)
}

/// Both halves, each in a thread of its own where one can be made.
fn both_halves<R: Threads + Sync>(
    rt: &R,
    table: &Records<Numbers>,
    first: Pass<Numbers>,
    second: Pass<Numbers>,
) -> (
    (Pass<Numbers>, Option<(u64, u64, u64)>),
    (Pass<Numbers>, Option<Option<(u64, u64, u64)>>),
)
    requires one { record_count table.now ≡ 1 }
    requires first { IsPassOf table.now first × Holds (view first) (At 0 Left) 2
        × NoneMet (view first) }
    requires second { IsPassOf table.now second × HoldsNothing (view second)
        × NoneMet (view second) }
    ensures left { IfSome result.0.1 (λ r. Holds (view result.0.0) Root (r.0 + r.1 + r.2)) }
    ensures right { IfSome result.1.1 (λ r.
        IfSome r (λ t. Holds (view result.1.0) Root (t.0 + t.1 + t.2))) }
    ensures first { IsPassOf table.now result.0.0
        × NoneMet (view result.0.0)
        × ((view result.0.0).parts ≡ (view first).parts)
        × ((view result.0.0).opens ≡ (view first).opens) }
    ensures second { IsPassOf table.now result.1.0
        × NoneMet (view result.1.0)
        × ((view result.1.0).parts ≡ (view second).parts)
        × ((view result.1.0).opens ≡ (view second).opens) }
{
    join(
        rt,
        move || -> (Pass<Numbers>, Option<(u64, u64, u64)>)
            requires { IsPassOf table.now first
                × (record_count table.now ≡ 1)
                × Holds (view first) (At 0 Left) 2
                × NoneMet (view first) }
            ensures second { IfSome result.1 (λ r. Holds (view result.0) Root (r.0 + r.1 + r.2)) }
            ensures pass { IsPassOf table.entry.now result.0
                × NoneMet (view result.0)
                × ((view result.0).parts ≡ (view first).parts)
                × ((view result.0).opens ≡ (view first).opens) }
        { left_there(table, first) },
        move || -> (Pass<Numbers>, Option<Option<(u64, u64, u64)>>)
            requires { IsPassOf table.now second
                × (record_count table.now ≡ 1)
                × HoldsNothing (view second)
                × NoneMet (view second) }
            ensures second { IfSome result.1
                (λ r. IfSome r (λ t. Holds (view result.0) Root (t.0 + t.1 + t.2))) }
            ensures pass { IsPassOf table.entry.now result.0
                × NoneMet (view result.0)
                × ((view result.0).parts ≡ (view second).parts)
                × ((view result.0).opens ≡ (view second).opens) }
        { right_there(table, second) },
    )
}

#[test]
fn both_sides_meet_from_two_threads(rt: HostRuntime) -> Result<(), Fail> {
    for _ in 0..100 {
        let (table, mut first, second) = two_passes(rt.alloc())?;
        let Some(taken) = take_one(&table, &mut first) else {
            panic!(rt; "the record is free");
        };
        assert_eq!(rt; open_one(&table, &mut first, taken), 0);
        let ((mut first, left), (mut second, right)) = both_halves(&rt, &table, first, second);
        let Some(right) = right else {
            panic!(rt; "the child is unclaimed");
        };
        let seen = match (left, right) {
            (Some(met), None) => {
                assert_eq!(rt; met, (1, 2, 4));
                finish_seen(&table, &mut first, met.0 + met.1 + met.2)
            }
            (None, Some(met)) => {
                assert_eq!(rt; met, (1, 2, 4));
                finish_seen(&table, &mut second, met.0 + met.1 + met.2)
            }
            (None, None) => panic!(rt; "one side is the second"),
            (Some(_), Some(_)) => panic!(rt; "one side is the first"),
        };
        assert!(rt; seen);
        assert_eq!(rt; closed_opens(rt.alloc(), table, first, second)?, 1);
    }
    Ok(())
}
