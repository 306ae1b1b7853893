// Four threads at 64 records. Each opening is counted where its two sides meet, and the count goes
// up with the end that its rest kept. So what comes back to Root is the number of openings that
// were met, and one that was lost or met twice would show.

ghost use Rattle.std.specs.Prelude.{◌≡◌, ◌<◌, MatchOption, IfOk, Some};
ghost use Rattle.std.specs.Thread.{IsSync};
ghost use Rattle.tpal_machine.specs.declared.ends.End.TheVariants.{Root, At};
ghost use Rattle.tpal_machine.specs.declared.ends.SideName.TheVariants.{Left, Right};
ghost use Rattle.join_records.specs.Views.{Holds, HoldsNothing, NoneMet};
ghost use Rattle.join_records.specs.Passes.{IsPassOf, record_count, view};
ghost use Rattle.join_records.specs.Seated.{Sits};

use crate::load::Load;
use crate::table::{Arrival, Pass, Records};
use std::alloc::Global;
use std::test::Fail;
use std::thread::{Threads, join};
use tp_value::NoMemory;
use tpal_machine::{End, SideName};

const RECORDS: u32 = 64;

const OPENINGS: u64 = 100_000;

// How often the four work at most, and the turns of each of them then. About 0.2 openings come of a
// turn, so once is mostly enough.
const SHIFTS: u32 = 10;

const TURNS: u32 = 200_000;

// More than there can be steps towards the end of 64 records.
const ROUNDS: u32 = 1_000;

/// What waits at a record: the end that it keeps, and the openings that were counted there before.
#[derive(Drop)]
struct Pending {
    up: End,
    counted: u64,
}

/// Counts of openings. Nothing is owed, so every ending is 0.
struct Counts;

impl Load for Counts {
    ghost use Rattle.std.specs.Prelude.{◌≡◌};
    ghost use Rattle.std.proofs.Common.{sym, ◌∙◌};

    type Rest = Pending;

    type Child = u64;

    type Side = u64;

    type Ending = u64;

    ghost has_end = { λ child end. Unit {0} };

    ghost keeps = { λ rest end. rest.up ≡ end };

    ghost owes = { λ child ending. ending ≡ 0 };

    ghost is_ending = { λ side end ending. ending ≡ 0 };

    ghost rest_owes = { λ rest left right ending. ending ≡ 0 };

    ghost child_owes_one = { λ c a b x y. x ∙ sym y };

    ghost side_is_one = { λ s e a b x y. x ∙ sym y };

    ghost rest_owes_one = { λ r p q a b x y. x ∙ sym y };
}

/// What a worker did.
#[derive(Clone, Copy, PartialEq, Eq, Debug)]
struct Calls {
    opens: u64,
    claims: u64,
    firsts: u64,
    seconds: u64,
}

/// A worker: its pass, the end that it holds, and the openings that were counted there.
#[derive(Drop)]
struct Worker {
    pass: Pass<Counts>,
    end: Option<End>,
    counted: u64,
    dice: u64,
    calls: Calls,
}

/// Opens a record in place of an end, where one is free.
fn open_under(
    table: &Records<Counts>,
    pass: &mut Pass<Counts>,
    up: End,
    counted: u64,
) -> Option<u32>
    requires table { IsPassOf table.now pass.old }
    requires end { Holds (view pass.old) up 0 }
    requires none_met { NoneMet (view pass.old) }
    ensures end { MatchOption result (Holds (view pass.new) up 0)
        (λ k. Holds (view pass.new) (At k Left) 0) }
    ensures pass { IsPassOf table.now pass.new
        × NoneMet (view pass.new)
        × ((view pass.new).parts ≡ (view pass.old).parts) }
{
    if pass.opens() >= 1 << 30 {
        return None;
    }
    let taken = table.find_free(pass)?;
    let rest = Pending { up, counted };
    Some(table.open_at(pass, taken, rest, &0, 0, up))
}

/// Arrives at a record, and frees it where it was the second to arrive. Answers then the end that
/// the pass holds, and what was counted there.
fn arrive_at(
    table: &Records<Counts>,
    pass: &mut Pass<Counts>,
    rec: u32,
    side: SideName,
    counted: u64,
) -> Option<(End, u64)>
    requires table { IsPassOf table.now pass.old × (rec < record_count table.now) }
    requires end { Holds (view pass.old) (At rec side) 0 }
    requires none_met { NoneMet (view pass.old) }
    ensures end { MatchOption result (HoldsNothing (view pass.new))
        (λ r. Holds (view pass.new) r.0 0) }
    ensures pass { IsPassOf table.now pass.new
        × NoneMet (view pass.new)
        × ((view pass.new).parts ≡ (view pass.old).parts) }
{
    match table.arrive(pass, rec, side, counted) {
        Arrival::First => None,
        Arrival::Second {
            rest,
            left,
            right,
            met,
        } => {
            table.free(pass, met);
            let below = left.wrapping_add(right).wrapping_add(1);
            Some((rest.up, rest.counted.wrapping_add(below)))
        }
    }
}

impl Worker {
    fn open(&mut self, table: &Records<Counts>, up: End)
        requires sits { Sits table.now self.old.end self.old.pass }
        requires end { self.old.end ≡ Some up }
        ensures sits { Sits table.now self.new.end self.new.pass
            × ((view self.new.pass).parts ≡ (view self.old.pass).parts) }
    {
        if let Some(rec) = open_under(table, &mut self.pass, up, self.counted) {
            self.end = Some(End::At {
                rec,
                side: SideName::Left,
            });
            self.counted = 0;
            self.calls.opens = self.calls.opens.wrapping_add(1);
        }
    }

    fn arrive(&mut self, table: &Records<Counts>, up: End)
        requires sits { Sits table.now self.old.end self.old.pass × (record_count table.now ≡ 64) }
        requires end { self.old.end ≡ Some up }
        ensures sits { Sits table.now self.new.end self.new.pass
            × ((view self.new.pass).parts ≡ (view self.old.pass).parts) }
    {
        let End::At { rec, side } = up else {
            return;
        };
        if rec >= RECORDS {
            return;
        }
        match arrive_at(table, &mut self.pass, rec, side, self.counted) {
            None => {
                self.end = None;
                self.calls.firsts = self.calls.firsts.wrapping_add(1);
            }
            Some((end, counted)) => {
                self.end = Some(end);
                self.counted = counted;
                self.calls.seconds = self.calls.seconds.wrapping_add(1);
            }
        }
    }

    /// Claims a record's child, where there is one and the worker holds no end.
    fn claim(&mut self, table: &Records<Counts>, rec: u32)
        requires sits { Sits table.now self.old.end self.old.pass × (rec < record_count table.now) }
        ensures sits { Sits table.now self.new.end self.new.pass
            × ((view self.new.pass).parts ≡ (view self.old.pass).parts) }
    {
        let None = self.end else {
            return;
        };
        let Some(counted) = table.claim(&mut self.pass, rec) else {
            return;
        };
        self.end = Some(End::At {
            rec,
            side: SideName::Right,
        });
        self.counted = counted;
        self.calls.claims = self.calls.claims.wrapping_add(1);
    }

    /// Goes through the records until it holds an end.
    fn claim_any(&mut self, table: &Records<Counts>)
        requires sits { Sits table.now self.old.end self.old.pass × (record_count table.now ≡ 64) }
        ensures sits { Sits table.now self.new.end self.new.pass
            × ((view self.new.pass).parts ≡ (view self.old.pass).parts) }
    {
        for rec in 0..RECORDS {
            self.claim(table, rec);
        }
    }

    /// One step towards the end of all that is open.
    fn drain(&mut self, table: &Records<Counts>)
        requires sits { Sits table.now self.old.end self.old.pass × (record_count table.now ≡ 64) }
        ensures sits { Sits table.now self.new.end self.new.pass
            × ((view self.new.pass).parts ≡ (view self.old.pass).parts) }
    {
        match self.end {
            None => self.claim_any(table),
            Some(up) => self.arrive(table, up),
        }
    }

    /// One step by the dice. It opens about as many records as it arrives at the second time.
    fn turn(&mut self, table: &Records<Counts>)
        requires sits { Sits table.now self.old.end self.old.pass × (record_count table.now ≡ 64) }
        ensures sits { Sits table.now self.new.end self.new.pass
            × ((view self.new.pass).parts ≡ (view self.old.pass).parts) }
    {
        self.dice = self
            .dice
            .wrapping_mul(6_364_136_223_846_793_005)
            .wrapping_add(1_442_695_040_888_963_407);
        match self.end {
            Some(up) if self.dice >> 32 < 1_500_000_000 => self.open(table, up),
            _ => self.drain(table),
        }
    }

    /// Makes the finish where it holds Root. Answers what was counted there.
    fn finish(&mut self, table: &Records<Counts>) -> u64
        requires sits { Sits table.now self.old.end self.old.pass }
        ensures sits { Sits table.now self.new.end self.new.pass
            × ((view self.new.pass).parts ≡ (view self.old.pass).parts) }
    {
        match self.end {
            Some(End::Root) => {
                table.finish(&mut self.pass);
                self.end = None;
                self.counted
            }
            _ => 0,
        }
    }
}

/// All turns of a worker, for a thread of its own.
fn work(table: &Records<Counts>, mut worker: Worker) -> Worker
    requires sits { Sits table.now worker.end worker.pass × (record_count table.now ≡ 64) }
    ensures sits { Sits table.now result.end result.pass
        × ((view result.pass).parts ≡ (view worker.pass).parts) }
{
    for _turn in 0..TURNS {
        worker.turn(table);
    }
    worker
}

/// Two workers, each in a thread of its own where one can be made.
fn work_two<R: Threads + Sync>(
    rt: &R,
    table: &Records<Counts>,
    one: Worker,
    two: Worker,
) -> (Worker, Worker)
    requires one { Sits table.now one.end one.pass × (record_count table.now ≡ 64) }
    requires two { Sits table.now two.end two.pass }
    ensures one { Sits table.now result.0.end result.0.pass
        × ((view result.0.pass).parts ≡ (view one.pass).parts) }
    ensures two { Sits table.now result.1.end result.1.pass
        × ((view result.1.pass).parts ≡ (view two.pass).parts) }
{
    join(
        rt,
        move || -> Worker
            requires { Sits table.now one.end one.pass × (record_count table.now ≡ 64) }
            ensures { Sits table.entry.now result.end result.pass
                × ((view result.pass).parts ≡ (view one.pass).parts) }
        { work(table, one) },
        move || -> Worker
            requires { Sits table.now two.end two.pass × (record_count table.now ≡ 64) }
            ensures { Sits table.entry.now result.end result.pass
                × ((view result.pass).parts ≡ (view two.pass).parts) }
        { work(table, two) },
    )
}

/// Whether a pass finds a free record, which then stays in its hand.
fn finds_free(table: &Records<Counts>, pass: &mut Pass<Counts>) -> bool
    requires table { IsPassOf table.now pass.old }
    ensures pass { IsPassOf table.now pass.new × ((view pass.new).parts ≡ (view pass.old).parts) }
{
    match table.find_free(pass) {
        None => false,
        Some(_) => true,
    }
}

/// How many records are free, at most one more than there are.
fn free_count(table: &Records<Counts>, pass: &mut Pass<Counts>) -> u32
    requires table { IsPassOf table.now pass.old }
    ensures pass { IsPassOf table.now pass.new × ((view pass.new).parts ≡ (view pass.old).parts) }
{
    let mut free = 0;
    for _record in 0..RECORDS + 1 {
        if finds_free(table, pass) {
            free += 1;
        }
    }
    free
}

/// Four workers.
#[derive(Drop)]
struct Crew {
    one: Worker,
    two: Worker,
    three: Worker,
    four: Worker,
}

/// Four workers, each in a thread of its own where one can be made.
fn work_four<R: Threads + Sync>(rt: &R, table: &Records<Counts>, crew: Crew) -> Crew
    requires count { record_count table.now ≡ 64 }
    requires one { Sits table.now crew.one.end crew.one.pass }
    requires two { Sits table.now crew.two.end crew.two.pass }
    requires three { Sits table.now crew.three.end crew.three.pass }
    requires four { Sits table.now crew.four.end crew.four.pass }
    ensures one { Sits table.now result.one.end result.one.pass
        × ((view result.one.pass).parts ≡ (view crew.one.pass).parts) }
    ensures two { Sits table.now result.two.end result.two.pass
        × ((view result.two.pass).parts ≡ (view crew.two.pass).parts) }
    ensures three { Sits table.now result.three.end result.three.pass
        × ((view result.three.pass).parts ≡ (view crew.three.pass).parts) }
    ensures four { Sits table.now result.four.end result.four.pass
        × ((view result.four.pass).parts ≡ (view crew.four.pass).parts) }
{
    let Crew {
        one,
        two,
        three,
        four,
    } = crew;
    let ((one, two), (three, four)) = join(
        rt,
        move || -> (Worker, Worker)
            requires { IsSync R.row
                × Sits table.now one.end one.pass
                × (record_count table.now ≡ 64)
                × Sits table.now two.end two.pass }
            ensures one { Sits table.entry.now result.0.end result.0.pass
                × ((view result.0.pass).parts ≡ (view one.pass).parts) }
            ensures two { Sits table.entry.now result.1.end result.1.pass
                × ((view result.1.pass).parts ≡ (view two.pass).parts) }
        { work_two(rt, table, one, two) },
        move || -> (Worker, Worker)
            requires { IsSync R.row
                × Sits table.now three.end three.pass
                × (record_count table.now ≡ 64)
                × Sits table.now four.end four.pass }
            ensures three { Sits table.entry.now result.0.end result.0.pass
                × ((view result.0.pass).parts ≡ (view three.pass).parts) }
            ensures four { Sits table.entry.now result.1.end result.1.pass
                × ((view result.1.pass).parts ≡ (view four.pass).parts) }
        { work_two(rt, table, three, four) },
    );
    Crew {
        one,
        two,
        three,
        four,
    }
}

/// The four work until there are openings enough.
fn work_shifts<R: Threads + Sync>(rt: &R, table: &Records<Counts>, mut crew: Crew) -> Crew
    requires count { record_count table.now ≡ 64 }
    requires one { Sits table.now crew.one.end crew.one.pass }
    requires two { Sits table.now crew.two.end crew.two.pass }
    requires three { Sits table.now crew.three.end crew.three.pass }
    requires four { Sits table.now crew.four.end crew.four.pass }
    ensures one { Sits table.now result.one.end result.one.pass
        × ((view result.one.pass).parts ≡ (view crew.one.pass).parts) }
    ensures two { Sits table.now result.two.end result.two.pass
        × ((view result.two.pass).parts ≡ (view crew.two.pass).parts) }
    ensures three { Sits table.now result.three.end result.three.pass
        × ((view result.three.pass).parts ≡ (view crew.three.pass).parts) }
    ensures four { Sits table.now result.four.end result.four.pass
        × ((view result.four.pass).parts ≡ (view crew.four.pass).parts) }
{
    for _shift in 0..SHIFTS {
        if crew.calls().opens >= OPENINGS {
            break;
        }
        crew = work_four(rt, table, crew);
    }
    crew
}

/// A worker that has done nothing yet.
fn seated(pass: Pass<Counts>, end: Option<End>, dice: u64) -> Worker
    ensures pass { result.pass ≡ pass }
    ensures end { result.end ≡ end }
{
    Worker {
        pass,
        end,
        counted: 0,
        dice,
        calls: Calls {
            opens: 0,
            claims: 0,
            firsts: 0,
            seconds: 0,
        },
    }
}

/// A table of 64 records, and four workers with its passes. The first holds Root.
fn crewed(alloc: Global) -> Result<(Records<Counts>, Crew), NoMemory>
    ensures table { IfOk result (λ r. record_count r.0 ≡ 64) }
    ensures one { IfOk result (λ r.
        Sits r.0 r.1.one.end r.1.one.pass × ((view r.1.one.pass).parts ≡ 13)) }
    ensures two { IfOk result (λ r.
        Sits r.0 r.1.two.end r.1.two.pass × ((view r.1.two.pass).parts ≡ 1)) }
    ensures three { IfOk result
        (λ r. Sits r.0 r.1.three.end r.1.three.pass × ((view r.1.three.pass).parts ≡ 1)) }
    ensures four { IfOk result (λ r.
        Sits r.0 r.1.four.end r.1.four.pass × ((view r.1.four.pass).parts ≡ 1)) }
{
    let (table, mut passes) = Records::new(alloc, RECORDS, 4, &0)?;
    let Some(fourth) = passes.pop() else {
        unreachable!()
    };
    let Some(third) = passes.pop() else {
        unreachable!()
    };
    let Some(second) = passes.pop() else {
        unreachable!()
    };
    let Some(first) = passes.pop() else {
        unreachable!()
    };
    let crew = Crew {
        one: seated(first, Some(End::Root), 1),
        two: seated(second, None, 2),
        three: seated(third, None, 3),
        four: seated(fourth, None, 4),
    };
    Ok((table, crew))
}

impl Crew {
    /// Goes to the end of all that is open, in one thread.
    fn drain(&mut self, table: &Records<Counts>)
        requires count { record_count table.now ≡ 64 }
        requires one { Sits table.now self.old.one.end self.old.one.pass }
        requires two { Sits table.now self.old.two.end self.old.two.pass }
        requires three { Sits table.now self.old.three.end self.old.three.pass }
        requires four { Sits table.now self.old.four.end self.old.four.pass }
        ensures one { Sits table.now self.new.one.end self.new.one.pass
            × ((view self.new.one.pass).parts ≡ (view self.old.one.pass).parts) }
        ensures two { Sits table.now self.new.two.end self.new.two.pass
            × ((view self.new.two.pass).parts ≡ (view self.old.two.pass).parts) }
        ensures three { Sits table.now self.new.three.end self.new.three.pass
            × ((view self.new.three.pass).parts ≡ (view self.old.three.pass).parts) }
        ensures four { Sits table.now self.new.four.end self.new.four.pass
            × ((view self.new.four.pass).parts ≡ (view self.old.four.pass).parts) }
    {
        for _round in 0..ROUNDS {
            self.one.drain(table);
            self.two.drain(table);
            self.three.drain(table);
            self.four.drain(table);
        }
    }

    /// Makes the finish, by the worker that holds Root. Answers what was counted there.
    fn finish(&mut self, table: &Records<Counts>) -> u64
        requires one { Sits table.now self.old.one.end self.old.one.pass }
        requires two { Sits table.now self.old.two.end self.old.two.pass }
        requires three { Sits table.now self.old.three.end self.old.three.pass }
        requires four { Sits table.now self.old.four.end self.old.four.pass }
        ensures one { Sits table.now self.new.one.end self.new.one.pass
            × ((view self.new.one.pass).parts ≡ (view self.old.one.pass).parts) }
        ensures two { Sits table.now self.new.two.end self.new.two.pass
            × ((view self.new.two.pass).parts ≡ (view self.old.two.pass).parts) }
        ensures three { Sits table.now self.new.three.end self.new.three.pass
            × ((view self.new.three.pass).parts ≡ (view self.old.three.pass).parts) }
        ensures four { Sits table.now self.new.four.end self.new.four.pass
            × ((view self.new.four.pass).parts ≡ (view self.old.four.pass).parts) }
    {
        let one = self.one.finish(table);
        let two = self.two.finish(table);
        let three = self.three.finish(table);
        let four = self.four.finish(table);
        one.wrapping_add(two).wrapping_add(three).wrapping_add(four)
    }

    /// What the workers did together.
    fn calls(&self) -> Calls {
        self.one
            .calls
            .and(self.two.calls)
            .and(self.three.calls)
            .and(self.four.calls)
    }
}

impl Calls {
    fn and(self, more: Calls) -> Calls {
        Calls {
            opens: self.opens.wrapping_add(more.opens),
            claims: self.claims.wrapping_add(more.claims),
            firsts: self.firsts.wrapping_add(more.firsts),
            seconds: self.seconds.wrapping_add(more.seconds),
        }
    }
}

/// Closes the table, and answers how many records were opened.
fn closed_opens(alloc: Global, table: Records<Counts>, crew: Crew) -> Result<u64, NoMemory>
    requires one { IsPassOf table crew.one.pass × ((view crew.one.pass).parts ≡ 13) }
    requires two { IsPassOf table crew.two.pass × ((view crew.two.pass).parts ≡ 1) }
    requires three { IsPassOf table crew.three.pass × ((view crew.three.pass).parts ≡ 1) }
    requires four { IsPassOf table crew.four.pass × ((view crew.four.pass).parts ≡ 1) }
{
    let mut passes = Vec::new(alloc);
    passes.push(crew.one.pass)?;
    passes.push(crew.two.pass)?;
    passes.push(crew.three.pass)?;
    passes.push(crew.four.pass)?;
    Ok(table.close(passes).opens())
}

#[test]
fn each_opening_is_met_once_by_each_side(rt: HostRuntime) -> Result<(), Fail> {
    let (table, crew) = crewed(rt.alloc())?;
    let mut crew = work_shifts(&rt, &table, crew);
    crew.drain(&table);
    let counted = crew.finish(&table);
    assert!(rt; counted >= OPENINGS, "{counted} openings");
    let each = Calls {
        opens: counted,
        claims: counted,
        firsts: counted,
        seconds: counted,
    };
    assert_eq!(rt; crew.calls(), each);
    assert_eq!(rt; free_count(&table, &mut crew.one.pass), RECORDS);
    assert_eq!(rt; closed_opens(rt.alloc(), table, crew)?, counted);
    Ok(())
}
