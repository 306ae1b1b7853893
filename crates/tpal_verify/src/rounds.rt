// Rounds up to the least assignment. Only due blocks are walked: those whose shapes changed in the
// round before.

ghost use Rattle.std.specs.Prelude.{◌≡◌, ◌≤◌, ℕ, suc, IfOk, map, [], true, false, replicate, None};
ghost use Rattle.std.specs.Prelude.{slice_set};
ghost use Rattle.tpal_verify.specs.Rounds.{with_flows, comb_flows, with_join, join_in, all_joins};
ghost use Rattle.tpal_verify.specs.Rounds.{height, least, start, traces};
ghost use Rattle.tpal_verify.specs.Agreement.{StandsFor};
ghost use Rattle.tpal_verify.specs.Rounding.{flows_due, retraced, forks_seen, Stands, IsOver};

use crate::agreement::agreement;
use crate::blocks::walk_block;
use crate::board::Board;
use crate::combs::Combs;
use crate::flat::Ground;
use crate::kinds::{EndFact, Kind};
use crate::shape::are_below;
use crate::trace::Trace;
use std::alloc::Global;
use std::marker::Model;
use tp_value::{Items, NoMemory};

/// Whether two lists are the same: each is below the other.
#[tactic(auto, using(crate::proofs::Least::same_kinds))]
fn are_same(a: &[Kind], b: &[Kind]) -> bool
    ensures { result ≡ true → a.now ≡ b.now }
{
    if !are_below(EndFact::Either, a, b) {
        return false;
    }
    are_below(EndFact::Either, b, a)
}

fn is_same(a: &Option<Items<Kind>>, b: &Option<Items<Kind>>) -> bool
    ensures { result ≡ true → a.now ≡ b.now }
{
    match a {
        None => match b {
            None => true,
            Some(_) => false,
        },
        Some(kinds) => match b {
            None => false,
            Some(others) => are_same(kinds.items(), others.items()),
        },
    }
}

/// Whether two walks have the same join of a side's record, or both none.
fn is_same_join(a: &Option<Trace>, b: &Option<Trace>) -> bool
    ensures { result ≡ true → join_in a.now ≡ join_in b.now }
{
    match a {
        None => match b {
            None => true,
            Some(trace) => trace.join.is_none(),
        },
        Some(trace) => match b {
            None => trace.join.is_none(),
            Some(other) => is_same(&trace.join, &other.join),
        },
    }
}

/// Puts what a walk found in the place of what was found before, and answers whether the join is
/// the same.
#[tactic(auto, using(crate::proofs::Combining::same_put))]
fn put_trace(traces: &mut Vec<Option<Trace>>, label: u32, trace: Option<Trace>) -> bool
    ensures traces { traces.new.items ≡ slice_set traces.old.items label trace }
    ensures same { result ≡ true → map join_in traces.new.items ≡ map join_in traces.old.items }
{
    let at = label as usize;
    if at >= traces.len() {
        return true;
    }
    let same = is_same_join(&traces[at], &trace);
    traces[at] = trace;
    same
}

/// Walks over the due blocks: what flows is staged, what is found is put into the traces. The
/// second answer is true only where the joins are the same as before.
fn walk_due(
    alloc: Global,
    ground: &Ground,
    board: Board,
    traces: &mut Vec<Option<Trace>>,
    due: &[u32],
) -> Result<(Board, bool), NoMemory>
    ensures next { IfOk result (λ r.
        r.0.next ≡ with_flows board.next (flows_due ground.now board.now due.now)) }
    ensures now { IfOk result (λ r. r.0.now ≡ board.now) }
    ensures traces { IfOk result (λ _.
        traces.new.items ≡ retraced ground.now board.now due.now traces.old.items) }
    ensures same { IfOk result (λ r.
        r.1 ≡ true → map join_in traces.new.items ≡ map join_in traces.old.items) }
{
    let mut board = board;
    let mut same = true;
    let mut rest = due;
    while let Some((label, behind)) = rest.split_first() {
        let (next, trace) = walk_block(alloc, ground, board, *label)?;
        board = next;
        same = put_trace(traces, *label, trace) && same;
        rest = behind;
    }
    Ok((board, same))
}

/// What the joins find after a round's walks, and whether it is surely what they found before.
fn find(
    alloc: Global,
    join: Option<Items<Kind>>,
    traces: &[Option<Trace>],
    same: bool,
) -> Result<(Option<Items<Kind>>, bool), NoMemory>
    ensures same { IfOk result (λ r. r.1 ≡ true → r.0 ≡ join) }
    ensures kept { IfOk result (λ r. same ≡ true → r.0 ≡ join) }
    ensures new { IfOk result (λ r.
        same ≡ false → StandsFor (with_join r.0 []) (all_joins traces.now)) }
{
    if same {
        return Ok((join, true));
    }
    let new = agreement(alloc, traces)?;
    let same = is_same(&new, &join);
    Ok((new, same))
}

/// Whose forks flow: those of the due blocks, where the joins find the same as before, else of all.
#[derive(Drop)]
struct Seen<'a> {
    traces: &'a [Option<Trace>],
    due: &'a [u32],
    same: bool,
}

/// What flows into combining blocks.
fn flow_combs(
    alloc: Global,
    ground: &Ground,
    join: &Option<Items<Kind>>,
    board: &mut Board,
    seen: &Seen,
) -> Result<(), NoMemory>
    ensures next { IfOk result (λ _. board.new.next ≡ with_flows board.old.next
        (comb_flows ground.now (with_join join.now [])
        (forks_seen seen.now.same seen.now.traces.now seen.now.due.now))) }
    ensures now { IfOk result (λ _. board.new.now ≡ board.old.now) }
{
    match join {
        None => Ok(()),
        Some(kinds) => {
            let combs = Combs {
                alloc,
                ground,
                join: kinds.items(),
            };
            if seen.same {
                combs.flow_due(board, seen.traces, seen.due)
            } else {
                combs.flow_all(board, seen.traces)
            }
        }
    }
}

/// What stands between two rounds.
#[derive(Drop)]
struct Round {
    board: Board,
    // the blocks whose shapes changed in the last round
    due: Vec<u32>,
    // what the last walk over each block found
    traces: Vec<Option<Trace>>,
    // one join that stands for all of the traces'
    join: Option<Items<Kind>>,
}

impl Model for Round {
    ghost use Rattle.tpal_verify.specs.Rounding.{Round as Kept};

    ghost Value = { Kept };

    ghost view = { λ r. record {
      shapes = r.board.now;
      staged = r.board.next;
      due = r.due.items;
      traces = r.traces.items;
      join = r.join;
    } };
}

/// How often shapes can change.
fn height(ground: &Ground) -> u64
    ensures { result ≡ height ground.now }
{
    let each = 2 * (31 + u64::from(ground.cells())) + 6;
    ground.blocks().len() as u64 * each
}

/// Nothing is found yet of as many blocks.
#[tactic(auto, using(crate::proofs::Combining::one_more_same))]
fn no_traces(alloc: Global, count: usize) -> Result<Vec<Option<Trace>>, NoMemory>
    ensures { IfOk result (λ traces. traces.items ≡ replicate count None) }
{
    let mut traces = Vec::new(alloc);
    for _ in 0..count {
        traces.push(None)?;
    }
    Ok(traces)
}

impl Round {
    /// Before the first round: block 0 alone has a shape, and is due.
    fn first(alloc: Global, ground: &Ground) -> Result<Round, NoMemory>
        ensures { IfOk result (Stands ground.now (height ground.now)) }
    {
        let board = Board::first(alloc, ground)?;
        let traces = no_traces(alloc, ground.blocks().len())?;
        let mut due = Vec::new(alloc);
        due.push(0)?;
        Ok(Round {
            board,
            due,
            traces,
            join: None,
        })
    }

    /// One round.
    fn next(self, alloc: Global, ground: &Ground) -> Result<Round, NoMemory>
        ensures { (left : ℕ)
            → Stands ground.now (suc left) self
            → IfOk result (Stands ground.now left) }
    {
        let Round {
            board,
            due,
            mut traces,
            join,
        } = self;
        let (mut board, same) = walk_due(alloc, ground, board, &mut traces, &due)?;
        let (join, same) = find(alloc, join, &traces, same)?;
        let seen = Seen {
            traces: &traces,
            due: &due,
            same,
        };
        flow_combs(alloc, ground, &join, &mut board, &seen)?;
        let due = board.settle(alloc);
        Ok(Round {
            board,
            due,
            traces,
            join,
        })
    }
}

/// Whether no round is left or no block is due.
fn is_over(left: u64, due: &[u32]) -> bool
    ensures over { result ≡ true → IsOver left due.now }
    ensures more { result ≡ false → 1 ≤ left }
{
    left == 0 || due.is_empty()
}

/// What is found by the least assignment: for each block what a walk over it finds.
pub(crate) fn least_traces(alloc: Global, ground: &Ground) -> Result<Vec<Option<Trace>>, NoMemory>
    ensures { IfOk result (λ found. found.items ≡ traces ground.now (least ground.now)) }
{
    let mut round = Round::first(alloc, ground)?;
    let mut left = height(ground);
    while !is_over(left, &round.due) {
        round = round.next(alloc, ground)?;
        left -= 1;
    }
    let Round {
        board,
        due,
        mut traces,
        join: _,
    } = round;
    walk_due(alloc, ground, board, &mut traces, &due)?;
    Ok(traces)
}
