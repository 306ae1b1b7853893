// A walk over a whole block.

ghost use Rattle.std.specs.Prelude.{◌≡◌, ◌≤◌, IfOk, MatchOption, length, []};
ghost use Rattle.tpal_verify.specs.Rules.{note_at};
ghost use Rattle.tpal_verify.specs.Walk.{back_flows, jump_back, join_met, join_own, join_of};
ghost use Rattle.tpal_verify.specs.Walk.{end_walk, walk, note_flows, is_ready_for};
ghost use Rattle.std.specs.Prelude.{None, Some};
ghost use Rattle.tpal_syntax.specs.declared.instructions.Term.TheVariants.{Jump};
ghost use Rattle.tpal_verify.specs.Walking.{flowed_all, Ended, walk_at, flows_in};
ghost use Rattle.tpal_verify.specs.Rounds.{with_flows, trace_of};
ghost use Rattle.tpal_verify.specs.Shapes.{kind_at};
ghost use Rattle.tpal_verify.specs.declared.phases.Phase.TheVariants as phase;

use crate::board::Board;
use crate::flat::{Ground, is_inner};
use crate::kinds::{Kind, is_root, is_side};
use crate::phases::Phase;
use crate::rules::broken_rule;
use crate::shape::copied;
use crate::trace::Trace;
use crate::walk::Walk;
use std::alloc::Global;
use tp_value::{Items, NoMemory};
use tpal_syntax::{Block, Note, Term, Value};

/// How a block ends: the position and the rule of what is broken, if any, and the registers at its
/// join of a side's record.
#[derive(Drop)]
pub(crate) struct Found {
    broken: Option<(u32, u8)>,
    join: Option<Items<Kind>>,
}

impl Found {
    fn nothing() -> Found
        ensures { result ≡ record { broken = None; join = None } }
    {
        Found {
            broken: None,
            join: None,
        }
    }

    fn broken(at: u32, rule: u8) -> Found
        ensures { result ≡ record { broken = Some (at, rule); join = None } }
    {
        Found {
            broken: Some((at, rule)),
            join: None,
        }
    }
}

fn is_ready_for(handler: u16, note: &Note) -> bool
    ensures { result ≡ is_ready_for handler note.now }
{
    match note {
        Note::Plain => false,
        Note::Ready(label) => *label == u32::from(handler),
        Note::Target(_) => false,
    }
}

impl Walk {
    /// The shape flows into each promotion-ready block with a handler.
    fn flow_back(&mut self, blocks: &[Block], handler: u16) -> Result<(), NoMemory>
        requires { length blocks.now ≤ 65536 }
        ensures { IfOk result (λ _.
            self.new ≡ flowed_all self.old (back_flows handler self.old.shape 0 blocks.now)) }
    {
        let mut label: u32 = 0;
        let mut rest = blocks;
        while let Some((block, behind)) = rest.split_first() {
            if is_ready_for(handler, &block.note) {
                self.flow_here(label)?;
            }
            label += 1;
            rest = behind;
        }
        Ok(())
    }

    /// A jump by r30.
    fn jump_back(&mut self, ground: &Ground, at: u32) -> Result<Found, NoMemory>
        ensures { IfOk result (Ended self.old self.new
            (jump_back ground.now (kind_at self.old.shape 30) at self.old.shape)) }
    {
        match self.shape.kind_at(30) {
            Kind::Number => Ok(Found::broken(at, 7)),
            Kind::Empty => Ok(Found::broken(at, 7)),
            Kind::Own => Ok(Found::broken(at, 7)),
            Kind::Up => Ok(Found::broken(at, 7)),
            Kind::Pend => Ok(Found::broken(at, 7)),
            Kind::Met => Ok(Found::broken(at, 7)),
            Kind::Back(handler) => {
                self.flow_back(ground.blocks(), handler)?;
                Ok(Found::nothing())
            }
            Kind::Any => Ok(Found::broken(at, 7)),
        }
    }

    /// A join of the met record.
    fn join_met(&mut self, at: u32) -> Result<Found, NoMemory>
        ensures { IfOk result (Ended self.old self.new
            (join_met self.old.shape.met at self.old.shape)) }
    {
        match self.shape.met() {
            None => Ok(Found::broken(at, 6)),
            Some(target) => {
                let there = self.shape.behind(self.alloc)?;
                self.flow(target, &there)?;
                Ok(Found::nothing())
            }
        }
    }

    /// A join of the record of a side's end.
    fn join_own(&self, at: u32) -> Result<Found, NoMemory>
        ensures { IfOk result (Ended self.now self.now (join_own at self.now.shape)) }
    {
        let join = Items::new(copied(self.alloc, self.shape.registers())?);
        Ok(Found {
            broken: if is_side(self.shape.at_end()) {
                None
            } else {
                Some((at, 6))
            },
            join: Some(join),
        })
    }

    fn join_of(&mut self, r: u8, at: u32) -> Result<Found, NoMemory>
        ensures { IfOk result (Ended self.old self.new
            (join_of (kind_at self.old.shape r) at self.old.shape)) }
    {
        match self.shape.kind_at(r) {
            Kind::Number => Ok(Found::broken(at, 6)),
            Kind::Empty => Ok(Found::broken(at, 6)),
            Kind::Own => self.join_own(at),
            Kind::Up => Ok(Found::broken(at, 6)),
            Kind::Pend => Ok(Found::broken(at, 6)),
            Kind::Met => self.join_met(at),
            Kind::Back(_) => Ok(Found::broken(at, 6)),
            Kind::Any => Ok(Found::broken(at, 6)),
        }
    }

    fn jump(&mut self, ground: &Ground, at: u32, value: Value) -> Result<Found, NoMemory>
        ensures { IfOk result (Ended self.old self.new
            (end_walk ground.now at self.old.shape (Jump value))) }
    {
        match value {
            Value::Reg(r) => {
                if r == 30 {
                    self.jump_back(ground, at)
                } else {
                    Ok(Found::broken(at, 1))
                }
            }
            Value::Int(_) => Ok(Found::broken(at, 1)),
            Value::Label(label) => {
                if !is_inner(label) {
                    return Ok(Found::broken(at, 1));
                }
                self.flow_here(label)?;
                Ok(Found::nothing())
            }
            Value::Nil => Ok(Found::broken(at, 1)),
        }
    }

    /// The end of the block, at a position.
    fn end(&mut self, ground: &Ground, at: u32, term: Term) -> Result<Found, NoMemory>
        ensures { IfOk result (Ended self.old self.new
            (end_walk ground.now at self.old.shape term)) }
    {
        match term {
            Term::Jump(value) => self.jump(ground, at, value),
            Term::Halt => {
                if is_root(self.shape.at_end()) {
                    Ok(Found::nothing())
                } else {
                    Ok(Found::broken(at, 6))
                }
            }
            Term::Join(r) => self.join_of(r, at),
            Term::Leave { rec: _, value: _ } => Ok(Found::broken(at, 1)),
        }
    }

    /// The body and the end of a block; `first` tells whether it is block 0.
    fn run(&mut self, ground: &Ground, first: bool, block: &Block) -> Result<Found, NoMemory>
        requires { length block.now.body ≤ 4294967295 }
        ensures { IfOk result (Ended self.old self.new
            (walk ground.now first 0 phase.Calm self.old.shape block.now.body block.now.term)) }
    {
        let mut leads = first;
        let mut phase = Phase::Calm;
        let mut at: u32 = 0;
        let mut rest = block.body.items();
        while let Some((instr, behind)) = rest.split_first() {
            if let Some(rule) = broken_rule(ground, leads, (phase, &self.shape), *instr, behind) {
                return Ok(Found::broken(at, rule));
            }
            match self.going(ground, phase, *instr)? {
                Some(next) => phase = next,
                None => return Ok(Found::nothing()),
            }
            leads = false;
            at += 1;
            rest = behind;
        }
        self.end(ground, at, block.term)
    }

    /// A promotion-ready block lets its shape flow into its handler.
    fn enter(&mut self, ground: &Ground, label: u32) -> Result<(), NoMemory>
        ensures { IfOk result (λ _. self.new
            ≡ flowed_all self.old (note_flows (note_at ground.now label) self.old.shape)) }
    {
        match ground.handler_at(label) {
            Some(handler) => {
                let mut there = self.shape.copy(self.alloc)?;
                there.enter_handler(handler);
                self.flow(u32::from(handler), &there)
            }
            None => Ok(()),
        }
    }
}

/// The walk over the block at a label by the shape that stands there: what flows is staged.
pub(crate) fn walk_block(
    alloc: Global,
    ground: &Ground,
    board: Board,
    label: u32,
) -> Result<(Board, Option<Trace>), NoMemory>
    ensures next { IfOk result (λ r.
        r.0.next ≡ with_flows board.next (flows_in (walk_at ground.now board.now label))) }
    ensures now { IfOk result (λ r. r.0.now ≡ board.now) }
    ensures trace { IfOk result (λ r. r.1 ≡ trace_of (walk_at ground.now board.now label)) }
{
    let Some(block) = ground.blocks().get(label as usize) else {
        return Ok((board, None));
    };
    let Some(shape) = board.shape_of(alloc, label)? else {
        return Ok((board, None));
    };
    if block.body.items().len() > u32::MAX as usize {
        return Err(NoMemory);
    }
    let mut walk = Walk {
        alloc,
        board,
        shape,
        forks: Vec::new(alloc),
    };
    walk.enter(ground, label)?;
    let found = walk.run(ground, label == 0, block)?;
    let Walk { board, forks, .. } = walk;
    let Found { broken, join } = found;
    Ok((
        board,
        Some(Trace {
            broken,
            join,
            forks: Items::new(forks),
        }),
    ))
}
