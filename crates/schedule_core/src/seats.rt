// What workers have and what records hold.

use tpal_machine::{Ending, Rest, Side, Task};

/// What a worker has.
#[derive(Drop)]
pub enum Seat {
    /// Nothing.
    Resting,
    /// A task that runs, and whether a beat came for which it asked for no record yet.
    Running {
        task: Task,
        due: bool,
    },
    /// A task that has just forked under a record, with its child and its rest.
    Forked {
        rec: u32,
        on: Task,
        child: Task,
        rest: Rest,
    },
    /// What its task ended with, before that has arrived.
    Ended(Ending),
    /// A record that both sides have met.
    Holding(u32),
}

/// A worker: what it has, and how often its tasks were diverted.
#[derive(Drop)]
pub struct Worker {
    pub seat: Seat,
    pub beats: u64,
}

/// What a record holds.
#[derive(Drop)]
pub enum Cell {
    /// Nothing: it may be taken.
    Free,
    /// Nothing yet: the task of this worker has it.
    Taken(u32),
    /// It is open: the rest, the child where no worker has claimed it, and the sides that arrived.
    Opened {
        rest: Rest,
        child: Option<Task>,
        left: Option<Side>,
        right: Option<Side>,
    },
    /// Both sides have met it, and this worker brought the second.
    Met {
        worker: u32,
        rest: Rest,
        left: Side,
        right: Side,
    },
}

impl Seat {
    ghost use Rattle.std.specs.Prelude.{◌≡◌};
    ghost use Rattle.schedule_core.specs.Effects.{runs, rests, comes_to_record, ends_run};
    ghost use Rattle.schedule_core.specs.Effects.{has_forked};

    pub(crate) fn runs(&self) -> bool
        ensures { result ≡ runs self.now }
    {
        match self {
            Seat::Running { task: _, due: _ } => true,
            Seat::Resting | Seat::Forked { .. } | Seat::Ended(_) | Seat::Holding(_) => false,
        }
    }

    pub(crate) fn rests(&self) -> bool
        ensures { result ≡ rests self.now }
    {
        match self {
            Seat::Resting => true,
            Seat::Running { .. } | Seat::Forked { .. } | Seat::Ended(_) | Seat::Holding(_) => false,
        }
    }

    /// Whether its task has just forked, under one of so many records.
    pub(crate) fn has_forked(&self, records: usize) -> bool
        ensures { result ≡ has_forked records self.now }
    {
        match self {
            Seat::Forked { rec, .. } => (*rec as usize) < records,
            Seat::Resting | Seat::Running { .. } | Seat::Ended(_) | Seat::Holding(_) => false,
        }
    }

    /// Whether its task ended at a record.
    pub(crate) fn comes_to_record(&self) -> bool
        ensures { result ≡ comes_to_record self.now }
    {
        match self {
            Seat::Ended(Ending::At { .. }) => true,
            Seat::Ended(Ending::Root(_))
            | Seat::Resting
            | Seat::Running { .. }
            | Seat::Forked { .. }
            | Seat::Holding(_) => false,
        }
    }

    /// Whether its task ended the run.
    pub(crate) fn ends_run(&self) -> bool
        ensures { result ≡ ends_run self.now }
    {
        match self {
            Seat::Ended(Ending::Root(_)) => true,
            Seat::Ended(Ending::At { .. })
            | Seat::Resting
            | Seat::Running { .. }
            | Seat::Forked { .. }
            | Seat::Holding(_) => false,
        }
    }
}

impl Cell {
    ghost use Rattle.std.specs.Prelude.{◌≡◌};
    ghost use Rattle.schedule_core.specs.Effects.{is_free, is_unclaimed, is_met};

    pub(crate) fn is_free(&self) -> bool
        ensures { result ≡ is_free self.now }
    {
        match self {
            Cell::Free => true,
            Cell::Taken(_) | Cell::Opened { .. } | Cell::Met { .. } => false,
        }
    }

    /// Whether it is open with a child that no worker has claimed.
    pub(crate) fn is_unclaimed(&self) -> bool
        ensures { result ≡ is_unclaimed self.now }
    {
        match self {
            Cell::Opened { child: Some(_), .. } => true,
            Cell::Opened { child: None, .. } | Cell::Free | Cell::Taken(_) | Cell::Met { .. } =>
                false,
        }
    }

    pub(crate) fn is_met(&self) -> bool
        ensures { result ≡ is_met self.now }
    {
        match self {
            Cell::Met { .. } => true,
            Cell::Free | Cell::Taken(_) | Cell::Opened { .. } => false,
        }
    }

    ghost use Rattle.schedule_core.specs.Effects.{met_left, met_right};

    /// The left side arrives, brought by a worker: what the record holds then, and what the worker
    /// has.
    pub(crate) fn met_left(self, worker: u32, rec: u32, out: Side) -> (Cell, Seat)
        ensures { result ≡ met_left worker rec out self }
    {
        match self {
            Cell::Free => (Cell::Free, Seat::Resting),
            Cell::Taken(by) => (Cell::Taken(by), Seat::Resting),
            Cell::Opened {
                rest,
                child,
                left: _,
                right,
            } => match right {
                None => (
                    Cell::Opened {
                        rest,
                        child,
                        left: Some(out),
                        right: None,
                    },
                    Seat::Resting,
                ),
                Some(right) => (
                    Cell::Met {
                        worker,
                        rest,
                        left: out,
                        right,
                    },
                    Seat::Holding(rec),
                ),
            },
            Cell::Met {
                worker: by,
                rest,
                left,
                right,
            } => (
                Cell::Met {
                    worker: by,
                    rest,
                    left,
                    right,
                },
                Seat::Resting,
            ),
        }
    }

    /// The right side arrives, brought by a worker: what the record holds then, and what the worker
    /// has.
    pub(crate) fn met_right(self, worker: u32, rec: u32, out: Side) -> (Cell, Seat)
        ensures { result ≡ met_right worker rec out self }
    {
        match self {
            Cell::Free => (Cell::Free, Seat::Resting),
            Cell::Taken(by) => (Cell::Taken(by), Seat::Resting),
            Cell::Opened {
                rest,
                child,
                left,
                right: _,
            } => match left {
                None => (
                    Cell::Opened {
                        rest,
                        child,
                        left: None,
                        right: Some(out),
                    },
                    Seat::Resting,
                ),
                Some(left) => (
                    Cell::Met {
                        worker,
                        rest,
                        left,
                        right: out,
                    },
                    Seat::Holding(rec),
                ),
            },
            Cell::Met {
                worker: by,
                rest,
                left,
                right,
            } => (
                Cell::Met {
                    worker: by,
                    rest,
                    left,
                    right,
                },
                Seat::Resting,
            ),
        }
    }
}
