// The ticks of a run against its limit.

ghost use Rattle.std.specs.Prelude.{◌≡◌, ◌+◌, ◌≤◌};
ghost use Rattle.beat_count.specs.Ticks.{ticked, is_tick_allowed};

use std::marker::Model;
use tp_value::MAX_FUEL;

/// The ticks that a run has counted, at most one above its limit.
#[derive(Clone, Copy, PartialEq, Eq, Debug)]
pub struct Fuel {
    limit: u64,
    ticks: u64,
}

impl Model for Fuel {
    ghost use Rattle.beat_count.specs.FuelState.{FuelState, IsFuel};

    ghost Value = { FuelState };

    ghost view = { λ fuel. record { limit = fuel.limit; ticks = fuel.ticks } };

    ghost invariant = { λ fuel. IsFuel fuel.limit fuel.ticks };

    ghost inverse = { λ fuel. record { limit = fuel.limit; ticks = fuel.ticks } };
}

impl Fuel {
    /// A limit in ticks, with none counted yet.
    pub fn new(limit: u64) -> Fuel
        requires { limit ≤ MAX_FUEL }
        ensures { result ≡ record { limit = limit; ticks = 0 } }
    {
        Fuel { limit, ticks: 0 }
    }

    /// A limit, with that many ticks counted already.
    pub fn at(limit: u64, ticks: u64) -> Fuel
        requires limited { limit ≤ MAX_FUEL }
        requires within { ticks ≤ limit + 1 }
        ensures { result ≡ record { limit = limit; ticks = ticks } }
    {
        Fuel { limit, ticks }
    }

    /// Counts a tick: answers false exactly where the ticks then exceed the limit. The tick that
    /// exceeds it is counted, and no further one is.
    pub fn spend(&mut self) -> bool
        ensures answer { result ≡ is_tick_allowed self.old.limit self.old.ticks }
        ensures after { self.new
            ≡ record self.old { ticks = ticked self.old.limit self.old.ticks } }
    {
        if self.ticks <= self.limit {
            self.ticks += 1;
        }
        self.ticks <= self.limit
    }

    /// The ticks counted so far.
    pub fn spent(&self) -> u64
        ensures ticks { result ≡ self.now.ticks }
        ensures within { result ≤ self.now.limit + 1 }
    {
        self.ticks
    }

    /// The limit.
    pub fn limit(&self) -> u64
        ensures limit { result ≡ self.now.limit }
        ensures bounded { result ≤ MAX_FUEL }
    {
        self.limit
    }
}
