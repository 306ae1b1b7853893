// When a task may be diverted.

ghost use Rattle.std.specs.Prelude.{◌≡◌, ◌<◌, ◌-◌, ◌^◌, ℕ, true, false};
ghost use Rattle.beat_count.specs.Heartbeat.{no_beat, counted, is_diverted, entered, taken};
ghost use Rattle.beat_count.specs.Heartbeat.{IsCalm};
ghost use Rattle.beat_count.specs.Counting.{counted_times};

use std::marker::Model;

/// What a task keeps for its diversions: the instructions since the last one, whether the next
/// entry of a promotion-ready block is passed over, and whether a fork was granted.
#[derive(Clone, Copy, PartialEq, Eq, Debug)]
pub struct Beat {
    count: u64,
    quiet: bool,
    granted: bool,
}

impl Model for Beat {
    ghost use Rattle.beat_count.specs.BeatState.{BeatState};

    ghost Value = { BeatState };

    ghost view = { λ beat.
        record { count = beat.count; quiet = beat.quiet; granted = beat.granted } };

    ghost inverse = { λ beat.
        record { count = beat.count; quiet = beat.quiet; granted = beat.granted } };
}

impl Beat {
    /// A beat that has counted nothing, with both flags unset.
    pub fn new() -> Beat
        ensures { result ≡ no_beat }
    {
        Beat {
            count: 0,
            quiet: false,
            granted: false,
        }
    }

    /// Counts one instruction. The count stays at 2^64 - 1.
    pub fn count_one(&mut self)
        ensures { self.new ≡ counted self.old }
    {
        self.count = self.count.saturating_add(1);
    }

    /// Counts so many instructions, as that many calls of `count_one` do.
    #[tactic(auto, using(crate::proofs::Counts::counted_times_is))]
    pub fn count_many(&mut self, instructions: u64)
        ensures { self.new ≡ counted_times instructions self.old }
    {
        self.count = self.count.saturating_add(instructions);
    }

    /// Control enters a promotion-ready block: answers whether it is diverted to the block's
    /// handler. `marked` tells whether a mark stands, `allowed` whether a diversion is allowed.
    /// The entry after a diversion is passed over.
    pub fn enter(&mut self, heartbeat: u64, marked: bool, allowed: bool) -> bool
        ensures answer { result ≡ is_diverted heartbeat marked allowed self.old }
        ensures after { self.new ≡ entered heartbeat marked allowed self.old }
    {
        if self.quiet {
            self.quiet = false;
            return false;
        }
        if self.count >= heartbeat && marked && allowed {
            self.count = 0;
            self.quiet = true;
            self.granted = true;
            return true;
        }
        false
    }

    /// How many instructions: while fewer are counted, control that enters a promotion-ready block
    /// just goes on, and when so many are, it is diverted. It is 2^64 - 1 where no heartbeat
    /// diverts, and 0 before an entry that is passed over.
    pub fn calm(&self, heartbeat: u64, marked: bool, allowed: bool) -> u64
        ensures calm { (n : ℕ)
            → n < result
            → IsCalm heartbeat marked allowed (counted_times n self.now) }
        ensures most { self.now.quiet ≡ false
            → result < 2 ^ 64 - 1
            → is_diverted heartbeat marked allowed (counted_times result self.now) ≡ true }
    {
        if self.quiet {
            return 0;
        }
        if marked && allowed {
            heartbeat.saturating_sub(self.count)
        } else {
            u64::MAX
        }
    }

    /// Uses the grant: answers whether there was one. There is none afterwards.
    pub fn take(&mut self) -> bool
        ensures answer { result ≡ self.old.granted }
        ensures after { self.new ≡ taken self.old }
    {
        let granted = self.granted;
        self.granted = false;
        granted
    }

    /// The beat of the task that goes on after two sides have met: a new one.
    pub fn merged(self) -> Beat
        ensures { result ≡ no_beat }
    {
        Beat::new()
    }
}
