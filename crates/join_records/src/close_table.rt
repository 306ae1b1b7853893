// The end of a table.

ghost use Rattle.std.specs.Prelude.{◌≡◌, ◌<◌, ◌↔◌, IsTrue};
ghost use Rattle.join_records.specs.Passes.{ArePassesOf, made_in, opens_in, parts_in, saw_in, view};

use crate::load::Load;
use crate::rule::{SeatJoined, Settled};
use crate::table::{Closed, Pass, Records};

impl<L: Load> Pass<L> {
    /// How many records this pass has opened.
    pub fn opens(&self) -> u64
        ensures { result ≡ (view self.now).opens }
    {
        self.opens
    }
}

impl<L: Load> Records<L> {
    /// Ends a table, once all its passes are back. The opens are those of all passes together. It
    /// is finished exactly where one of them made the finish, and exactly one did where any read
    /// it.
    pub fn close(self, mut passes: Vec<Pass<L>>) -> Closed
        requires table { ArePassesOf self passes.items }
        requires all { parts_in passes.items ≡ 16 }
        ensures opens { result.opens ≡ opens_in passes.items }
        ensures finished { IsTrue result.finished ↔ (0 < made_in passes.items) }
        ensures once { 0 < saw_in passes.items → made_in passes.items ≡ 1 }
    {
        let Some(first) = passes.pop() else {
            unreachable!()
        };
        let Pass {
            seat: mut whole,
            mut opens,
            made,
            next: _,
        } = first;
        let mut count = u64::from(made);
        while let Some(pass) = passes.pop() {
            let Pass {
                seat,
                opens: more,
                made: also,
                next: _,
            } = pass;
            self.table.shared.join_seat::<SeatJoined>(&mut whole, seat);
            opens += more;
            count += u64::from(also);
        }
        self.table.shared.load::<Settled>(&mut whole, 0);
        drop(self);
        Closed {
            opens,
            finished: count > 0,
        }
    }
}
