// A new table and its passes.

ghost use Rattle.std.specs.Prelude.{◌≡◌, ◌<◌, ◌≤◌, IfOk, Some};
ghost use Rattle.tpal_machine.specs.declared.ends.End.TheVariants.{Root};
ghost use Rattle.join_records.specs.Views.{fresh, split_left};
ghost use Rattle.join_records.specs.Passes.{AreNew, IsPassOf, IsSamePass, record_count, root_view};
ghost use Rattle.join_records.specs.Passes.{view};

use crate::load::Load;
use crate::rule::{SeatOpened, SeatSplit};
use crate::table::{Pass, Records};
use atomic_table::Table;
use std::alloc::Global;
use tp_value::NoMemory;

impl<L: Load> Records<L> {
    // The table, and the pass that has every part and holds Root.
    fn vacant(
        alloc: Global,
        records: u32,
        first: &L::Child,
    ) -> Result<(Records<L>, Pass<L>), NoMemory>
        requires count { records ≤ 1024 }
        requires owed { (e : L.Ending) × L.owes first.now e }
        ensures { IfOk result
            (λ r. (record_count r.0 ≡ records)
            × IsPassOf r.0 r.1
            × ((e : L.Ending) × L.owes first.now e × (view r.1 ≡ root_view e))) }
    {
        let words = Vec::from_elem(alloc, 0u64, records as usize + 1)?;
        let (table, mut seat) = Table::vacant(
            alloc,
            words.as_slice(),
            records as usize * 4,
            first,
        )?;
        table.shared.load::<SeatOpened<L>>(&mut seat, 0);
        let table = Records {
            table,
            count: records,
        };
        let pass = Pass {
            seat,
            opens: 0,
            made: false,
            next: 0,
        };
        Ok((table, pass))
    }

    fn split(&self, pass: &mut Pass<L>) -> Pass<L>
        requires table { IsPassOf self.now pass.old }
        requires parts { 1 < (view pass.old).parts }
        requires root { (e : L.Ending) × ((view pass.old).root ≡ Some e) }
        ensures pass { IsSamePass pass.old pass.new × (view pass.new ≡ split_left (view pass.old)) }
        ensures other { IsPassOf self.now result × (view result ≡ fresh (view pass.old)) }
    {
        let seat = self.table.shared.split_seat::<SeatSplit>(&mut pass.seat);
        Pass {
            seat,
            opens: 0,
            made: false,
            next: 0,
        }
    }

    /// A table of free records, 1 to 1,024, and the passes to it, 1 to 16. The first pass holds
    /// Root, with the ending that `first` owes. It is the only call that takes memory.
    pub fn new(
        alloc: Global,
        records: u32,
        seats: u32,
        first: &L::Child,
    ) -> Result<(Records<L>, Vec<Pass<L>>), NoMemory>
        requires records { (1 ≤ records) × (records ≤ 1024) }
        requires seats { (1 ≤ seats) × (seats ≤ 16) }
        requires end { L.has_end first.now Root }
        requires owed { (e : L.Ending) × L.owes first.now e }
        ensures records { IfOk result (λ r. record_count r.0 ≡ records) }
        ensures passes { IfOk result (λ r. AreNew L.owes first.now seats r.0 r.1.items) }
    {
        let (table, mut root) = Records::vacant(alloc, records, first)?;
        let mut passes = Vec::new(alloc);
        for _number in 1..seats {
            let pass = table.split(&mut root);
            passes.push(pass)?;
        }
        passes.insert(0, root)?;
        Ok((table, passes))
    }
}
