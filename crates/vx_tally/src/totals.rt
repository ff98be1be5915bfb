//! Sums over records, of which none is kept.

ghost use Rattle.std.specs.Prelude.{◌≡◌, ◌<◌, ◌++◌, ◌∷◌, [], List, IfOk, if◌then◌else◌, is_ok};
ghost use Rattle.vx_tally.specs.declared.report.CvrRecord.{CvrRecord};
ghost use Rattle.vx_tally.specs.Cells.{HaveVotes};
ghost use Rattle.vx_tally.specs.Running.{SumsUp, summed_in};
ghost use Rattle.vx_tally.specs.Totals.{IsCountable};

use crate::cells::{Cell, cells_of};
use crate::report::CvrRecord;
use crate::sums::{Change, Counted, Sums, change_record, sum_at};
use crate::tally::size_of;
use indexmap::IndexMap;
use std::alloc::Global;
use std::marker::Model;
use vx_base::OutOfMemory;

/// What records sum up to, of which none is kept: memory is taken for the sums alone. Contracts see how
/// many records there were and the sums; which records those are of, `SumsUp` says.
#[derive(Drop)]
pub struct Totals {
    count: u64,
    sums: Sums,
}

impl Model for Totals {
    ghost use Rattle.vx_tally.specs.Running.{AreBounded, Running};

    ghost Value = { Running };

    ghost view = { λ totals. (totals.count, totals.sums.entries) };

    ghost invariant = { λ totals. AreBounded (totals.count, totals.sums.entries) };
}

impl Totals {
    /// The sums of no records; takes no memory.
    pub fn new(alloc: Global) -> Totals
        ensures { SumsUp [] result }
    {
        Totals {
            count: 0,
            sums: IndexMap::new(alloc),
        }
    }

    /// Adds the numbers of a record. After want of memory the sums are as before.
    pub fn add(&mut self, alloc: Global, cvr: &CvrRecord) -> Result<(), OutOfMemory>
        requires few { (summed_in self.old).count < 1000000000 }
        requires countable { IsCountable cvr.now }
        ensures { (records : List CvrRecord) → SumsUp records self.old →
            SumsUp (if is_ok result then records ++ cvr.now ∷ [] else records) self.new }
    {
        self.sums.reserve(2 * size_of(cvr))?;
        change_record(&mut self.sums, Change::Raise, cvr);
        self.count += 1;
        Ok(())
    }

    /// How many records there were.
    pub fn len(&self) -> u64
        ensures { result ≡ (summed_in self.now).count }
    {
        self.count
    }

    /// The votes for a selection of a contest, by their places.
    pub fn total(&self, contest: u32, selection: u32) -> u64
        ensures { result ≡ (summed_in self.now).votes contest selection }
    {
        sum_at(&self.sums, Counted::Votes(contest, selection))
    }

    /// The votes for a selection of a contest in a unit, by their places.
    pub fn total_in(&self, unit: u32, contest: u32, selection: u32) -> u64
        ensures { result ≡ (summed_in self.now).votes_in unit contest selection }
    {
        sum_at(&self.sums, Counted::VotesIn(unit, contest, selection))
    }

    /// The overvotes of a contest, by its place.
    pub fn over(&self, contest: u32) -> u64
        ensures { result ≡ (summed_in self.now).over contest }
    {
        sum_at(&self.sums, Counted::Over(contest))
    }

    /// The undervotes of a contest, by its place.
    pub fn under(&self, contest: u32) -> u64
        ensures { result ≡ (summed_in self.now).under contest }
    {
        sum_at(&self.sums, Counted::Under(contest))
    }

    /// The units, contests and selections of which there are votes, in order.
    pub fn cells(&self, alloc: Global) -> Result<Vec<Cell>, OutOfMemory>
        ensures { IfOk result (λ cells. HaveVotes (summed_in self.now).votes_in cells.items) }
    {
        cells_of(alloc, &self.sums)
    }
}

/// Lets sums go. That this is safe is proved here; a crate that calls it needn't prove it again.
pub fn drop_totals(_totals: Totals) {}
