//! Records that are in, and what they sum up to.

ghost use Rattle.std.specs.Prelude.{◌≡◌, ◌<◌, ◌≤◌, ◌++◌, ◌∷◌, [], true, length, is_ok, if◌then◌else◌};
ghost use Rattle.std.specs.List.{list_any};
ghost use Rattle.vx_tally.specs.Totals.{total_of, total_in_of, over_of, under_of, same_record, without_first, size_of, IsCountable};

use crate::kept::{KeptRecords, key_of, mark_of};
use crate::report::CvrRecord;
use crate::sums::{Change, Counted, Sums, change_record, sum_at};
use indexmap::IndexMap;
use std::alloc::Global;
use std::collections::BTreeMap;
use std::marker::Model;
use vx_base::OutOfMemory;

/// Records that are in, in the order in which they were added, with sums of their numbers. Contracts
/// see the list of the records. A record is looked for among those with the mark of its id alone,
/// and a total is one look-up, so that no call walks over all records.
#[derive(Drop)]
pub struct Tally {
    records: KeptRecords,
    next: u64,
    sums: Sums,
}

impl Model for Tally {
    ghost use Rattle.std.specs.Prelude.{List};
    ghost use Rattle.vx_tally.specs.declared.report.CvrRecord.{CvrRecord};
    ghost use Rattle.vx_tally.specs.Kept.{records_of, IsKept};

    ghost Value = { List CvrRecord };

    ghost view = { λ tally. records_of tally.records.entries };

    ghost invariant = { λ tally. IsKept tally.records.entries tally.next tally.sums };
}

/// How many contests and rows a record has.
pub(crate) fn size_of(one: &CvrRecord) -> usize
    requires { size_of one.now ≤ 10000000 }
    ensures { result ≡ size_of one.now }
{
    let mut size = 0;
    for counted in one.contests.as_slice() {
        size += 1 + counted.votes.len();
    }
    size
}

impl Tally {
    /// No records; takes no memory.
    pub fn new(alloc: Global) -> Tally
        ensures { result ≡ [] }
    {
        Tally {
            records: BTreeMap::new(alloc),
            next: 0,
            sums: IndexMap::new(alloc),
        }
    }

    /// Puts a copy of a record behind those that are in. After want of memory the tally is as before;
    /// that 2^64 - 1 records were added is told as want of memory, too.
    pub fn add(&mut self, alloc: Global, cvr: &CvrRecord) -> Result<(), OutOfMemory>
        requires few { length self.old < 1000000000 }
        requires countable { IsCountable cvr.now }
        ensures { self.new ≡ (if is_ok result then self.old ++ cvr.now ∷ [] else self.old) }
    {
        let next = self.next.checked_add(1).ok_or(OutOfMemory)?;
        self.sums.reserve(2 * size_of(cvr))?;
        let mark = mark_of(cvr.unique.as_str());
        let copy = cvr.copy(alloc)?;
        self.records.insert((mark, self.next), copy)?;
        self.next = next;
        change_record(&mut self.sums, Change::Raise, cvr);
        Ok(())
    }

    /// Takes the first record that is equal out; takes no memory.
    pub fn remove(&mut self, cvr: &CvrRecord)
        requires { list_any (same_record cvr.now) self.old ≡ true }
        ensures { self.new ≡ without_first cvr.now self.old }
    {
        let key = key_of(&self.records, self.next, cvr).unwrap();
        let gone = self.records.remove(&key).unwrap();
        change_record(&mut self.sums, Change::Lower, &gone);
    }

    /// Whether an equal record is in.
    pub fn holds(&self, cvr: &CvrRecord) -> bool
        ensures { result ≡ list_any (same_record cvr.now) self.now }
    {
        key_of(&self.records, self.next, cvr).is_some()
    }

    /// The votes for a selection of a contest, by their places.
    pub fn total(&self, contest: u32, selection: u32) -> u64
        ensures { result ≡ total_of self.now contest selection }
    {
        sum_at(&self.sums, Counted::Votes(contest, selection))
    }

    /// The votes for a selection of a contest in a unit, by their places.
    pub fn total_in(&self, unit: u32, contest: u32, selection: u32) -> u64
        ensures { result ≡ total_in_of self.now unit contest selection }
    {
        sum_at(&self.sums, Counted::VotesIn(unit, contest, selection))
    }

    /// The overvotes of a contest, by its place.
    pub fn over(&self, contest: u32) -> u64
        ensures { result ≡ over_of self.now contest }
    {
        sum_at(&self.sums, Counted::Over(contest))
    }

    /// The undervotes of a contest, by its place.
    pub fn under(&self, contest: u32) -> u64
        ensures { result ≡ under_of self.now contest }
    {
        sum_at(&self.sums, Counted::Under(contest))
    }
}

/// Lets a tally go. That this is safe is proved here; a crate that calls it needn't prove it again.
pub fn drop_tally(_tally: Tally) {}
