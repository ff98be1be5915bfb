//! The places of ids in long lists.

ghost use Rattle.std.specs.Prelude.{◌≡◌, ◌≤◌, ℕ, List, None, IfOk, OnOk, length};
ghost use Rattle.vx_audit.specs.Finding.{FindsBallots, FindsContests, ballot_in, contest_in, place_of, placed};
ghost use Rattle.vx_audit.specs.Hand.{contest_with};
ghost use Rattle.vx_audit.specs.Sized.{IsSized};

use indexmap::IndexMap;
use std::alloc::Global;
use vx_base::OutOfMemory;
use vx_tally::{Report, ReportContest};

/// The place at which each id stands first.
#[derive(Drop)]
pub(crate) struct Index {
    pub(crate) places: IndexMap<String, u32>,
}

impl Index {
    /// No ids; takes no memory.
    fn new(alloc: Global) -> Index
        ensures { (id : List ℕ) → place_of result id ≡ None }
    {
        Index {
            places: IndexMap::new(alloc),
        }
    }

    /// The place of an id.
    pub(crate) fn find(&self, id: &str) -> Option<u32>
        ensures { result ≡ place_of self.now id.now }
    {
        self.places.get(id).copied()
    }

    /// Adds the place of an id, unless it has one.
    fn put(&mut self, alloc: Global, id: &str, place: u32) -> Result<(), OutOfMemory>
        ensures { OnOk result ((other : List ℕ) → place_of self.new other ≡ placed id.now place other (place_of self.old other)) }
    {
        match self.find(id) {
            Some(_) => Ok(()),
            None => {
                self.places.insert(String::from_str(alloc, id)?, place)?;
                Ok(())
            }
        }
    }
}

/// The places of contests by their ids.
fn index_contests(alloc: Global, contests: &[ReportContest]) -> Result<Index, OutOfMemory>
    requires { length contests.now ≤ 1000000 }
    ensures { IfOk result (λ index. (id : List ℕ) → place_of index id ≡ contest_with contests.now id) }
{
    let mut index = Index::new(alloc);
    for (place, contest) in contests.iter().enumerate() {
        index.put(alloc, contest.id.as_str(), place as u32)?;
    }
    Ok(index)
}

/// The places of ballots by the ids of their records, and of contests by theirs.
#[derive(Drop)]
pub struct Directory {
    pub(crate) ballots: Index,
    pub(crate) contests: Index,
}

impl Directory {
    /// Those contests, and no ballot yet.
    pub fn new(alloc: Global, contests: &[ReportContest]) -> Result<Directory, OutOfMemory>
        requires { length contests.now ≤ 1000000 }
        ensures ballots { IfOk result (λ directory. (id : List ℕ) → ballot_in directory id ≡ None) }
        ensures contests { IfOk result (FindsContests contests.now) }
    {
        Ok(Directory {
            ballots: Index::new(alloc),
            contests: index_contests(alloc, contests)?,
        })
    }

    /// Adds the place of a ballot by its record's id. The first place of an id stands.
    pub fn put_ballot(&mut self, alloc: Global, id: &str, place: u32) -> Result<(), OutOfMemory>
        ensures ballots { OnOk result ((other : List ℕ) → ballot_in self.new other ≡ placed id.now place other (ballot_in self.old other)) }
        ensures contests { (id : List ℕ) → contest_in self.new id ≡ contest_in self.old id }
    {
        self.ballots.put(alloc, id, place)
    }
}

/// Lets a directory go. That this is safe is proved here; a crate that calls it needn't prove it again.
pub fn drop_directory(_directory: Directory) {}

/// The directory of a report.
pub(crate) fn directory_of(alloc: Global, report: &Report) -> Result<Directory, OutOfMemory>
    requires { IsSized report.now }
    ensures ballots { IfOk result (FindsBallots report.now.records) }
    ensures contests { IfOk result (FindsContests report.now.contests) }
{
    let records = report.records.as_slice();
    let mut directory = Directory::new(alloc, report.contests.as_slice())?;
    for (place, one) in records.iter().enumerate() {
        directory.put_ballot(alloc, one.unique.as_str(), place as u32)?;
    }
    Ok(directory)
}
