//! What a report says: units, contests, and records with their votes.

ghost use Rattle.std.specs.Prelude.{◌≡◌, IfOk};
ghost use Rattle.std.specs.Cmp.Lexicographic.{pointwise};
ghost use Rattle.vx_tally.specs.Totals.{same_contest, same_record};

use std::alloc::Global;
use vx_base::{ListOf, OutOfMemory};
use vx_json::{Text, Texts};

/// A contest of a report.
#[derive(Drop)]
pub struct ReportContest {
    /// Its id in the report.
    pub id: Text,
    /// The ids of its selections, in order.
    pub selections: Texts,
}

/// Contests of a report.
pub type ReportContests = ListOf<ReportContest>;

/// Votes for a selection.
#[derive(Clone, Copy, PartialEq)]
pub struct VoteRow {
    /// The selection's place among those of its contest.
    pub selection: u32,
    /// How many votes, at most 50 where they were read.
    pub votes: u32,
}

/// Votes for selections, which may repeat one.
pub type VoteRows = ListOf<VoteRow>;

/// A contest of a record.
#[derive(Drop)]
pub struct RecordContest {
    /// The contest's place among those of the report.
    pub contest: u32,
    /// Its overvotes.
    pub over: u32,
    /// Its undervotes.
    pub under: u32,
    /// The votes for its selections.
    pub votes: VoteRows,
}

impl RecordContest {
    /// Whether two contests are equal.
    fn is_same(&self, other: &RecordContest) -> bool
        ensures { result ≡ same_contest self.now other.now }
    {
        self.contest == other.contest
            && self.over == other.over
            && self.under == other.under
            && self.votes.as_slice() == other.votes.as_slice()
    }

    /// An equal contest.
    fn copy(&self, alloc: Global) -> Result<RecordContest, OutOfMemory>
        ensures { IfOk result (λ copy. copy ≡ self.now) }
    {
        let votes = Vec::from_slice(alloc, self.votes.as_slice())?;
        Ok(RecordContest {
            contest: self.contest,
            over: self.over,
            under: self.under,
            votes: VoteRows::from_vec(votes),
        })
    }
}

/// Contests of a record.
pub type RecordContests = ListOf<RecordContest>;

/// A cast vote record.
#[derive(Drop)]
pub struct CvrRecord {
    /// Its own id in the report.
    pub unique: Text,
    /// The place of its unit among those of the report.
    pub unit: u32,
    /// Its contests, each once where they were read.
    pub contests: RecordContests,
}

fn copy_contests(alloc: Global, contests: &[RecordContest]) -> Result<RecordContests, OutOfMemory>
    ensures { IfOk result (λ copy. copy ≡ contests.now) }
{
    let mut copy = RecordContests::new(alloc);
    for contest in contests {
        copy.push(contest.copy(alloc)?)?;
    }
    Ok(copy)
}

fn are_same(one: &[RecordContest], other: &[RecordContest]) -> bool
    ensures { result ≡ pointwise same_contest one.now other.now }
{
    if one.len() != other.len() {
        return false;
    }
    for index in 0..one.len() {
        if !one[index].is_same(&other[index]) {
            return false;
        }
    }
    true
}

impl CvrRecord {
    /// Whether two records are equal.
    pub(crate) fn is_same(&self, other: &CvrRecord) -> bool
        ensures { result ≡ same_record self.now other.now }
    {
        self.unique.as_str() == other.unique.as_str()
            && self.unit == other.unit
            && are_same(self.contests.as_slice(), other.contests.as_slice())
    }

    /// An equal record.
    pub fn copy(&self, alloc: Global) -> Result<CvrRecord, OutOfMemory>
        ensures { IfOk result (λ copy. copy ≡ self.now) }
    {
        Ok(CvrRecord {
            unique: self.unique.copy(alloc)?,
            unit: self.unit,
            contests: copy_contests(alloc, self.contests.as_slice())?,
        })
    }
}

/// Cast vote records.
pub type CvrRecords = ListOf<CvrRecord>;

/// A report that was read.
#[derive(Drop)]
pub struct Report {
    /// The ids of its units, each once.
    pub units: Texts,
    /// Its contests; no two contests have an id in common, nor two selections of any of them.
    pub contests: ReportContests,
    /// Its records; no two have an id in common.
    pub records: CvrRecords,
}

/// Lets a report go. That this is safe is proved here; a crate that calls it needn't prove it again.
pub fn drop_report(_report: Report) {}
