//! The text of an audit: what the records say, beside what hands read.

ghost use Rattle.std.specs.Prelude.{◌≡◌, ◌<◌, ◌≤◌, ◌+◌, ◌++◌, [], All, Some, bytes_eq, if◌then◌else◌, IfOk, OnOk, length, option_copied, slice_get, string_bytes};
ghost use Rattle.std.specs.List.{flat_map};
ghost use Rattle.vx_audit.specs.Audit as lines;
ghost use Rattle.vx_audit.specs.Found.{Finds, FoundNothing, pair_lines, text_found};
ghost use Rattle.vx_audit.specs.Sized.{IsSized};
ghost use Rattle.vx_audit.specs.Pairs.{pair_of, pairs_at_place, pairs_of};

use crate::hand::{Hand, HandLine};
use crate::marks::{counted_for, marked_text, record_text};
use crate::places::looked_at;
use std::alloc::Global;
use vx_base::OutOfMemory;
use vx_tally::{CvrRecord, RecordContest, Report, ReportContest};

/// What a comparison of records with what hands read has found: the lines so far, and how many contests of records
/// were compared, differ and are missing.
#[derive(Drop)]
pub struct Findings {
    pub(crate) text: String,
    pub(crate) compared: u64,
    pub(crate) different: u64,
    pub(crate) missing: u64,
}

impl Findings {
    /// Nothing yet; takes no memory.
    pub fn new(alloc: Global) -> Findings
        ensures { FoundNothing result }
    {
        Findings {
            text: String::new(alloc),
            compared: 0,
            different: 0,
            missing: 0,
        }
    }

    /// A sampled record.
    fn put_sampled(&mut self, unique: &str) -> Result<(), OutOfMemory>
        ensures text { OnOk result (string_bytes self.new.text ≡ string_bytes self.old.text
            ++ lines.sampled_line unique.now) }
        ensures compared { OnOk result (self.new.compared ≡ self.old.compared) }
        ensures different { OnOk result (self.new.different ≡ self.old.different) }
        ensures missing { OnOk result (self.new.missing ≡ self.old.missing) }
    {
        write!(&mut self.text, "sampled {unique}\n")?;
        Ok(())
    }

    /// A contest of a record of which there is no line.
    fn put_missing(&mut self, unique: &str, contest: &str) -> Result<(), OutOfMemory>
        ensures text { OnOk result (string_bytes self.new.text ≡ string_bytes self.old.text
            ++ lines.missing_line unique.now contest.now) }
        ensures compared { OnOk result (self.new.compared ≡ self.old.compared) }
        ensures different { OnOk result (self.new.different ≡ self.old.different) }
        ensures missing { OnOk result (self.new.missing ≡ self.old.missing + 1) }
    {
        let missing = self.missing.checked_add(1).ok_or(OutOfMemory)?;
        write!(&mut self.text, "missing {unique} {contest}\n")?;
        self.missing = missing;
        Ok(())
    }

    /// A contest of a record of which there is a line, where both say the same.
    fn put_same(&mut self) -> Result<(), OutOfMemory>
        ensures text { OnOk result (string_bytes self.new.text ≡ string_bytes self.old.text) }
        ensures compared { OnOk result (self.new.compared ≡ self.old.compared + 1) }
        ensures different { OnOk result (self.new.different ≡ self.old.different) }
        ensures missing { OnOk result (self.new.missing ≡ self.old.missing) }
    {
        self.compared = self.compared.checked_add(1).ok_or(OutOfMemory)?;
        Ok(())
    }

    /// A contest of a record of which there is a line that says otherwise.
    fn put_different(
        &mut self,
        unique: &str,
        contest: &str,
        said: &str,
        read: &str,
    ) -> Result<(), OutOfMemory>
        ensures text { OnOk result (string_bytes self.new.text ≡ string_bytes self.old.text
            ++ lines.differs_line unique.now contest.now said.now read.now) }
        ensures compared { OnOk result (self.new.compared ≡ self.old.compared + 1) }
        ensures different { OnOk result (self.new.different ≡ self.old.different + 1) }
        ensures missing { OnOk result (self.new.missing ≡ self.old.missing) }
    {
        let compared = self.compared.checked_add(1).ok_or(OutOfMemory)?;
        let different = self.different.checked_add(1).ok_or(OutOfMemory)?;
        write!(
            &mut self.text,
            "differs {unique} {contest} record {said} hand {read}\n"
        )?;
        self.compared = compared;
        self.different = different;
        Ok(())
    }

    /// A contest of a record of which there is a line, with what both say.
    fn put_compared(
        &mut self,
        unique: &str,
        contest: &str,
        said: &str,
        read: &str,
    ) -> Result<(), OutOfMemory>
        ensures text { OnOk result (string_bytes self.new.text ≡ string_bytes self.old.text
            ++ lines.read_text unique.now contest.now said.now (Some read.now)) }
        ensures compared { OnOk result (self.new.compared ≡ self.old.compared + 1) }
        ensures different { OnOk result (self.new.different ≡ self.old.different
            + (if bytes_eq said.now read.now then 0 else 1)) }
        ensures missing { OnOk result (self.new.missing ≡ self.old.missing) }
    {
        if said == read {
            self.put_same()
        } else {
            self.put_different(unique, contest, said, read)
        }
    }

    /// A contest of a record, where the record has it or there is a line.
    fn take_contest(
        &mut self,
        alloc: Global,
        one: &CvrRecord,
        contest: &ReportContest,
        counted: Option<&RecordContest>,
        line: Option<&HandLine>,
    ) -> Result<(), OutOfMemory>
        ensures { OnOk result (Finds
            (pair_lines (pair_of one.now contest.now (option_copied counted.entry) (option_copied line.entry)))
            (pair_of one.now contest.now (option_copied counted.entry) (option_copied line.entry)) self.old self.new) }
    {
        let (unique, id) = (one.unique.as_str(), contest.id.as_str());
        let selections = contest.selections.as_slice();
        match line {
            None => match counted {
                None => Ok(()),
                Some(_) => self.put_missing(unique, id),
            },
            Some(line) => {
                let said = record_text(alloc, selections, counted)?;
                let read = marked_text(alloc, selections, line.marks.as_slice())?;
                self.put_compared(unique, id, said.as_str(), read.as_str())
            }
        }
    }

    /// The contest at a place of the record at a place, if there is such a contest.
    fn take_place(
        &mut self,
        alloc: Global,
        contests: &[ReportContest],
        hand: &Hand,
        at: u32,
        one: &CvrRecord,
        place: u32,
    ) -> Result<(), OutOfMemory>
        ensures { OnOk result (Finds (pair_lines (pairs_at_place contests.now hand.now at one.now place))
            (pairs_at_place contests.now hand.now at one.now place) self.old self.new) }
    {
        let Some(contest) = contests.get(place as usize) else {
            return Ok(());
        };
        let counted = counted_for(one, place);
        let read = hand.line(at, place);
        self.take_contest(alloc, one, contest, counted, read)?;
        Ok(())
    }

    /// The contests at those places of the record at a place.
    fn take_places(
        &mut self,
        alloc: Global,
        contests: &[ReportContest],
        hand: &Hand,
        at: u32,
        one: &CvrRecord,
        places: &[u32],
    ) -> Result<(), OutOfMemory>
        ensures { OnOk result (Finds
            (pair_lines (flat_map (pairs_at_place contests.now hand.now at one.now) places.now))
            (flat_map (pairs_at_place contests.now hand.now at one.now) places.now) self.old self.new) }
    {
        for place in places {
            self.take_place(alloc, contests, hand, at, one, *place)?;
        }
        Ok(())
    }

    /// The contests of the record at a place. Only those are looked at that it has, or of which there is a line.
    fn take_contests(
        &mut self,
        alloc: Global,
        contests: &[ReportContest],
        hand: &Hand,
        at: u32,
        one: &CvrRecord,
    ) -> Result<(), OutOfMemory>
        requires { length contests.now ≤ 1000000 }
        ensures { OnOk result (Finds (pair_lines (pairs_of contests.now hand.now at one.now))
            (pairs_of contests.now hand.now at one.now) self.old self.new) }
    {
        let places = looked_at(alloc, hand, at, one)?;
        self.take_places(alloc, contests, hand, at, one, places.as_slice())?;
        Ok(())
    }

    /// A record of the sample, which stands at a place of the report whose contests are told.
    pub fn take_record(
        &mut self,
        alloc: Global,
        contests: &[ReportContest],
        hand: &Hand,
        at: u32,
        one: &CvrRecord,
    ) -> Result<(), OutOfMemory>
        requires { length contests.now ≤ 1000000 }
        ensures { OnOk result (Finds (lines.record_lines contests.now hand.now at (Some one.now))
            (lines.pairs_at contests.now hand.now at (Some one.now)) self.old self.new) }
    {
        self.put_sampled(one.unique.as_str())?;
        self.take_contests(alloc, contests, hand, at, one)?;
        Ok(())
    }

    /// The text of a sample of so many records: its lines, and the last line.
    pub fn into_text(self, sampled: usize) -> Result<String, OutOfMemory>
        ensures { IfOk result (λ text. string_bytes text ≡ text_found self sampled) }
    {
        let mut text = self.text;
        let (compared, different, missing) = (self.compared, self.different, self.missing);
        write!(
            &mut text,
            "sample {sampled} compared {compared} differs {different} missing {missing}\n"
        )?;
        Ok(text)
    }

    /// The record at a place of a report.
    fn take_at(
        &mut self,
        alloc: Global,
        report: &Report,
        hand: &Hand,
        at: u32,
    ) -> Result<(), OutOfMemory>
        requires sized { IsSized report.now }
        requires within { at < length report.now.records }
        ensures { OnOk result (Finds
            (lines.record_lines report.now.contests hand.now at (slice_get report.now.records at))
            (lines.pairs_at report.now.contests hand.now at (slice_get report.now.records at)) self.old self.new) }
    {
        let one = &report.records.as_slice()[at as usize];
        self.take_record(alloc, report.contests.as_slice(), hand, at, one)?;
        Ok(())
    }

    /// The records at those places of a report.
    fn take_records(
        &mut self,
        alloc: Global,
        report: &Report,
        hand: &Hand,
        sample: &[u32],
    ) -> Result<(), OutOfMemory>
        requires sized { IsSized report.now }
        requires within { All (λ at. at < length report.now.records) sample.now }
        ensures { OnOk result (Finds
            (flat_map (λ at. lines.record_lines report.now.contests hand.now at (slice_get report.now.records at)) sample.now)
            (lines.all_pairs report.now.contests report.now.records hand.now sample.now) self.old self.new) }
    {
        for at in sample {
            self.take_at(alloc, report, hand, *at)?;
        }
        Ok(())
    }
}

/// What `audit` writes of a report, what hands read, and the places of the records of the sample.
#[tactic(auto, unfolding(crate::specs::Audit::compared_text))]
pub fn audit_text(
    alloc: Global,
    report: &Report,
    hand: &Hand,
    sample: &[u32],
) -> Result<String, OutOfMemory>
    requires sized { IsSized report.now }
    requires within { All (λ at. at < length report.now.records) sample.now }
    ensures { IfOk result (λ text. string_bytes text ≡ lines.audit_text report.now hand.now sample.now) }
{
    let mut findings = Findings::new(alloc);
    findings.take_records(alloc, report, hand, sample)?;
    findings.into_text(sample.len())
}
