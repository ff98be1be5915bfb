//! What hands read, line after line, with the places of the lines.

ghost use Rattle.std.specs.Prelude.{◌≡◌, ◌++◌, ◌∷◌, [], false, if◌then◌else◌, is_ok, length, option_copied, OnOk};
ghost use Rattle.std.specs.List.{list_any};
ghost use Rattle.vx_audit.specs.Hand.{is_for};
ghost use Rattle.vx_audit.specs.Pairs.{line_for};
ghost use Rattle.vx_audit.specs.Places.{AddsContests};

use crate::sample::Places;
use std::alloc::{AllocError, Global};
use std::collections::BTreeMap;
use std::marker::Model;
use vx_base::OutOfMemory;

/// Why what hands read is refused.
#[derive(Drop)]
pub enum HandFault {
    /// That line isn't one of the form, names what the report hasn't, or repeats a contest of a ballot.
    /// Lines are counted from 1.
    BadLine(u32),
    /// Memory ran out.
    OutOfMemory,
}

impl From<AllocError> for HandFault {
    ghost use Rattle.vx_audit.specs.declared.hand.HandFault.TheVariants as faults;

    ghost from_gives = { λ _ result. result ≡ faults.OutOfMemory };

    fn from(_refused: AllocError) -> HandFault {
        HandFault::OutOfMemory
    }
}

/// What hands read of a contest of a paper ballot.
#[derive(Drop)]
pub struct HandLine {
    /// The place of the ballot's record among those of the report.
    pub ballot: u32,
    /// The contest's place among those of the report.
    pub contest: u32,
    /// The places of the selections that are marked, among those of the contest; each once.
    pub marks: Places,
}

/// What hands read, each contest of a ballot once. Contracts see the list of the lines. The place of a line is found
/// by its ballot and its contest.
#[derive(Drop)]
pub struct Hand {
    lines: Vec<HandLine>,
    places: BTreeMap<(u32, u32), usize>,
}

impl Model for Hand {
    ghost use Rattle.std.specs.Prelude.{List};
    ghost use Rattle.vx_audit.specs.declared.hand.HandLine.{HandLine};
    ghost use Rattle.vx_audit.specs.Places.{AreFound};

    ghost Value = { List HandLine };

    ghost view = { λ hand. hand.lines.items };

    ghost invariant = { λ hand. AreFound hand.lines.items hand.places };
}

impl Hand {
    /// No lines; takes no memory.
    pub fn new(alloc: Global) -> Hand
        ensures { result ≡ [] }
    {
        Hand {
            lines: Vec::new(alloc),
            places: BTreeMap::new(alloc),
        }
    }

    pub fn len(&self) -> usize
        ensures { result ≡ length self.now }
    {
        self.lines.len()
    }

    /// The lines, in their order.
    pub fn lines(&self) -> &[HandLine]
        ensures { result.now ≡ self.now }
    {
        self.lines.as_slice()
    }

    /// Whether there is a line of a contest of a ballot.
    pub fn has(&self, ballot: u32, contest: u32) -> bool
        ensures { result ≡ list_any (is_for ballot contest) self.now }
    {
        self.places.contains_key(&(ballot, contest))
    }

    /// Adds a line at the end. After want of memory the lines are as before.
    pub(crate) fn push(&mut self, line: HandLine) -> Result<(), OutOfMemory>
        requires { list_any (is_for line.ballot line.contest) self.old ≡ false }
        ensures { self.new ≡ (if is_ok result then self.old ++ line ∷ [] else self.old) }
    {
        self.lines.reserve(1)?;
        self.places
            .insert((line.ballot, line.contest), self.lines.len())?;
        self.lines.push(line).unwrap();
        Ok(())
    }

    /// The line of a contest of a ballot, if there is one.
    pub fn line(&self, ballot: u32, contest: u32) -> Option<&HandLine>
        ensures { option_copied result ≡ line_for self.now ballot contest }
    {
        match self.places.get(&(ballot, contest)) {
            None => None,
            Some(place) => Some(&self.lines[*place]),
        }
    }

    /// Puts the contests of a ballot of which there are lines behind others.
    pub(crate) fn push_contests(
        &self,
        ballot: u32,
        contests: &mut Vec<u32>,
    ) -> Result<(), OutOfMemory>
        ensures { OnOk result (AddsContests self.now ballot contests.old.items contests.new.items) }
    {
        for (key, _place) in self.places.range((ballot, 0)..=(ballot, u32::MAX)) {
            contests.push(key.1)?;
        }
        Ok(())
    }
}

/// Lets what hands read go. That this is safe is proved here; a crate that calls it needn't prove it again.
pub fn drop_hand(_hand: Hand) {}
