ghost use Rattle.std.specs.Prelude.{◌≡◌, ◌++◌, ◌∷◌, [], ℕ, false, true, IfNone, IfOk, ◌<◌, ◌≤◌, IsSome, MatchOption, OnErr, OnOk, length, slice_get};
ghost use Rattle.vx_election_model.specs.Valid.{IsValid};
ghost use Rattle.vx_events.specs.Fits.{fits as fits_of, Fits, is_read};
ghost use Rattle.vx_rules.specs.declared.marks.SheetMarks.{SheetMarks};
ghost use Rattle.vx_center.specs.Histories.{IsHistory};
ghost use Rattle.vx_center.specs.Holders.{holder_of};
ghost use Rattle.vx_center.specs.Places as places;
ghost use Rattle.vx_center.specs.Replies.{next_of, reply_of};
ghost use Rattle.vx_center.specs.Decisions.{decided_of};
ghost use Rattle.vx_center.specs.Sheets.{IsSheetOf, key_of, place_in, sheet_in, sheets_in};
ghost use Rattle.vx_center.specs.States.{HandsTo, IsAt, IsFound, IsUnknown, is_add};
ghost use Rattle.vx_center.specs.Waiting.{contest_waits};

use crate::decided::Decided;
use crate::entry::SheetEntry;
use crate::name::SheetName;
use crate::replying::{claim_reply, decide_reply, if_held};
use crate::waiting::is_exported;
use indexmap::IndexMap;
use std::alloc::Global;
use std::marker::Model;
use vx_base::{ListOf, OutOfMemory};
use vx_election_model::Election;
use vx_events::{Event, Key, Reply, fits};
use vx_rules::{ContestMarks, SheetMarks};

/// Kept events, in order.
pub type Events = ListOf<Event>;

/// The counting machine of an election. Contracts see its election and the events that it has kept.
#[derive(Drop)]
pub struct Center<'e> {
    election: &'e Election,
    events: Events,
    sheets: IndexMap<SheetName, SheetEntry>,
}

impl<'e> Model for Center<'e> {
    ghost use Rattle.vx_center.specs.Kept.{Kept};
    ghost use Rattle.vx_center.specs.States.{IsKept};

    ghost Value = { Kept };

    ghost view = { λ center. record { election = center.election.now; events = center.events } };

    ghost invariant = { λ center. IsKept center.election.now center.events center.sheets.entries };
}

/// A sheet that was added: its key, what it was read as, and what is kept beside it.
#[derive(Clone, Copy)]
pub(crate) struct Found<'a> {
    pub(crate) key: &'a Key,
    pub(crate) sheet: &'a SheetMarks,
    pub(crate) entry: &'a SheetEntry,
}

/// The key and the sheet of an Add; nothing of another event.
pub fn added(event: &Event) -> Option<(&Key, &SheetMarks)>
    ensures { MatchOption result (is_add event.now ≡ false) (λ parts. event.now ≡ Event.Add parts.0.now parts.1.now) }
{
    match event {
        Event::Add { key, sheet } => Some((key, sheet)),
        Event::Claim { .. } | Event::Release { .. } | Event::Decide { .. } => None,
    }
}

impl<'e> Center<'e> {
    /// A center that has kept no event; takes no memory.
    pub fn new(alloc: Global, election: &'e Election) -> Center<'e>
        requires { IsValid election.now }
        ensures { result ≡ record { election = election.now; events = [] } }
    {
        Center {
            election,
            events: Events::new(alloc),
            sheets: IndexMap::new(alloc),
        }
    }

    /// Whether an event fits the election. The kept events have no part in it.
    pub fn fits(&self, event: &Event) -> bool
        ensures { result ≡ fits_of self.now.election event.now }
    {
        fits(self.election, event)
    }

    /// The kept events, in order: each was answered with Done behind those before it.
    pub fn events(&self) -> &Events
        ensures value { result.now ≡ self.now.events }
        ensures history { IsHistory self.now.election self.now.events }
    {
        &self.events
    }

    /// The station that holds the sheet with a key.
    pub fn holder(&self, key: &Key) -> Option<u32>
        ensures { result ≡ holder_of self.now.events key.now }
    {
        match self.find(key) {
            None => None,
            Some(found) => found.entry.holder(),
        }
    }

    /// The answer to an event that fits. It is kept where that is Done; else nothing changes and no
    /// memory is taken. After want of memory all is as before.
    pub fn apply(&mut self, alloc: Global, event: &Event) -> Result<Reply, OutOfMemory>
        requires { Fits self.old.election event.now }
        ensures reply { IfOk result (λ reply. reply ≡ reply_of self.old.election self.old.events event.now) }
        ensures next { OnOk result (self.new
            ≡ record self.old { events = next_of self.old.election self.old.events event.now }) }
        ensures as_before { OnErr result (self.new ≡ self.old) }
        ensures no_refusal { OnErr result (reply_of self.old.election self.old.events event.now ≡ Reply.Done) }
    {
        match self.reply(event) {
            Reply::Done => {
                self.keep(alloc, event)?;
                Ok(Reply::Done)
            }
            refusal => Ok(refusal),
        }
    }

    /// The answer to an event.
    fn reply(&self, event: &Event) -> Reply
        requires { Fits self.now.election event.now }
        ensures { result ≡ reply_of self.now.election self.now.events event.now }
    {
        if self.events.len() >= 1_000_000 {
            return Reply::Full(1_000_000);
        }
        match event {
            Event::Add { key, .. } => match self.place(key) {
                None => Reply::Done,
                Some(place) => Reply::Repeated(place as u32),
            },
            Event::Claim { station, key } => match self.find(key) {
                None => Reply::NoSheet,
                Some(found) => claim_reply(*station, found.entry.holder()),
            },
            Event::Release { station, key } => match self.find(key) {
                None => Reply::NoSheet,
                Some(found) => if_held(*station, found.entry.holder(), Reply::Done),
            },
            Event::Decide {
                station,
                key,
                contest,
                decision,
            } => match self.find(key) {
                None => Reply::NoSheet,
                Some(found) => if_held(
                    *station,
                    found.entry.holder(),
                    decide_reply(
                        self.election,
                        found.sheet,
                        found.entry.decided(),
                        *contest,
                        decision,
                    ),
                ),
            },
        }
    }

    /// Keeps an event that is answered with Done.
    fn keep(&mut self, alloc: Global, event: &Event) -> Result<(), OutOfMemory>
        requires fits { Fits self.old.election event.now }
        requires done { reply_of self.old.election self.old.events event.now ≡ Reply.Done }
        ensures kept { OnOk result (self.new ≡ record self.old { events = self.old.events ++ event.now ∷ [] }) }
        ensures as_before { OnErr result (self.new ≡ self.old) }
    {
        let copy = event.copy(alloc)?;
        match event {
            Event::Add { key, .. } => self.keep_sheet(alloc, key, copy),
            Event::Claim { station, key } => self.keep_holder(key, Some(*station), copy),
            Event::Release { key, .. } => self.keep_holder(key, None, copy),
            Event::Decide {
                key,
                contest,
                decision,
                ..
            } => {
                let decided = Decided {
                    contest: *contest,
                    decision: decision.copy(alloc)?,
                };
                self.keep_decision(key, copy, decided)
            }
        }
    }

    /// Keeps an Add of a sheet with this key.
    fn keep_sheet(&mut self, alloc: Global, key: &Key, event: Event) -> Result<(), OutOfMemory>
        requires fits { Fits self.old.election event }
        requires done { reply_of self.old.election self.old.events event ≡ Reply.Done }
        requires adds { (sheet : SheetMarks) × (event ≡ Event.Add key.now sheet) }
        ensures kept { OnOk result (self.new ≡ record self.old { events = self.old.events ++ event ∷ [] }) }
        ensures as_before { OnErr result (self.new ≡ self.old) }
    {
        let at = self.events.len();
        self.sheets.reserve(1)?;
        self.events.push(event)?;
        self.sheets
            .insert(SheetName::of_key(key), SheetEntry::new(alloc, at))
            .unwrap();
        Ok(())
    }

    /// Keeps an event by which the sheet with a key goes to a station, or to none.
    fn keep_holder(
        &mut self,
        key: &Key,
        holder: Option<u32>,
        event: Event,
    ) -> Result<(), OutOfMemory>
        requires fits { Fits self.old.election event }
        requires done { reply_of self.old.election self.old.events event ≡ Reply.Done }
        requires hands { HandsTo event key.now holder }
        ensures kept { OnOk result (self.new ≡ record self.old { events = self.old.events ++ event ∷ [] }) }
        ensures as_before { OnErr result (self.new ≡ self.old) }
    {
        let place = self.added_place(key);
        self.events.push(event)?;
        self.sheets[place].give_to(holder);
        Ok(())
    }

    /// Keeps a decision of the sheet with a key.
    fn keep_decision(
        &mut self,
        key: &Key,
        event: Event,
        decided: Decided,
    ) -> Result<(), OutOfMemory>
        requires fits { Fits self.old.election event }
        requires done { reply_of self.old.election self.old.events event ≡ Reply.Done }
        requires decides { (station : ℕ) × (event ≡ Event.Decide station key.now decided.contest decided.decision) }
        ensures kept { OnOk result (self.new ≡ record self.old { events = self.old.events ++ event ∷ [] }) }
        ensures as_before { OnErr result (self.new ≡ self.old) }
    {
        let place = self.added_place(key);
        self.sheets[place].decide(&mut self.events, event, decided)?;
        Ok(())
    }

    /// The place of the sheet of a batch with a number, in the order of adding.
    fn place_of(&self, batch: &str, number: u64) -> Option<usize>
        ensures place { result ≡ place_in self.now.events (key_of batch.now number) }
        ensures unknown { IfNone result (IsUnknown self.now.events (key_of batch.now number)) }
    {
        let sheets = &self.sheets;
        if batch.len() > 32 {
            return None;
        }
        if number > 999_999 {
            return None;
        }
        sheets.get_index_of(&SheetName::new(batch, number as u32))
    }

    /// The place of the sheet with a key, in the order of adding.
    fn place(&self, key: &Key) -> Option<usize>
        ensures place { result ≡ place_in self.now.events key.now }
        ensures unknown { IfNone result (IsUnknown self.now.events key.now) }
    {
        self.place_of(key.batch.as_str(), u64::from(key.number))
    }

    /// The place of a sheet that was added.
    fn added_place(&self, key: &Key) -> usize
        requires { IsSome (place_in self.now.events key.now) }
        ensures { place_in self.now.events key.now ≡ Some result }
    {
        self.place(key).unwrap()
    }

    /// The sheet with a key.
    fn find(&self, key: &Key) -> Option<Found<'_>>
        ensures { MatchOption result
            (IsUnknown self.now.events key.now)
            (λ found. IsFound self.now.election self.now.events key.now found.sheet.now found.entry.now) }
    {
        self.found(self.place(key)?)
    }

    /// The key of the sheet of a batch with a number, and what the sheet was read as, if it was added.
    pub fn sheet(&self, batch: &str, number: u64) -> Option<(&Key, &SheetMarks)>
        ensures { MatchOption result
            (sheet_in self.now.events (key_of batch.now number) ≡ None)
            (λ parts. IsSheetOf self.now.election self.now.events (key_of batch.now number)
            parts.0.now parts.1.now) }
    {
        let found = self.found(self.place_of(batch, number)?)?;
        Some((found.key, found.sheet))
    }

    /// What was decided of the sheet with a key, in order; nothing where it wasn't added.
    fn decided(&self, key: &Key) -> &[Decided]
        ensures { result.now ≡ decided_of self.now.events key.now }
    {
        match self.find(key) {
            None => &[],
            Some(found) => found.entry.decided(),
        }
    }

    /// Whether a contest of the sheet with a key waits for a decision. The sheet is blank or not, and the contest
    /// was read so. Takes no memory, and no longer where more events were kept.
    pub fn waits(&self, key: &Key, sheet_blank: bool, marks: &ContestMarks) -> bool
        requires { is_read self.now.election marks.now ≡ true }
        ensures { result ≡ contest_waits self.now.election self.now.events key.now sheet_blank marks.now }
    {
        !is_exported(self.election, sheet_blank, self.decided(key), marks)
    }

    /// The sheet at a place in the order of adding.
    pub(crate) fn found(&self, place: usize) -> Option<Found<'_>>
        ensures { MatchOption result
            (slice_get (sheets_in self.now.events) place ≡ None)
            (λ found. IsAt self.now.election self.now.events place found.key.now found.sheet.now found.entry.now) }
    {
        let (_, entry) = self.sheets.get_index(place)?;
        let (key, sheet) = added(self.events.as_slice().get(entry.at())?)?;
        Some(Found { key, sheet, entry })
    }

    /// How many sheets were added.
    pub fn sheet_count(&self) -> usize
        ensures count { result ≡ length (sheets_in self.now.events) }
        ensures few { result ≤ 1000000 }
    {
        self.sheets.len()
    }

    /// What the sheet at a place in the order of adding was read as.
    pub fn sheet_at(&self, place: usize) -> &SheetMarks
        requires { place < length (sheets_in self.now.events) }
        ensures { result.now ≡ (places.sheet_at self.now.events place).sheet }
    {
        self.found(place).unwrap().sheet
    }

    /// The key of the sheet at a place in the order of adding.
    #[tactic(auto, using(crate::proofs::Rowed::key_found))]
    pub fn key_at(&self, place: usize) -> &Key
        requires { place < length (sheets_in self.now.events) }
        ensures { result.now ≡ (places.sheet_at self.now.events place).key }
    {
        self.found(place).unwrap().key
    }

    /// The election, lent.
    pub(crate) fn election(&self) -> &'e Election
        ensures value { result.now ≡ self.now.election }
        ensures valid { IsValid self.now.election }
    {
        self.election
    }
}

/// Lets a counting machine go. That this is safe is proved here; a crate that calls it needn't prove
/// it again.
pub fn drop_center(_center: Center<'_>) {}
