ghost use Rattle.std.specs.Prelude.{◌≡◌, ◌<◌, ◌++◌, ◌∷◌, [], Some, None, length, IfOk, OnOk, OnErr, is_err, is_some};
ghost use Rattle.vx_io.specs.Fakes.{HeldKeeper, counted, kept_of_next, no_calls};
ghost use Rattle.vx_io.specs.Keeping.{Stores, has_failed};
ghost use Rattle.vx_io.specs.Outside.{IsCountOf, IsIndexOf, IsRecordAt, Appends, MayAppend, CountsFaults};

use crate::lists::{KeeperCalls, Records, kept_at};
use crate::outside::{Failed, Keeper, KeeperError};
use crate::tally::Tally;
use std::marker::Model;
use vx_base::Bytes;

/// A keeper in memory, whose listed calls fail.
#[derive(Drop)]
pub struct MemKeeper {
    records: Records,
    fails: KeeperCalls,
    tally: Tally,
}

impl Model for MemKeeper {
    ghost use Rattle.vx_io.specs.Fakes.{HeldKeeper};

    ghost Value = { HeldKeeper };

    ghost view = { λ keeper. record { records = keeper.records; fails = keeper.fails; tally = keeper.tally } };
}

impl MemKeeper {
    /// Keeps the records; takes no memory.
    pub fn new(records: Records, fails: KeeperCalls) -> Self
        ensures { result ≡ record { records = records; fails = fails; tally = no_calls } }
    {
        MemKeeper {
            records,
            fails,
            tally: Tally::new(),
        }
    }

    /// The records kept so far.
    pub fn records(&self) -> &Records
        ensures { result.now ≡ self.now.records }
    {
        &self.records
    }

    /// Counts a call, and a fault where it is listed.
    fn call(&mut self) -> Result<(), Failed>
        ensures cause { CountsFaults (is_err result) self.old.tally.faults self.new.tally.faults }
        ensures failed { is_err result ≡ is_some (kept_of_next self.old.fails self.old.tally) }
        ensures counted { self.new ≡ record self.old { tally = counted self.old.tally (is_err result) } }
    {
        let failed = kept_at(&self.fails, self.tally.number_of_next()).is_some();
        self.tally.count(failed);
        if failed { Err(Failed) } else { Ok(()) }
    }
}

/// Adds a record, unless the call is listed as one that keeps none; a listed call is a fault.
fn store(records: &mut Records, listed: Option<bool>, body: &[u8]) -> Result<(), KeeperError>
    ensures { Stores listed records.old records.new body.now result }
{
    if listed == Some(false) {
        return Err(KeeperError::Failed);
    }
    records.push(body)?;
    match listed {
        Some(_) => Err(KeeperError::Failed),
        None => Ok(()),
    }
}

impl Keeper for MemKeeper {
    ghost held = { λ keeper. Some keeper.records };

    ghost faults = { λ keeper. keeper.tally.faults };

    fn count(&mut self) -> Result<u64, KeeperError>
        ensures count { IfOk result (IsCountOf (Some self.old.records)) }
        ensures held { self.new.records ≡ self.old.records }
        ensures cause { CountsFaults (has_failed result) self.old.tally.faults self.new.tally.faults }
        ensures failed { is_err result ≡ is_some (kept_of_next self.old.fails self.old.tally) }
        ensures refused { OnErr result (result ≡ Err KeeperError.Failed) }
        ensures counted { self.new ≡ record self.old { tally = counted self.old.tally (is_err result) } }
    {
        self.call()?;
        Ok(self.records.len() as u64)
    }

    fn fetch(&mut self, index: u64, into: &mut Bytes) -> Result<(), KeeperError>
        requires { IsIndexOf (Some self.old.records) index }
        ensures fetched { OnOk result (IsRecordAt (Some self.old.records) index into.new) }
        ensures refused { OnErr result (into.new ≡ []) }
        ensures held { self.new.records ≡ self.old.records }
        ensures cause { CountsFaults (has_failed result) self.old.tally.faults self.new.tally.faults }
        ensures failed { has_failed result ≡ is_some (kept_of_next self.old.fails self.old.tally) }
        ensures counted { self.new ≡ record self.old { tally = counted self.old.tally (has_failed result) } }
    {
        into.clear();
        self.call()?;
        into.extend_from_slice(self.records.record(index as usize).as_slice())?;
        Ok(())
    }

    fn append(&mut self, body: &[u8]) -> Result<(), KeeperError>
        ensures appended { OnOk result (Appends (Some self.old.records) (Some self.new.records) body.now) }
        ensures failed { result ≡ Err KeeperError.Failed
            → MayAppend (Some self.old.records) (Some self.new.records) body.now }
        ensures refused { result ≡ Err KeeperError.OutOfMemory → self.new.records ≡ self.old.records }
        ensures cause { CountsFaults (has_failed result) self.old.tally.faults self.new.tally.faults }
        ensures stores { Stores (kept_of_next self.old.fails self.old.tally)
            self.old.records self.new.records body.now result }
        ensures counted { self.new ≡ record self.old
            { records = self.new.records; tally = counted self.old.tally (has_failed result) } }
    {
        let listed = kept_at(&self.fails, self.tally.number_of_next());
        let answer = store(&mut self.records, listed, body);
        self.tally.count(answer == Err(KeeperError::Failed));
        answer
    }
}
