ghost use Rattle.std.specs.Prelude.{◌≡◌, ◌<◌, ◌≤◌, None, Some, length, take, min, IfOk, is_err};
ghost use Rattle.vx_io.specs.Fakes.{HeldInputs, counted, files_of, is_listed, no_calls};
ghost use Rattle.vx_io.specs.Outside.{CountsFaults, IsSameBehind, IsSizeOf, IsThere, ReadsFrom};

use crate::lists::{Calls, NamedBytes, is_among};
use crate::outside::{Failed, Inputs};
use crate::tally::Tally;
use std::marker::Model;

/// Files in memory, whose listed calls fail.
#[derive(Drop)]
pub struct MemInputs {
    files: NamedBytes,
    fails: Calls,
    tally: Tally,
}

impl Model for MemInputs {
    ghost use Rattle.vx_io.specs.Fakes.{HeldInputs};

    ghost Value = { HeldInputs };

    ghost view = { λ inputs. record { files = inputs.files; fails = inputs.fails; tally = inputs.tally } };
}

/// Copies the front of a slice into the front of another, and answers how many bytes.
fn copy_front(from: &[u8], to: &mut [u8]) -> usize
    ensures count { result ≡ min (length from.now) (length to.old) }
    ensures copied { take result to.new ≡ take result from.now }
    ensures behind { IsSameBehind result to.old to.new }
{
    let count = from.len().min(to.len());
    to[..count].copy_from_slice(&from[..count]);
    count
}

impl MemInputs {
    /// Holds the files; takes no memory.
    pub fn new(files: NamedBytes, fails: Calls) -> Self
        ensures { result ≡ record { files = files; fails = fails; tally = no_calls } }
    {
        MemInputs {
            files,
            fails,
            tally: Tally::new(),
        }
    }

    /// Counts a call, and a fault where it is listed.
    fn call(&mut self) -> Result<(), Failed>
        ensures cause { CountsFaults (is_err result) self.old.tally.faults self.new.tally.faults }
        ensures failed { is_err result ≡ is_listed self.old.fails self.old.tally }
        ensures counted { self.new ≡ record self.old { tally = counted self.old.tally (is_err result) } }
    {
        let failed = is_among(&self.fails, self.tally.number_of_next());
        self.tally.count(failed);
        if failed { Err(Failed) } else { Ok(()) }
    }
}

impl Inputs for MemInputs {
    ghost held = { λ inputs. Some (files_of inputs.files) };

    ghost faults = { λ inputs. inputs.tally.faults };

    ghost asked = { λ _. None };

    fn size(&mut self, name: &str) -> Result<Option<u64>, Failed>
        ensures size { IfOk result (IsSizeOf (Some (files_of self.old.files)) name.now) }
        ensures held { files_of self.new.files ≡ files_of self.old.files }
        ensures cause { CountsFaults (is_err result) self.old.tally.faults self.new.tally.faults }
        ensures failed { is_err result ≡ is_listed self.old.fails self.old.tally }
        ensures counted { self.new ≡ record self.old { tally = counted self.old.tally (is_err result) } }
    {
        self.call()?;
        match self.files.find(name) {
            Some(bytes) => Ok(Some(bytes.len() as u64)),
            None => Ok(None),
        }
    }

    fn read(&mut self, name: &str, at: u64, buf: &mut [u8]) -> Result<usize, Failed>
        requires room { 0 < length buf.old }
        requires there { IsThere (Some (files_of self.old.files)) name.now at }
        ensures within { IfOk result (λ count. (0 < count) × (count ≤ length buf.new)) }
        ensures read { IfOk result (λ count.
            ReadsFrom (Some (files_of self.old.files)) name.now at (take count buf.new)) }
        ensures behind { IfOk result (λ count. IsSameBehind count buf.old buf.new) }
        ensures held { files_of self.new.files ≡ files_of self.old.files }
        ensures cause { CountsFaults (is_err result) self.old.tally.faults self.new.tally.faults }
        ensures failed { is_err result ≡ is_listed self.old.fails self.old.tally }
        ensures counted { self.new ≡ record self.old { tally = counted self.old.tally (is_err result) } }
    {
        self.call()?;
        Ok(copy_front(self.files.rest(name, at), buf))
    }
}
