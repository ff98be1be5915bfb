ghost use Rattle.std.specs.Prelude.{◌≡◌, ◌<◌, ◌≤◌, ◌-◌, ◌++◌, ◌||◌, ◌==◌, [], Some, length, take, min, IfOk, OnErr, is_err};
ghost use Rattle.vx_io.specs.Fakes.{HeldSink, counted, is_listed, no_calls};
ghost use Rattle.vx_io.specs.Outside.{CountsFaults, TookFront, TookPiece};

use crate::lists::{Calls, is_among};
use crate::outside::{Failed, Sink};
use crate::tally::Tally;
use std::alloc::{AllocError, Global};
use std::marker::Model;
use vx_base::Bytes;

/// A sink in memory with room for so many bytes, whose listed calls fail.
#[derive(Drop)]
pub struct MemSink {
    bytes: Vec<u8>,
    room: usize,
    fails: Calls,
    tally: Tally,
}

impl Model for MemSink {
    ghost use Rattle.std.specs.Prelude.{◌≤◌, length, vec_capacity};
    ghost use Rattle.vx_io.specs.Fakes.{HeldSink};

    ghost Value = { HeldSink };

    ghost view = { λ sink.
        record { taken = sink.bytes.items; room = sink.room; fails = sink.fails; tally = sink.tally } };

    ghost invariant = { λ sink. (length sink.bytes.items ≤ sink.room) × (sink.room ≤ vec_capacity sink.bytes) };
}

impl MemSink {
    /// Takes the memory for `room` bytes.
    pub fn new(alloc: Global, room: u64, fails: Calls) -> Result<Self, AllocError>
        ensures { IfOk result (λ sink. sink ≡ record { taken = []; room = room; fails = fails; tally = no_calls }) }
    {
        let room = room as usize;
        Ok(MemSink {
            bytes: Vec::with_capacity(alloc, room)?,
            room,
            fails,
            tally: Tally::new(),
        })
    }

    /// The bytes taken so far.
    pub fn held(&self) -> &[u8]
        ensures { result.now ≡ self.now.taken }
    {
        self.bytes.as_slice()
    }

    /// How many bytes more there is room for.
    fn left(&self) -> usize
        ensures { result ≡ self.now.room - length self.now.taken }
    {
        self.room - self.bytes.len()
    }
}

impl Sink for MemSink {
    ghost taken = { λ sink. Some sink.taken };

    ghost faults = { λ sink. sink.tally.faults };

    fn write(&mut self, piece: &[u8]) -> Result<usize, Failed>
        requires some { 0 < length piece.now }
        ensures within { IfOk result (λ count. (0 < count) × (count ≤ length piece.now)) }
        ensures took { IfOk result (TookPiece (Some self.old.taken) (Some self.new.taken) piece.now) }
        ensures refused { OnErr result (TookFront (Some self.old.taken) (Some self.new.taken) piece.now) }
        ensures cause { CountsFaults (is_err result) self.old.tally.faults self.new.tally.faults }
        ensures failed { is_err result
            ≡ (is_listed self.old.fails self.old.tally || length self.old.taken == self.old.room) }
        ensures count { IfOk result (λ count.
            count ≡ min (length piece.now) (self.old.room - length self.old.taken)) }
        ensures nothing { OnErr result (self.new.taken ≡ self.old.taken) }
        ensures counted { self.new ≡ record self.old
            { taken = self.new.taken; tally = counted self.old.tally (is_err result) } }
    {
        let left = self.left();
        let failed = is_among(&self.fails, self.tally.number_of_next()) || left == 0;
        self.tally.count(failed);
        if failed {
            return Err(Failed);
        }
        let count = left.min(piece.len());
        self.bytes.extend_from_slice(&piece[..count]).unwrap();
        Ok(count)
    }
}
