ghost use Rattle.std.specs.Prelude.{◌≡◌, ◌<◌, ◌≤◌, None, IfOk, length, OnErr, is_err, if◌then◌else◌};
ghost use Rattle.vx_io.specs.Fakes.{raised};
ghost use Rattle.vx_io.specs.Outside.{CountsFaults, TookFront, TookPiece};

use crate::answers::count_told;
use crate::outside::{Failed, Sink};
use crate::tally::count_fault;
use std::marker::Model;

/// Standard output. It tells nothing of what it took, and counts a fault at each error.
#[derive(Drop)]
pub struct StdSink<'r, R: Print> {
    rt: &'r R,
    faults: u64,
}

impl<'r, R: Print> Model for StdSink<'r, R> {
    ghost use Rattle.std.specs.Prelude.{ℕ};

    ghost Value = { ℕ };

    ghost view = { λ sink. sink.faults };
}

impl<'r, R: Print> StdSink<'r, R> {
    pub fn new(rt: &'r R) -> StdSink<'r, R>
        ensures { result ≡ 0 }
    {
        StdSink { rt, faults: 0 }
    }
}

impl<R: Print> Sink for StdSink<'_, R> {
    ghost taken = { λ _. None };

    ghost faults = { λ sink. sink };

    fn write(&mut self, piece: &[u8]) -> Result<usize, Failed>
        ensures within { IfOk result (λ count. (0 < count) × (count ≤ length piece.now)) }
        ensures took { IfOk result (TookPiece None None piece.now) }
        ensures refused { OnErr result (TookFront None None piece.now) }
        ensures cause { CountsFaults (is_err result) self.old self.new }
        ensures counted { self.new ≡ (if is_err result then raised self.old else self.old) }
    {
        let count = count_told(self.rt.write_some(piece));
        count_fault(&mut self.faults, count.is_err());
        count
    }
}
