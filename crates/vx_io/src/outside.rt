ghost use Rattle.std.specs.Prelude.{◌≡◌, ◌<◌, ◌≤◌, ◌∷◌, ℕ, List, [], Option, length, take, IfOk, OnOk, OnErr, is_err};
ghost use Rattle.vx_io.specs.Asking.{Asked, BytesFrom, Questions, SizeOf};
ghost use Rattle.vx_io.specs.Keeping.{has_failed};
ghost use Rattle.vx_io.specs.Outside.{Files, IsThere, CountsFaults, IsSameBehind, ReadsFrom, IsSizeOf, TookFront, TookPiece, IsCountOf, IsIndexOf, IsRecordAt, Appends, MayAppend};

use std::alloc::AllocError;
use vx_base::Bytes;

/// A device refused a call; its count of faults rose in that call.
#[derive(Clone, Copy, Debug, PartialEq, Eq)]
pub struct Failed;

/// Why a keeper refused a call.
#[derive(Clone, Copy, Debug, PartialEq, Eq)]
pub enum KeeperError {
    /// The device failed; its count of faults rose in the call.
    Failed,
    /// There was no memory for the answer.
    OutOfMemory,
}

impl From<Failed> for KeeperError {
    ghost use Rattle.std.specs.Prelude.{◌≡◌};
    ghost use Rattle.vx_io.specs.declared.outside.KeeperError.TheVariants as errors;

    ghost from_gives = { λ _ error. error ≡ errors.Failed };

    fn from(_failed: Failed) -> KeeperError {
        KeeperError::Failed
    }
}

impl From<AllocError> for KeeperError {
    ghost use Rattle.std.specs.Prelude.{◌≡◌};
    ghost use Rattle.vx_io.specs.declared.outside.KeeperError.TheVariants as errors;

    ghost from_gives = { λ _ error. error ≡ errors.OutOfMemory };

    fn from(_error: AllocError) -> KeeperError {
        KeeperError::OutOfMemory
    }
}

/// Named files that are read whole or in pieces.
pub trait Inputs {
    /// The bytes under each name, where they are told.
    ghost held: { Self → Option Files };
    /// How many faults there were so far; it stands still at its last value.
    ghost faults: { Self → ℕ };
    /// What they were asked so far, where that is told.
    ghost asked: { Self → Questions };

    /// How many bytes are held under the name; None where nothing has that name.
    fn size(&mut self, name: &str) -> Result<Option<u64>, Failed>
        ensures size { IfOk result (IsSizeOf (held self.old) name.now) }
        ensures held { held self.new ≡ held self.old }
        ensures asked { Asked (asked self.old) (asked self.new) (SizeOf name.now ∷ []) }
        ensures cause { CountsFaults (is_err result) (faults self.old) (faults self.new) };

    /// Reads bytes from offset `at` on into the front of `buf`, and answers how many: at least one.
    /// What lies behind them in `buf` is as before.
    fn read(&mut self, name: &str, at: u64, buf: &mut [u8]) -> Result<usize, Failed>
        requires room { 0 < length buf.old }
        requires there { IsThere (held self.old) name.now at }
        ensures within { IfOk result (λ count. (0 < count) × (count ≤ length buf.new)) }
        ensures read { IfOk result (λ count. ReadsFrom (held self.old) name.now at (take count buf.new)) }
        ensures behind { IfOk result (λ count. IsSameBehind count buf.old buf.new) }
        ensures held { held self.new ≡ held self.old }
        ensures asked { Asked (asked self.old) (asked self.new) (BytesFrom name.now at ∷ []) }
        ensures cause { CountsFaults (is_err result) (faults self.old) (faults self.new) };
}

/// What takes the bytes that are written.
pub trait Sink {
    /// The bytes taken so far, where they are told.
    ghost taken: { Self → Option (List ℕ) };
    /// How many faults there were so far; it stands still at its last value.
    ghost faults: { Self → ℕ };

    /// Takes a front of the piece and answers its length: at least one.
    fn write(&mut self, piece: &[u8]) -> Result<usize, Failed>
        requires some { 0 < length piece.now }
        ensures within { IfOk result (λ count. (0 < count) × (count ≤ length piece.now)) }
        ensures took { IfOk result (TookPiece (taken self.old) (taken self.new) piece.now) }
        ensures refused { OnErr result (TookFront (taken self.old) (taken self.new) piece.now) }
        ensures cause { CountsFaults (is_err result) (faults self.old) (faults self.new) };
}

/// What keeps the journal's records.
pub trait Keeper {
    /// The records, where they are told.
    ghost held: { Self → Option (List (List ℕ)) };
    /// How many faults there were so far; it stands still at its last value.
    ghost faults: { Self → ℕ };

    /// How many records there are.
    fn count(&mut self) -> Result<u64, KeeperError>
        ensures count { IfOk result (IsCountOf (held self.old)) }
        ensures held { held self.new ≡ held self.old }
        ensures cause { CountsFaults (has_failed result) (faults self.old) (faults self.new) };

    /// Sets `into` to a record. After a refusal `into` is empty.
    fn fetch(&mut self, index: u64, into: &mut Bytes) -> Result<(), KeeperError>
        requires { IsIndexOf (held self.old) index }
        ensures fetched { OnOk result (IsRecordAt (held self.old) index into.new) }
        ensures refused { OnErr result (into.new ≡ []) }
        ensures held { held self.new ≡ held self.old }
        ensures cause { CountsFaults (has_failed result) (faults self.old) (faults self.new) };

    /// Adds a record at the end. After `Failed` it may have been added; after want of memory
    /// nothing was.
    fn append(&mut self, body: &[u8]) -> Result<(), KeeperError>
        ensures appended { OnOk result (Appends (held self.old) (held self.new) body.now) }
        ensures failed { result ≡ Err KeeperError.Failed → MayAppend (held self.old) (held self.new) body.now }
        ensures refused { result ≡ Err KeeperError.OutOfMemory → held self.new ≡ held self.old }
        ensures cause { CountsFaults (has_failed result) (faults self.old) (faults self.new) };
}
