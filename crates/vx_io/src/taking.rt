ghost use Rattle.std.specs.Prelude.{◌≡◌, ℕ, Some, length, IfSome, IfOk, OnOk, is_err};
ghost use Rattle.vx_io.specs.Asking.{AsksFor, AsksPieces};
ghost use Rattle.vx_io.specs.Outside.{CountsFaults, IsSizeOf, ReadsFrom};
ghost use Rattle.vx_io.specs.Take.{Takes, IsWithin, take_failed};

use crate::outside::{Failed, Inputs};
use std::alloc::{AllocError, Global};
use vx_base::Bytes;

/// Why an input wasn't taken.
#[derive(Clone, Copy, Debug, PartialEq, Eq)]
pub enum TakeFault {
    /// The inputs failed; their count of faults rose in the call.
    Failed,
    /// Nothing has the name.
    NoInput,
    /// The input has this many bytes, which is above the limit.
    TooLong(u64),
    /// There was no memory for the bytes.
    OutOfMemory,
}

impl From<Failed> for TakeFault {
    ghost use Rattle.std.specs.Prelude.{◌≡◌};
    ghost use Rattle.vx_io.specs.declared.taking.TakeFault.TheVariants as faults;

    ghost from_gives = { λ _ fault. fault ≡ faults.Failed };

    fn from(_failed: Failed) -> TakeFault {
        TakeFault::Failed
    }
}

impl From<AllocError> for TakeFault {
    ghost use Rattle.std.specs.Prelude.{◌≡◌};
    ghost use Rattle.vx_io.specs.declared.taking.TakeFault.TheVariants as faults;

    ghost from_gives = { λ _ fault. fault ≡ faults.OutOfMemory };

    fn from(_error: AllocError) -> TakeFault {
        TakeFault::OutOfMemory
    }
}

/// Reads the bytes under the name into a buffer of their number, in the largest pieces.
fn read_whole<I: Inputs>(inputs: &mut I, name: &str, buffer: &mut [u8]) -> Result<(), Failed>
    requires sized { IsSizeOf (I.held inputs.old) name.now (Some (length buffer.old)) }
    ensures read { OnOk result (ReadsFrom (I.held inputs.old) name.now 0 buffer.new) }
    ensures held { I.held inputs.new ≡ I.held inputs.old }
    ensures asked { (to : ℕ) × AsksPieces name.now to (I.asked inputs.old) (I.asked inputs.new) }
    ensures cause { CountsFaults (is_err result) (I.faults inputs.old) (I.faults inputs.new) }
{
    let mut at = 0;
    while at < buffer.len() {
        let count = inputs.read(name, at as u64, &mut buffer[at..])?;
        at += count;
    }
    Ok(())
}

/// Bytes of a length, in the memory of `old`, whatever is in it.
fn resized(old: Bytes, len: usize) -> Result<Vec<u8>, AllocError>
    ensures { IfOk result (λ buffer. length buffer.items ≡ len) }
{
    let mut buffer = old.into_vec();
    buffer.resize(len, 0)?;
    Ok(buffer)
}

/// Takes the bytes under the name, where there are at most `limit` of them. It asks for their
/// number, makes one buffer of that length and reads into it in the largest pieces.
pub fn take<I: Inputs>(
    alloc: Global,
    inputs: &mut I,
    name: &str,
    limit: u64,
) -> Result<Bytes, TakeFault>
    ensures told { IfSome (I.held inputs.old) (λ files. Takes (files name.now) limit result) }
    ensures within { IsWithin limit result }
    ensures held { I.held inputs.new ≡ I.held inputs.old }
    ensures asked { AsksFor name.now (I.asked inputs.old) (I.asked inputs.new) }
    ensures cause { CountsFaults (take_failed result) (I.faults inputs.old) (I.faults inputs.new) }
{
    take_reusing(Bytes::new(alloc), inputs, name, limit)
}

/// The same into the memory of `old`, whatever is in it; takes memory only where it isn't enough.
pub fn take_reusing<I: Inputs>(
    old: Bytes,
    inputs: &mut I,
    name: &str,
    limit: u64,
) -> Result<Bytes, TakeFault>
    ensures told { IfSome (I.held inputs.old) (λ files. Takes (files name.now) limit result) }
    ensures within { IsWithin limit result }
    ensures held { I.held inputs.new ≡ I.held inputs.old }
    ensures asked { AsksFor name.now (I.asked inputs.old) (I.asked inputs.new) }
    ensures cause { CountsFaults (take_failed result) (I.faults inputs.old) (I.faults inputs.new) }
{
    let Some(size) = inputs.size(name)? else {
        return Err(TakeFault::NoInput);
    };
    if size > limit {
        return Err(TakeFault::TooLong(size));
    }
    let mut buffer = resized(old, size as usize)?;
    read_whole(inputs, name, buffer.as_mut_slice())?;
    Ok(Bytes::from_vec(buffer))
}
