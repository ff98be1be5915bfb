ghost use Rattle.std.specs.Prelude.{◌≢◌, ◌∷◌, [], drop, is_ok, IfErr};
ghost use Rattle.std.specs.Option.{ForSome};
ghost use Rattle.vx_command.specs.Asking.{Asks};
ghost use Rattle.vx_command.specs.Devices.{TouchesInputsAndSink};
ghost use Rattle.vx_command_gray.specs.Done.{IsGrayDone, WritesFirst};
ghost use Rattle.vx_command_gray.specs.Outcome.{gray_outcome};
ghost use Rattle.vx_command_gray.specs.Status.{answer_of, ends_well, IsStop};

use crate::status::{GrayStatus, status_of_halt};
use crate::writing::write_scan;
use std::alloc::Global;
use std::mem::replace;
use vx_base::Bytes;
use vx_command::{Halt, INPUT_LIMIT, acts_in_order, asks_in_order, steps_in_order, take_input};
use vx_gray::PgmFault;
use vx_io::{Inputs, Sink, Words};

/// Takes the scan of a word under its name, into the memory of the one before, and writes its images.
/// Answers the fault that ended them, if any.
fn write_input<I: Inputs, S: Sink>(
    alloc: Global,
    memory: &mut Bytes,
    name: &str,
    word: u32,
    inputs: &mut I,
    out: &mut S,
) -> Result<Option<PgmFault>, Halt>
    ensures done { ForSome (I.held inputs.old) (λ files.
        WritesFirst files word name.now (S.taken out.old) (S.taken out.new) result) }
    ensures devices { TouchesInputsAndSink I.Inputs S.Sink inputs.old inputs.new out.old out.new result }
    ensures asked { Asks I.Inputs (name.now ∷ []) inputs.old inputs.new (is_ok result) }
    ensures stops { IfErr result IsStop }
{
    asks_in_order::<I>();
    steps_in_order::<Bytes>();
    let last = replace(memory, Bytes::new(alloc));
    let bytes = take_input(last, inputs, name, word, INPUT_LIMIT)?;
    let written = write_scan(alloc, word, bytes.as_slice(), out);
    *memory = bytes;
    written
}

/// Takes the scans that the words from 1 on name, one after the other, and writes their images as bitmaps.
pub(crate) fn write_scans<I: Inputs, S: Sink>(
    alloc: Global,
    words: &Words,
    inputs: &mut I,
    out: &mut S,
) -> GrayStatus
    ensures done { ForSome (I.held inputs.old) (λ files.
        IsGrayDone (gray_outcome (drop 1 words.now) files) (S.taken out.old) (S.taken out.new) result) }
    ensures devices { TouchesInputsAndSink I.Inputs S.Sink inputs.old inputs.new out.old out.new (answer_of result) }
    ensures asked { Asks I.Inputs (drop 1 words.now)
        inputs.old inputs.new (ends_well result) }
    ensures no_usage { result ≢ GrayStatus.Usage }
{
    asks_in_order::<I>();
    acts_in_order();
    let mut memory = Bytes::new(alloc);
    for word in 1..words.count() {
        match write_input(alloc, &mut memory, words.word(word), word, inputs, out) {
            Ok(None) => {}
            Ok(Some(fault)) => return GrayStatus::Pgm(word, fault),
            Err(cause) => return status_of_halt(cause),
        }
    }
    GrayStatus::Ok
}
