ghost use Rattle.std.specs.Prelude.{◌≡◌, ◌↔◌, [], true, ℕ, List, Some, drop};
ghost use Rattle.vx_io.specs.Outside.{Files};
ghost use Rattle.vx_command.specs.Asking.{Asks};
ghost use Rattle.vx_command.specs.Devices.{TouchesInputsAndSink};
ghost use Rattle.vx_command_gray.specs.Bitmaps.{WritesBitmaps};
ghost use Rattle.vx_command_gray.specs.Done.{IsGrayDone};
ghost use Rattle.vx_command_gray.specs.Outcome.{gray_outcome};
ghost use Rattle.vx_command_gray.specs.Status.{answer_of, ends_well};
ghost use Rattle.vx_command_gray.specs.Words.{NoGray, SpellsGray};

use crate::laws::bitmaps_are_written;
use crate::reading::is_gray;
use crate::scans::write_scans;
use crate::status::GrayStatus;
use std::alloc::Global;
use vx_command::asks_in_order;
use vx_io::{Inputs, Sink, Words};

/// Does the `gray` that the words spell.
fn gray_words<I: Inputs, S: Sink>(
    alloc: Global,
    words: &Words,
    inputs: &mut I,
    out: &mut S,
) -> GrayStatus
    ensures usage { (result ≡ GrayStatus.Usage) ↔ NoGray words.now }
    ensures done { (files : Files) → I.held inputs.old ≡ Some files →
        (scans : List (List ℕ)) → SpellsGray words.now scans →
        IsGrayDone (gray_outcome scans files) (S.taken out.old) (S.taken out.new) result }
    ensures usage_writes_nothing { result ≡ GrayStatus.Usage → S.taken out.new ≡ S.taken out.old }
    ensures devices { TouchesInputsAndSink I.Inputs S.Sink inputs.old inputs.new out.old out.new (answer_of result) }
    ensures asked { Asks I.Inputs (drop 1 words.now) inputs.old inputs.new (ends_well result) }
    ensures usage_asks_nothing { result ≡ GrayStatus.Usage → Asks I.Inputs [] inputs.old inputs.new true }
{
    asks_in_order::<I>();
    if !is_gray(words) {
        return GrayStatus::Usage;
    }
    write_scans(alloc, words, inputs, out)
}

/// Does the command `gray`, whole: reads its words, takes the scans in their order, and writes the images of
/// each as bitmaps, each before the next is read.
///
/// Where the inputs tell what they hold, the acts of the outcome are done in order: all of them, and the
/// status is the outcome's; or up to one at which a device failed, with that device's fault as the status, or
/// before which memory ran out. A device's count of faults rises where the status is its fault, and stands
/// still otherwise. What is written is read back as the bits of the images, and each image that fits a
/// printed page with some marks fits it there with those marks, so what `read` writes of it is that page.
pub fn run_gray<I: Inputs, S: Sink>(
    alloc: Global,
    words: &Words,
    inputs: &mut I,
    out: &mut S,
) -> GrayStatus
    ensures usage { (result ≡ GrayStatus.Usage) ↔ NoGray words.now }
    ensures done { (files : Files) → I.held inputs.old ≡ Some files →
        (scans : List (List ℕ)) → SpellsGray words.now scans →
        IsGrayDone (gray_outcome scans files) (S.taken out.old) (S.taken out.new) result }
    ensures usage_writes_nothing { result ≡ GrayStatus.Usage → S.taken out.new ≡ S.taken out.old }
    ensures devices { TouchesInputsAndSink I.Inputs S.Sink inputs.old inputs.new out.old out.new (answer_of result) }
    ensures asked { Asks I.Inputs (drop 1 words.now) inputs.old inputs.new (ends_well result) }
    ensures usage_asks_nothing { result ≡ GrayStatus.Usage → Asks I.Inputs [] inputs.old inputs.new true }
    // Each image that fits a printed page with some marks is written as a bitmap that fits it with those marks.
    ensures margin { (files : Files) → I.held inputs.old ≡ Some files →
        (scans : List (List ℕ)) → SpellsGray words.now scans →
        WritesBitmaps scans files (S.taken out.old) (S.taken out.new) result }
{
    bitmaps_are_written();
    gray_words(alloc, words, inputs, out)
}
