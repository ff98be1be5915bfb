ghost use Rattle.std.specs.Prelude.{◌≡◌, ◌≤◌, ◌<◌, ◌+◌, ◌^◌, false, length, Bool, IfOk};
ghost use Rattle.vx_election_model.specs.Valid.{IsValid};
ghost use Rattle.vx_layout.specs.Plans.{ArePlansOf};
ghost use Rattle.vx_pbm.specs.Images.{images_of};
ghost use Rattle.vx_command.specs.Acts.{writing};
ghost use Rattle.vx_command.specs.Devices.{TouchesSink, writes_nothing};
ghost use Rattle.vx_command.specs.Done.{IsWritten};
ghost use Rattle.vx_readings.specs.ReadingText.{image_text as image_text_of};
ghost use Rattle.vx_command_read.specs.Scans.{ReadsScan};

use crate::reading_text::image_text;
use std::alloc::Global;
use vx_base::Bytes;
use vx_command::{Halt, acts_in_order, halt_of_bitmap, steps_in_order, write_text};
use vx_count::CounterMemory;
use vx_election_model::Election;
use vx_io::Sink;
use vx_layout::CardPlans;
use vx_pbm::{Image, PbmReader};

/// Reads the image with a number and writes what it is read as, or its fault.
fn read_image<S: Sink>(
    alloc: Global,
    memory: &mut CounterMemory,
    election: &Election,
    plans: &CardPlans,
    number: u64,
    image: Image<'_>,
    out: &mut S,
) -> Result<(), Halt>
    requires election { IsValid election.now }
    requires plans { ArePlansOf election.now plans.now }
    ensures done { IsWritten (writing (image_text_of election.now number image.entry))
        (S.taken out.old) (S.taken out.new) result }
    ensures sink { TouchesSink S.Sink out.old out.new result }
    ensures late { (first : Bool) → writes_nothing first result ≡ false }
{
    steps_in_order::<Bytes>();
    let text = image_text(alloc, memory, election, plans, number, &image.view())?;
    write_text(out, text.as_slice())
}

/// Reads the images of the scan of a word, the first of which has the number `first`, and writes the
/// text of each. Answers the number after the last one's. `memory` is that of the last counter, and
/// gets that of the last image's.
pub fn read_scan<S: Sink>(
    alloc: Global,
    memory: &mut CounterMemory,
    election: &Election,
    plans: &CardPlans,
    word: u32,
    first: u64,
    bytes: &[u8],
    out: &mut S,
) -> Result<u64, Halt>
    requires election { IsValid election.now }
    requires plans { ArePlansOf election.now plans.now }
    requires room { first + length bytes.now < 2 ^ 64 }
    ensures read { ReadsScan election.now word first (images_of bytes.now)
        (S.taken out.old) (S.taken out.new) result }
    // An image takes a byte at least.
    ensures bound { IfOk result (λ next. next ≤ first + length bytes.now) }
    ensures sink { TouchesSink S.Sink out.old out.new result }
    ensures late { (first : Bool) → writes_nothing first result ≡ false }
{
    acts_in_order();
    let mut reader = PbmReader::new(alloc, bytes);
    let mut number = first;
    'images: loop {
        match reader.next() {
            Err(fault) => return Err(halt_of_bitmap(word, fault)),
            Ok(None) => return Ok(number),
            Ok(Some(image)) => {
                read_image(alloc, memory, election, plans, number, image, out)?;
                number += 1;
            }
        }
    }
}
