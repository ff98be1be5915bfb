ghost use Rattle.std.specs.Prelude.{◌≡◌, ◌++◌, Ok, OnOk, string_bytes};
ghost use Rattle.vx_base.specs.Refusals.{Gives};
ghost use Rattle.vx_election_model.specs.Valid.{IsValid};
ghost use Rattle.vx_layout.specs.Plans.{ArePlansOf};
ghost use Rattle.vx_command.specs.Steps.{is_no_memory};
ghost use Rattle.vx_readings.specs.ReadingText.{image_text as image_text_of};

use std::alloc::Global;
use vx_base::{Bytes, OutOfMemory};
use vx_bits::BitView;
use vx_command::Halt;
use vx_count::CounterMemory;
use vx_election_model::Election;
use vx_layout::CardPlans;
use vx_page::read_planned;
use vx_readings::{push_block, push_fault};

/// Adds what `read` writes of an image.
fn push_image(
    alloc: Global,
    memory: &mut CounterMemory,
    text: &mut String,
    election: &Election,
    plans: &CardPlans,
    number: u64,
    page: &BitView<'_>,
) -> Result<(), OutOfMemory>
    requires election { IsValid election.now }
    requires plans { ArePlansOf election.now plans.now }
    ensures { OnOk result (string_bytes text.new
        ≡ string_bytes text.old ++ image_text_of election.now number page.now) }
{
    match read_planned(alloc, memory, election, plans, page) {
        Ok((reading, plan)) => push_block(text, number, plan.bubbles.as_slice(), &reading),
        Err(fault) => push_fault(text, number, fault),
    }
}

/// What `read` writes of the image with a number, counted from 1: the block of its reading, or the
/// line of its fault. `memory` is that of the last counter, and gets this image's.
pub fn image_text(
    alloc: Global,
    memory: &mut CounterMemory,
    election: &Election,
    plans: &CardPlans,
    number: u64,
    page: &BitView<'_>,
) -> Result<Bytes, Halt>
    requires election { IsValid election.now }
    requires plans { ArePlansOf election.now plans.now }
    ensures { Gives is_no_memory result (Ok (image_text_of election.now number page.now)) }
{
    let mut text = String::new(alloc);
    push_image(alloc, memory, &mut text, election, plans, number, page)?;
    Ok(Bytes::from_vec(text.into_bytes()))
}
