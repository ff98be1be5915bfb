ghost use Rattle.std.specs.Prelude.{◌≡◌, ◌≤◌, true, false};
ghost use Rattle.vx_base.specs.Refusals.{Gives};
ghost use Rattle.vx_election_model.specs.Valid.{IsValid};
ghost use Rattle.vx_layout.specs.Plans.{ArePlansOf};
ghost use Rattle.vx_readings.specs.Readings.{LinesFit};
ghost use Rattle.vx_readings.specs.declared.said.SaidPage.TheVariants as said_page;
ghost use Rattle.vx_command.specs.Devices.{TouchesSink, writes_nothing};
ghost use Rattle.vx_command.specs.Steps.{is_no_memory};
ghost use Rattle.vx_command_check.specs.Answers as answers;
ghost use Rattle.vx_command_check.specs.Walks.{ChecksPage};

use crate::lines::{certified_line, no_reading_line};
use crate::names::check_names;
use std::alloc::Global;
use std::mem::replace;
use vx_base::Bytes;
use vx_bits::BitView;
use vx_check::check;
use vx_command::{Halt, acts_in_order, steps_in_order, write_text};
use vx_count::{Counter, CounterMemory};
use vx_election_model::Election;
use vx_io::Sink;
use vx_layout::CardPlans;
use vx_pbm::Image;
use vx_readings::{SaidPage, SaidReading};
use vx_refusals::{CertFault, CheckFault};

/// Whether a page's reading is accepted, or why not.
fn reading_halt(number: u32, tested: Result<(), CheckFault>) -> Result<(), Halt>
    ensures { result ≡ answers.reading_halt number tested }
{
    match tested {
        Ok(()) => Ok(()),
        Err(fault) => Err(Halt::NotCertified(CertFault::Page(number, fault))),
    }
}

/// Whether a said reading is a certificate of the page, and its lines name the bubbles of the page that it
/// says. `memory` is that of the last counter, and gets this one's.
fn check_reading(
    alloc: Global,
    memory: &mut CounterMemory,
    election: &Election,
    plans: &CardPlans,
    number: u32,
    image: &BitView<'_>,
    said: &SaidReading,
) -> Result<(), Halt>
    requires election { IsValid election.now }
    requires plans { ArePlansOf election.now plans.now }
    requires width { image.now.width ≤ 4096 }
    requires height { image.now.height ≤ 4096 }
    requires lines { LinesFit (said_page.Reading said.now) }
    ensures { Gives is_no_memory result (answers.reading_checked election.now number image.now said.now) }
{
    let last = replace(memory, CounterMemory::new(alloc));
    let mut counter = Counter::reusing(last, image)?;
    let tested = check(election, plans, &mut counter, &said.reading);
    *memory = counter.into_memory();
    reading_halt(number, tested)?;
    check_names(election, plans, said)
}

/// The line of a page with what the readings say of it, or why `check` halts there.
fn page_line(
    alloc: Global,
    memory: &mut CounterMemory,
    election: &Election,
    plans: &CardPlans,
    number: u32,
    image: &BitView<'_>,
    said: &SaidPage,
) -> Result<Bytes, Halt>
    requires election { IsValid election.now }
    requires plans { ArePlansOf election.now plans.now }
    requires width { image.now.width ≤ 4096 }
    requires height { image.now.height ≤ 4096 }
    requires lines { LinesFit said.now }
    ensures { Gives is_no_memory result (answers.page_answer election.now number image.now said.now) }
{
    match said {
        SaidPage::NoReading => no_reading_line(alloc, number),
        SaidPage::Reading(said) => {
            check_reading(alloc, memory, election, plans, number, image, said)?;
            certified_line(alloc, number)
        }
    }
}

/// Tests what the readings say of a page and writes its line.
pub(crate) fn check_page<S: Sink>(
    alloc: Global,
    memory: &mut CounterMemory,
    election: &Election,
    plans: &CardPlans,
    number: u32,
    image: Image<'_>,
    said: SaidPage,
    out: &mut S,
) -> Result<(), Halt>
    requires election { IsValid election.now }
    requires plans { ArePlansOf election.now plans.now }
    requires width { image.width ≤ 4096 }
    requires height { image.height ≤ 4096 }
    requires lines { LinesFit said }
    ensures checks { ChecksPage election.now number image.entry said
        (S.taken out.old) (S.taken out.new) result }
    ensures sink { TouchesSink S.Sink out.old out.new result }
    ensures late { writes_nothing true result ≡ false }
{
    acts_in_order();
    steps_in_order::<Bytes>();
    let line = page_line(alloc, memory, election, plans, number, &image.view(), &said)?;
    write_text(out, line.as_slice())
}
