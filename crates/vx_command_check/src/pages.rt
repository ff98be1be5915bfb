ghost use Rattle.std.specs.Prelude.{◌≡◌, ◌≤◌, true, false, None, length};
ghost use Rattle.vx_election_model.specs.Valid.{IsValid};
ghost use Rattle.vx_layout.specs.Plans.{ArePlansOf};
ghost use Rattle.vx_pbm.specs.Images.{images_of};
ghost use Rattle.vx_readings.specs.Readings.{readings_left};
ghost use Rattle.vx_command.specs.Devices.{TouchesSink, writes_nothing};
ghost use Rattle.vx_command.specs.Done.{IsWritten};
ghost use Rattle.vx_command_check.specs.Outcome.{readings_outcome, readings_for, pages_halt};
ghost use Rattle.vx_command_check.specs.Walks.{RestAnswers};

use crate::page::check_page;
use crate::walking::{count_pages, halt_of_readings, next_image};
use std::alloc::Global;
use vx_code::tag_of;
use vx_command::{Halt, acts_in_order};
use vx_count::CounterMemory;
use vx_election_model::Election;
use vx_io::Sink;
use vx_layout::CardPlans;
use vx_pbm::PbmReader;
use vx_readings::ReadingsReader;
use vx_refusals::CertFault;

/// Why a command halts whose readings have so many pages and whose scans have so many.
fn halt_of_pages(said: u32, held: u32) -> Halt
    ensures { result ≡ pages_halt said held }
{
    Halt::NotCertified(CertFault::Pages(said, held))
}

/// Whether the readings end where the scans ended, which have so many images.
fn check_rest(said: &mut ReadingsReader<'_>, held: u32) -> Result<(), Halt>
    requires { said.old.pages ≡ held }
    ensures { RestAnswers held (readings_left said.old) result }
{
    let pages = count_pages(said)?;
    if pages == held {
        Ok(())
    } else {
        Err(halt_of_pages(pages, held))
    }
}

/// Tests page after page of scans, which have so many images, against what a text of readings says.
pub(crate) fn check_pages<S: Sink>(
    alloc: Global,
    election: &Election,
    plans: &CardPlans,
    scans: &[u8],
    held: u32,
    text: &[u8],
    out: &mut S,
) -> Result<(), Halt>
    requires election { IsValid election.now }
    requires plans { ArePlansOf election.now plans.now }
    requires walked { (images_of scans.now).fault ≡ None }
    requires held { held ≡ length (images_of scans.now).pages }
    requires short { length text.now ≤ 67108864 }
    ensures done { IsWritten
        (readings_outcome election.now 0 (images_of scans.now).pages (readings_for election.now text.now))
        (S.taken out.old) (S.taken out.new) result }
    ensures sink { TouchesSink S.Sink out.old out.new result }
    ensures late { writes_nothing true result ≡ false }
{
    acts_in_order();
    let mut images = PbmReader::new(alloc, scans);
    let mut said = ReadingsReader::new(alloc, election.paper, tag_of(&election.digest), text);
    let mut memory = CounterMemory::new(alloc);
    'pages: loop {
        let image = match next_image(&mut images)? {
            None => return check_rest(&mut said, held),
            Some(image) => image,
        };
        match said.next() {
            Err(fault) => return Err(halt_of_readings(fault)),
            Ok(None) => return Err(halt_of_pages(said.pages(), held)),
            Ok(Some(page)) => {
                let number = said.pages();
                check_page(
                    alloc,
                    &mut memory,
                    election,
                    plans,
                    number,
                    image,
                    page,
                    out,
                )?;
            }
        }
    }
}
