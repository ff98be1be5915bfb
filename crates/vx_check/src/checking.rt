ghost use Rattle.std.specs.Prelude.{◌≡◌, ◌<◌, ◌↔◌, All, IsOk, OnOk, length};
ghost use Rattle.vx_grid.specs.Places.{AreWithin};
ghost use Rattle.vx_election_model.specs.Valid.{IsValid};
ghost use Rattle.vx_layout.specs.Plans.{ArePlansOf};
ghost use Rattle.vx_scan_model.specs.Named.{StandsOnPaper};
ghost use Rattle.vx_scan_model.specs.Reading as reading_of_a_page;
ghost use Rattle.vx_scan_model.specs.Certificate.{CertifiesUpright, Certifies, SaysWhatFits};
ghost use Rattle.vx_check.specs.Tests as tests;

use crate::border::{check_border, check_paper};
use crate::bubbles::{check_scores, check_states};
use crate::code::{check_code, check_plan};
use crate::passing::passes;
use vx_code::codes_are_given_back;
use vx_count::{Counter, turned_twice_is_as_before};
use vx_election_model::Election;
use vx_grid::{Paper, Thresholds};
use vx_layout::{CardPlans, PagePlan};
use vx_mark_model::accepted_places_are_framed;
use vx_refusals::CheckFault;
use vx_scan_model::{
    PageReading, allowed_heights, certificates_say_what_fits, codes_name_printed_pages,
    named_pages_stand_on_the_grid, places_are_tested,
};

/// Whether a scan has a number of columns and of rows that is read on this paper.
fn is_allowed(paper: Paper, counter: &Counter) -> bool
    ensures { result ≡ reading_of_a_page.is_allowed paper counter.now }
{
    let (width, height) = (counter.width(), counter.height());
    let (least, most) = allowed_heights(paper);
    (1600..=2000).contains(&width) && (least..=most).contains(&height)
}

/// Whether the frame is allowed.
fn check_frame(paper: Paper, counter: &Counter) -> Result<(), CheckFault>
    ensures { result ≡ tests.frame_tested paper counter.now }
{
    let (width, height) = (counter.width(), counter.height());
    passes(
        is_allowed(paper, counter),
        CheckFault::FrameSize(width, height),
    )
}

/// Whether the said scores and states are those of the page's bubbles.
fn check_bubbles(
    counter: &Counter,
    thresholds: Thresholds,
    plan: &PagePlan,
    reading: &PageReading,
) -> Result<(), CheckFault>
    requires within { AreWithin 9000 reading.now.border.places }
    requires stands { StandsOnPaper reading.now.border.paper plan.now }
    ensures { result ≡ tests.bubbles_tested thresholds counter.now reading.now plan.now }
{
    let bubbles = plan.bubbles.as_slice();
    let scores = reading.scores.as_slice();
    check_scores(counter, &reading.border, bubbles, scores)?;
    check_states(
        thresholds,
        bubbles.len() as u32,
        scores,
        reading.states.as_slice(),
    )
}

/// Makes the tests on a page as it lies.
fn check_upright(
    election: &Election,
    plans: &CardPlans,
    counter: &Counter,
    reading: &PageReading,
) -> Result<(), CheckFault>
    requires election { IsValid election.now }
    requires plans { ArePlansOf election.now plans.now }
    ensures exact { result ≡ tests.upright_tested election.now counter.now reading.now }
    ensures certified { IsOk result ↔ CertifiesUpright election.now counter.now reading.now }
{
    accepted_places_are_framed();
    codes_are_given_back();
    codes_name_printed_pages();
    named_pages_stand_on_the_grid();
    places_are_tested();
    check_frame(election.paper, counter)?;
    check_paper(election.paper, reading.border.paper())?;
    check_border(counter, &reading.border)?;
    check_code(counter, &reading.border, &reading.code)?;
    let plan = check_plan(election, plans, reading.code)?;
    check_bubbles(counter, election.thresholds, plan, reading)
}

/// Checks a reading of a counter's page, whoever made it, for an election whose cards are planned so. A
/// reading of the turned page is checked on the turned page. Takes no memory.
///
/// The first test that fails is the answer, in this order: the frame (`FrameSize`), the paper of the said
/// border (`PaperAt`), its first place (`CornerAt`), each mark's place (`MarkAt`) and step (`StepAt`), that
/// it closes (`StepAt` with the number of marks), the said code (`CodeAt`), the said scores (`ScoreAt`) and
/// the said states (`StateAt`).
pub fn check(
    election: &Election,
    plans: &CardPlans,
    counter: &mut Counter,
    reading: &PageReading,
) -> Result<(), CheckFault>
    requires election { IsValid election.now }
    requires plans { ArePlansOf election.now plans.now }
    // The first test that fails, with its numbers.
    ensures exact { result ≡ tests.tested election.now counter.old reading.now }
    // Exactly certificates are accepted.
    ensures certified { IsOk result ↔ Certifies election.now counter.old reading.now }
    // The counter's page is as before.
    ensures kept { counter.new ≡ counter.old }
    // What is accepted says each printed page that the scan fits, as it lies or turned, and its marks.
    ensures margin { OnOk result (SaysWhatFits election.now counter.old reading.now) }
{
    turned_twice_is_as_before();
    certificates_say_what_fits();
    counter.is_a_whole_page();
    let over = reading.turned;
    if !over {
        return check_upright(election, plans, counter, reading);
    }
    counter.turn();
    let answer = check_upright(election, plans, counter, reading);
    counter.turn();
    answer
}
