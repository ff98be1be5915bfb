//! An image that was read: its page, upright, with its bubbles.

ghost use Rattle.std.specs.Prelude.{◌≡◌, ◌<◌, ◌≤◌, pos, All, find, ◌==◌};
ghost use Rattle.vx_plane.specs.Plane.{dark_at};
ghost use Rattle.vx_count.specs.Turned.{shown_page, turned_page};
ghost use Rattle.vx_scan_model.specs.Reading.{reading_of};
ghost use Rattle.vx_election_model.specs.Valid.{IsValid};
ghost use Rattle.vx_layout.specs.Plans.{ArePlansOf};
ghost use Rattle.vx_sheet.specs.Sheet.{has_bubble};
ghost use Rattle.vx_desk.specs.Shown as spec;

use std::marker::Model;
use vx_bits::BitView;
use vx_election_model::Election;
use vx_grid::{Border, State};
use vx_layout::{Bubble, CardPlans};
use vx_scan_model::{PageReading, find_plan, named_pages_stand_on_the_grid};

/// An image that was read. Contracts see the upright page, the reading and the page's bubbles.
#[derive(Drop)]
pub(crate) struct Image<'a> {
    scan: &'a BitView<'a>,
    reading: &'a PageReading,
    bubbles: &'a [Bubble],
}

impl<'a> Model for Image<'a> {
    ghost use Rattle.vx_count.specs.Turned.{shown_page};
    ghost use Rattle.vx_desk.specs.Shown.{CanBeShown, Shown};

    ghost Value = { Shown };

    ghost view = { λ a. record {
      page = shown_page a.reading.now.turned a.scan.now;
      reading = a.reading.now;
      bubbles = a.bubbles.now;
    } };

    ghost invariant = { λ a. CanBeShown a.scan.now a.bubbles.now };
}

/// Whether a pixel of the turned page is dark.
#[tactic(auto, using(crate::proofs::Turned::turned_dark))]
fn turned_dark(scan: &BitView<'_>, x: u32, y: u32) -> bool
    requires column { x < scan.now.width }
    requires row { y < scan.now.height }
    requires columns { scan.now.width ≤ 4096 }
    requires rows { scan.now.height ≤ 4096 }
    ensures { result ≡ dark_at (turned_page scan.now) (pos x) (pos y) }
{
    let u = scan.width() - 1 - x;
    let v = scan.height() - 1 - y;
    scan.dark(u as i32, v as i32)
}

/// Whether a pixel of the page is dark that a scan shows, turned or not.
fn shown_dark(scan: &BitView<'_>, turned: bool, x: u32, y: u32) -> bool
    requires column { x < scan.now.width }
    requires row { y < scan.now.height }
    requires columns { scan.now.width ≤ 4096 }
    requires rows { scan.now.height ≤ 4096 }
    ensures { result ≡ dark_at (shown_page turned scan.now) (pos x) (pos y) }
{
    if turned {
        turned_dark(scan, x, y)
    } else {
        scan.dark(x as i32, y as i32)
    }
}

/// The bubbles of the page that a code names.
fn bubbles_of<'p>(election: &Election, plans: &'p CardPlans, reading: &PageReading) -> &'p [Bubble]
    requires valid { IsValid election.now }
    requires plans { ArePlansOf election.now plans.now }
    ensures value { result.now ≡ spec.bubbles_named election.now reading.now }
    ensures on_grid { All spec.HasItsPlace result.now }
{
    named_pages_stand_on_the_grid();
    match find_plan(election, plans, reading.code) {
        Ok(plan) => plan.bubbles.as_slice(),
        Err(_) => &[],
    }
}

impl<'a> Image<'a> {
    /// What an image shows that was read so.
    pub(crate) fn new(
        election: &Election,
        plans: &'a CardPlans,
        scan: &'a BitView<'a>,
        reading: &'a PageReading,
    ) -> Image<'a>
        requires valid { IsValid election.now }
        requires plans { ArePlansOf election.now plans.now }
        requires read { reading_of election.now scan.now ≡ Ok reading.now }
        ensures { result ≡ spec.shown_by election.now scan.now reading.now }
    {
        Image {
            scan,
            reading,
            bubbles: bubbles_of(election, plans, reading),
        }
    }

    /// The number of columns.
    pub(crate) fn width(&self) -> u32
        ensures value { result ≡ self.now.page.width }
        ensures bound { (0 < result) × (result ≤ 4096) }
    {
        self.scan.width()
    }

    /// The number of rows.
    pub(crate) fn height(&self) -> u32
        ensures value { result ≡ self.now.page.height }
        ensures bound { (0 < result) × (result ≤ 4096) }
    {
        self.scan.height()
    }

    /// Whether a pixel of the upright page is dark.
    pub(crate) fn dark(&self, x: u32, y: u32) -> bool
        requires column { x < self.now.page.width }
        requires row { y < self.now.page.height }
        ensures { result ≡ dark_at self.now.page (pos x) (pos y) }
    {
        shown_dark(self.scan, self.reading.turned, x, y)
    }

    /// The number of the page on its card.
    pub(crate) fn page(&self) -> u32
        ensures { result ≡ self.now.reading.code.page }
    {
        self.reading.code.page
    }

    /// The places of the page's timing marks.
    pub(crate) fn border(&self) -> &'a Border
        ensures { result.now ≡ self.now.reading.border }
    {
        &self.reading.border
    }

    /// The page's bubbles, in the plan's order.
    pub(crate) fn bubbles(&self) -> &'a [Bubble]
        ensures value { result.now ≡ self.now.bubbles }
        ensures on_grid { All spec.HasItsPlace result.now }
    {
        self.bubbles
    }

    /// The score of the bubble with a place in the plan's order.
    pub(crate) fn score_at(&self, k: usize) -> u32
        ensures { result ≡ spec.score_at self.now k }
    {
        match self.reading.scores.as_slice().get(k) {
            Some(score) => *score,
            None => 0,
        }
    }

    /// What the bubble with a place in the plan's order was read as.
    pub(crate) fn state_at(&self, k: usize) -> State
        ensures { result ≡ spec.state_at self.now k }
    {
        match self.reading.states.as_slice().get(k) {
            Some(state) => *state,
            None => State::Clear,
        }
    }

    /// Whether a contest has a bubble on the page.
    pub(crate) fn has(&self, contest: u32) -> bool
        ensures { result ≡ has_bubble contest self.now.bubbles }
    {
        self.bubbles.iter().any(|bubble| bubble.contest == contest)
    }

    /// The bubble of a contest's first option, and one that stands for nothing where there is none.
    #[tactic(auto, using(crate::proofs::Steps::find_here, crate::proofs::Steps::find_later, crate::proofs::Steps::find_none))]
    pub(crate) fn first_bubble(&self, contest: u32) -> Bubble
        ensures value { result ≡ spec.first_bubble contest self.now.bubbles }
        ensures on_grid { spec.HasItsPlace result }
    {
        for bubble in self.bubbles {
            if bubble.contest == contest {
                return *bubble;
            }
        }
        Bubble {
            contest: 0,
            option: 0,
            col: 0,
            row: 0,
        }
    }
}

/// The image on which a contest stands.
pub(crate) fn image_with<'i>(
    contest: u32,
    first: &'i Image<'i>,
    second: &'i Image<'i>,
) -> &'i Image<'i>
    ensures { result.now ≡ spec.image_with contest first.now second.now }
{
    if first.has(contest) { first } else { second }
}
