//! The pixels of a simulated scan that are flipped, as a page of the scan's size.

ghost use Rattle.std.specs.Prelude.{◌≡◌, ◌<◌, ◌≤◌, ◌*◌, ◌&&◌, ℕ, IfOk, All, length, pos, ◌+ℤ◌, int_le, int_lt};
ghost use Rattle.vx_plane.specs.Plane.{page_of, painted, in_any, rectangle};
ghost use Rattle.vx_plane.specs.Count.{outside_of};
ghost use Rattle.vx_grid.specs.Places.{IsWithin, IsPointWithin};
ghost use Rattle.vx_grid.specs.Regions.{frame_zone};
ghost use Rattle.vx_grid.specs.Sizes.{bubble as bubble_sides, code_box, zone_of};
ghost use Rattle.vx_layout.specs.Pages.{IsOnGrid};
ghost use Rattle.vx_layout.specs.Zones.{box_zone_at, code_zones};
ghost use Rattle.vx_code.specs.Code as page_code;
ghost use Rattle.vx_geom.specs.Slants.{slant_of};
ghost use Rattle.vx_geom.specs.Seen.{seen};
ghost use Rattle.vx_simulate.specs.Lie as lie;
ghost use Rattle.vx_simulate.specs.Lie.{IsShort};
ghost use Rattle.vx_simulate.specs.Flips as drawn_of;
ghost use Rattle.vx_simulate.specs.Flips.{AreDrawnIn, AreFlipsOf, places_from, places_round};
ghost use Rattle.vx_simulate.specs.Flipped.{only, shown_frame, within};

use crate::flips::{Flips, Places, TILE_COLUMNS, tile_rows};
use crate::lie::{FRAME_WIDTH, frame_height};
use std::alloc::Global;
use vx_base::OutOfMemory;
use vx_bits::BitPage;
use vx_code::place_of_box;
use vx_geom::Shear;
use vx_grid::{Paper, Point, first_code_row, last_row, x_of, y_of};
use vx_layout::{Bubble, PagePlan};

/// Whether a number is one of so many from another on.
fn is_from(low: i32, z: i32, many: i32) -> bool
    requires low { IsWithin 5000 low }
    requires many { IsWithin 5000 many }
    ensures { result ≡ (int_le low z && int_lt z (low +ℤ many)) }
{
    low <= z && z < low + many
}

/// Whether a place is in a rectangle: its left column, its top row, its sides.
fn is_inside(left: i32, top: i32, width: u32, height: u32, place: Point) -> bool
    requires left { IsWithin 5000 left }
    requires top { IsWithin 5000 top }
    requires width { width ≤ 5000 }
    requires height { height ≤ 5000 }
    ensures { result ≡ rectangle left top width height place.u place.v }
{
    is_from(left, place.u, width as i32) && is_from(top, place.v, height as i32)
}

/// Whether a place of the paper is in the frame zone: outside of the inner region.
fn is_in_frame_zone(paper: Paper, place: Point) -> bool
    ensures { result ≡ frame_zone paper place.u place.v }
{
    let top = y_of(paper, 0) + 130;
    let height = 52 * last_row(paper) - 260;
    !is_inside(178, top, 1344, height, place)
}

/// Whether a place of the paper is in the zone of a box of the page code.
fn is_in_box_zone(paper: Paper, n: u32, place: Point) -> bool
    requires { n < 84 }
    ensures { result ≡ box_zone_at paper (page_code.place_of_box paper n) place.u place.v }
{
    let (column, row) = place_of_box(paper, n);
    is_inside(x_of(column) - 30, y_of(paper, row) - 22, 60, 44, place)
}

/// Whether a place of the paper is in the zone of any box of the page code: one by one.
fn is_in_any_zone(paper: Paper, place: Point) -> bool
    ensures { result ≡ code_zones paper place.u place.v }
{
    for n in 0..84 {
        if is_in_box_zone(paper, n, place) {
            return true;
        }
    }
    false
}

/// Whether a place of the paper is in the zone of any box of the page code. Most places are outside of the
/// rectangle that holds all of them.
fn is_in_code_zone(paper: Paper, place: Point) -> bool
    ensures { result ≡ code_zones paper place.u place.v }
{
    let top = y_of(paper, first_code_row(paper)) - 22;
    if is_inside(172, top, 1356, 148, place) {
        is_in_any_zone(paper, place)
    } else {
        false
    }
}

/// Whether a scan shows the frame zone at a place, but no zone of the page code.
fn shows_frame(shear: Shear, paper: Paper, place: Point) -> bool
    requires shear { IsShort shear }
    requires place { IsPointWithin 10000 place }
    ensures { result ≡ shown_frame (slant_of shear) paper place.u place.v }
{
    let shown = shear.to_paper(place);
    if is_in_frame_zone(paper, shown) {
        !is_in_code_zone(paper, shown)
    } else {
        false
    }
}

/// Adds a place of the scan to the flips, if the scan has it.
fn flip(page: &mut BitPage, place: Point)
    ensures { page.new ≡ painted page.old (only place) }
{
    let width = page.width();
    let height = page.height();
    if is_inside(0, 0, width, height, place) {
        page.set_dark(place.u as u32, place.v as u32, true);
    }
}

/// Flips what the scan shows of a place of the paper.
fn flip_shown(page: &mut BitPage, shear: Shear, left: i32, top: i32, place: (u32, u32))
    requires shear { IsShort shear }
    requires left { IsWithin 5000 left }
    requires top { IsWithin 5000 top }
    requires near { (place.0 < 100) × (place.1 < 100) }
    ensures { page.new ≡ painted page.old (seen (slant_of shear) (only
        (record { u = left +ℤ pos place.0; v = top +ℤ pos place.1 }))) }
{
    let (column, row) = place;
    let at = Point {
        u: left + column as i32,
        v: top + row as i32,
    };
    flip(page, shear.to_scan(at));
}

/// Flips what the scan shows of places of the paper, by their offsets from a corner.
fn flip_places(page: &mut BitPage, shear: Shear, left: i32, top: i32, places: &[(u32, u32)])
    requires shear { IsShort shear }
    requires left { IsWithin 5000 left }
    requires top { IsWithin 5000 top }
    requires near { All (λ (at : ℕ × ℕ). (at.0 < 100) × (at.1 < 100)) places.now }
    ensures { page.new ≡ painted page.old (seen (slant_of shear) (places_from left top places.now)) }
{
    // For the proof alone: what this call's clause says of the page.
    let _columns = page.width();
    for place in places {
        flip_shown(page, shear, left, top, *place);
    }
}

/// A place by its offsets, column and row, from a corner.
fn offset_from(left: i32, top: i32, place: (u32, u32)) -> Point
    requires left { IsWithin 5000 left }
    requires top { IsWithin 5000 top }
    requires near { (place.0 < 100) × (place.1 < 100) }
    ensures place { result ≡ record { u = left +ℤ pos place.0; v = top +ℤ pos place.1 } }
    ensures within { IsPointWithin 10000 result }
{
    let (column, row) = place;
    Point {
        u: left + column as i32,
        v: top + row as i32,
    }
}

/// Flips what the scan shows of a place of the paper, if it isn't in the frame zone.
fn flip_inside(
    page: &mut BitPage,
    shear: Shear,
    paper: Paper,
    left: i32,
    top: i32,
    place: (u32, u32),
)
    requires shear { IsShort shear }
    requires left { IsWithin 5000 left }
    requires top { IsWithin 5000 top }
    requires near { (place.0 < 100) × (place.1 < 100) }
    ensures { page.new ≡ painted page.old (seen (slant_of shear) (within
        (only (record { u = left +ℤ pos place.0; v = top +ℤ pos place.1 })) (outside_of (frame_zone paper)))) }
{
    // For the proof alone: what this call's clause says of the page.
    let _columns = page.width();
    let at = offset_from(left, top, place);
    if is_in_frame_zone(paper, at) {
        return;
    }
    flip(page, shear.to_scan(at));
}

/// Flips what the scan shows of places of the paper, by their offsets from a corner, so far as they
/// aren't in the frame zone.
fn flip_inside_places(
    page: &mut BitPage,
    shear: Shear,
    paper: Paper,
    left: i32,
    top: i32,
    places: &[(u32, u32)],
)
    requires shear { IsShort shear }
    requires left { IsWithin 5000 left }
    requires top { IsWithin 5000 top }
    requires near { All (λ (at : ℕ × ℕ). (at.0 < 100) × (at.1 < 100)) places.now }
    ensures { page.new ≡ painted page.old (seen (slant_of shear) (within
        (places_from left top places.now) (outside_of (frame_zone paper)))) }
{
    // For the proof alone: what this call's clause says of the page.
    let _columns = page.width();
    for place in places {
        flip_inside(page, shear, paper, left, top, *place);
    }
}

/// Flips a place of the scan, by its offset from a corner, if the scan shows the frame zone there, but
/// no zone of the page code.
fn flip_framed(
    page: &mut BitPage,
    shear: Shear,
    paper: Paper,
    left: u32,
    top: u32,
    place: (u32, u32),
)
    requires shear { IsShort shear }
    requires left { left < 5000 }
    requires top { top < 5000 }
    requires near { (place.0 < 100) × (place.1 < 100) }
    ensures { page.new ≡ painted page.old (within
        (only (record { u = pos left +ℤ pos place.0; v = pos top +ℤ pos place.1 }))
        (shown_frame (slant_of shear) paper)) }
{
    // For the proof alone: what this call's clause says of the page.
    let _columns = page.width();
    let (column, row) = place;
    let at = Point {
        u: (left + column) as i32,
        v: (top + row) as i32,
    };
    if shows_frame(shear, paper, at) {
        flip(page, at);
    }
}

/// Flips places of the scan, by their offsets from a corner, so far as the scan shows the frame zone
/// there, but no zone of the page code.
fn flip_framed_places(
    page: &mut BitPage,
    shear: Shear,
    paper: Paper,
    left: u32,
    top: u32,
    places: &[(u32, u32)],
)
    requires shear { IsShort shear }
    requires left { left < 5000 }
    requires top { top < 5000 }
    requires near { All (λ (at : ℕ × ℕ). (at.0 < 100) × (at.1 < 100)) places.now }
    ensures { page.new ≡ painted page.old (within
        (places_from (pos left) (pos top) places.now) (shown_frame (slant_of shear) paper)) }
{
    // For the proof alone: what this call's clause says of the page.
    let _columns = page.width();
    for place in places {
        flip_framed(page, shear, paper, left, top, *place);
    }
}

/// Flips what the scan shows of places in the zone of a bubble.
fn flip_at_bubble(
    page: &mut BitPage,
    shear: Shear,
    paper: Paper,
    bubble: Bubble,
    places: &[(u32, u32)],
)
    requires shear { IsShort shear }
    requires grid { IsOnGrid paper bubble }
    requires near { All (λ (at : ℕ × ℕ). (at.0 < 72) × (at.1 < 50)) places.now }
    ensures { page.new ≡ painted page.old (seen (slant_of shear)
        (places_round paper (zone_of bubble_sides) bubble.col bubble.row places.now)) }
{
    flip_places(
        page,
        shear,
        x_of(bubble.col) - 36,
        y_of(paper, bubble.row) - 25,
        places,
    );
}

/// Flips what the scan shows of places in the zones of bubbles, to each its own.
fn flip_at_bubbles(page: &mut BitPage, shear: Shear, plan: &PagePlan, drawn: &[Places])
    requires shear { IsShort shear }
    requires grid { All (IsOnGrid plan.now.paper) plan.now.bubbles }
    requires drawn { AreDrawnIn (length plan.now.bubbles) 72 50 drawn.now }
    ensures { page.new ≡ painted page.old (seen (slant_of shear)
        (in_any (length plan.now.bubbles) (drawn_of.bubble_places plan.now drawn.now))) }
{
    // For the proof alone: what this call's clause says of the page.
    let _columns = page.width();
    let bubbles = plan.bubbles.as_slice();
    for n in 0..bubbles.len() {
        flip_at_bubble(page, shear, plan.paper, bubbles[n], drawn[n].as_slice());
    }
}

/// Flips what the scan shows of places in the zone of box `n` of the page code, so far as they aren't in
/// the frame zone.
fn flip_at_box(page: &mut BitPage, shear: Shear, paper: Paper, n: u32, places: &[(u32, u32)])
    requires shear { IsShort shear }
    requires box_number { n < 84 }
    requires near { All (λ (at : ℕ × ℕ). (at.0 < 60) × (at.1 < 44)) places.now }
    ensures { page.new ≡ painted page.old (seen (slant_of shear) (within
        (places_round paper (zone_of code_box) (page_code.place_of_box paper n).0
        (page_code.place_of_box paper n).1 places.now) (outside_of (frame_zone paper)))) }
{
    let (column, row) = place_of_box(paper, n);
    flip_inside_places(
        page,
        shear,
        paper,
        x_of(column) - 30,
        y_of(paper, row) - 22,
        places,
    );
}

/// Flips what the scan shows of places in the zones of the boxes of the page code, to each its own.
fn flip_at_boxes(page: &mut BitPage, shear: Shear, paper: Paper, drawn: &[Places])
    requires shear { IsShort shear }
    requires drawn { AreDrawnIn 84 60 44 drawn.now }
    ensures { page.new ≡ painted page.old (seen (slant_of shear)
        (in_any 84 (drawn_of.box_places paper drawn.now))) }
{
    // For the proof alone: what this call's clause says of the page.
    let _columns = page.width();
    for n in 0..84 {
        flip_at_box(page, shear, paper, n, drawn[n as usize].as_slice());
    }
}

/// Flips places in the tiles of the scan, so far as it shows the frame zone there, but no zone of the page
/// code.
fn flip_in_tiles(page: &mut BitPage, shear: Shear, paper: Paper, drawn: &[Places])
    requires shear { IsShort shear }
    requires drawn { AreDrawnIn (drawn_of.tile_columns * drawn_of.tile_rows paper) 46 22 drawn.now }
    ensures { page.new ≡ painted page.old (within
        (in_any (drawn_of.tile_columns * drawn_of.tile_rows paper) (drawn_of.tile_places drawn.now))
        (shown_frame (slant_of shear) paper)) }
{
    // For the proof alone: what this call's clause says of the page.
    let _columns = page.width();
    for n in 0..TILE_COLUMNS * tile_rows(paper) {
        let left = 46 * (n % TILE_COLUMNS);
        let top = 22 * (n / TILE_COLUMNS);
        flip_framed_places(page, shear, paper, left, top, drawn[n as usize].as_slice());
    }
}

/// The flips of a scan, as the dark pixels of a page of its size: what it shows of the places that were
/// drawn on the paper, and those that were drawn in its tiles.
pub(crate) fn flipped(
    alloc: Global,
    plan: &PagePlan,
    shear: Shear,
    flips: &Flips,
) -> Result<BitPage, OutOfMemory>
    requires shear { IsShort shear }
    requires grid { All (IsOnGrid plan.now.paper) plan.now.bubbles }
    requires drawn { AreFlipsOf plan.now flips.now }
    ensures { IfOk result (λ page. page ≡ page_of lie.frame_width (lie.frame_height plan.now.paper)
        (drawn_of.drawn_flips (slant_of shear) plan.now flips.now)) }
{
    let mut page = BitPage::new(alloc, FRAME_WIDTH, frame_height(plan.paper))?;
    flip_at_bubbles(&mut page, shear, plan, flips.at_bubbles.as_slice());
    flip_at_boxes(&mut page, shear, plan.paper, flips.at_boxes.as_slice());
    flip_in_tiles(&mut page, shear, plan.paper, flips.in_tiles.as_slice());
    Ok(page)
}
