//! The pixels that a simulated scanner gets wrong, as they are drawn.

ghost use Rattle.std.specs.Prelude.{◌≡◌, ℕ, IfOk, OnOk};
ghost use Rattle.std.specs.List.{range_with_len};
ghost use Rattle.vx_simulate.specs.Draws.{draw_all, draw_places as places_of};
ghost use Rattle.vx_simulate.specs.Flips as flips;

use crate::drawing::draw_places;
use crate::lie::frame_height;
use rand_pcg::Pcg32;
use std::alloc::Global;
use vx_base::{ListOf, OutOfMemory};
use vx_grid::Paper;
use vx_layout::PagePlan;

/// Places by their offsets, column and row, from a corner.
pub(crate) type Places = ListOf<(u32, u32)>;

/// How many tiles of 46 by 22 pixels cover a row of the frame.
pub(crate) const TILE_COLUMNS: u32 = 40;

/// Lists of places, one for each zone or tile.
pub(crate) type PlacesList = ListOf<Places>;

/// What is drawn of a scan's flips.
#[derive(Drop)]
pub(crate) struct Flips {
    /// In the zone of each bubble of the page.
    pub(crate) at_bubbles: PlacesList,
    /// In the zone of each box of the page code.
    pub(crate) at_boxes: PlacesList,
    /// In each tile of the scan.
    pub(crate) in_tiles: PlacesList,
}

/// So many lists of `many` places each in a rectangle.
fn draw_lists(
    rng: &mut Pcg32,
    alloc: Global,
    lists: usize,
    many: u32,
    width: u32,
    height: u32,
) -> Result<Vec<Places>, OutOfMemory>
    ensures lists { IfOk result (λ drawn. drawn.items
        ≡ (draw_all (λ (n : ℕ). places_of many width height) (range_with_len 0 lists) rng.old).0) }
    ensures next { OnOk result (rng.new
        ≡ (draw_all (λ (n : ℕ). places_of many width height) (range_with_len 0 lists) rng.old).1) }
{
    let mut drawn = Vec::with_capacity(alloc, lists)?;
    for n in 0..lists {
        let places = draw_places(rng, alloc, many, width, height)?;
        drawn.push(ListOf::from_vec(places))?;
    }
    Ok(drawn)
}

/// 12 places in the zone of each bubble.
pub(crate) fn draw_at_bubbles(
    rng: &mut Pcg32,
    alloc: Global,
    plan: &PagePlan,
) -> Result<Vec<Places>, OutOfMemory>
    ensures lists { IfOk result (λ drawn. drawn.items ≡ (flips.draw_at_bubbles plan.now rng.old).0) }
    ensures next { OnOk result (rng.new ≡ (flips.draw_at_bubbles plan.now rng.old).1) }
{
    draw_lists(rng, alloc, plan.bubbles.len(), 12, 72, 50)
}

/// 40 places in the zone of each box of the page code.
pub(crate) fn draw_at_boxes(rng: &mut Pcg32, alloc: Global) -> Result<Vec<Places>, OutOfMemory>
    ensures lists { IfOk result (λ drawn. drawn.items ≡ (flips.draw_at_boxes rng.old).0) }
    ensures next { OnOk result (rng.new ≡ (flips.draw_at_boxes rng.old).1) }
{
    draw_lists(rng, alloc, 84, 40, 60, 44)
}

/// How many rows of tiles cover the frame.
pub(crate) fn tile_rows(paper: Paper) -> u32
    ensures { result ≡ flips.tile_rows paper }
{
    (frame_height(paper) + 21) / 22
}

/// 5 places in each tile, row by row.
pub(crate) fn draw_in_tiles(
    rng: &mut Pcg32,
    alloc: Global,
    paper: Paper,
) -> Result<Vec<Places>, OutOfMemory>
    ensures lists { IfOk result (λ drawn. drawn.items ≡ (flips.draw_in_tiles paper rng.old).0) }
    ensures next { OnOk result (rng.new ≡ (flips.draw_in_tiles paper rng.old).1) }
{
    let tiles = TILE_COLUMNS * tile_rows(paper);
    draw_lists(rng, alloc, tiles as usize, 5, 46, 22)
}

/// All flips are drawn: at bubbles, then at boxes of the page code, then in tiles.
pub(crate) fn draw_flips(
    rng: &mut Pcg32,
    alloc: Global,
    plan: &PagePlan,
) -> Result<Flips, OutOfMemory>
    ensures flips { IfOk result (λ drawn. drawn ≡ (flips.draw_flips plan.now rng.old).0) }
    ensures next { OnOk result (rng.new ≡ (flips.draw_flips plan.now rng.old).1) }
{
    let at_bubbles = draw_at_bubbles(rng, alloc, plan)?;
    let at_boxes = draw_at_boxes(rng, alloc)?;
    let in_tiles = draw_in_tiles(rng, alloc, plan.paper)?;
    Ok(Flips {
        at_bubbles: ListOf::from_vec(at_bubbles),
        at_boxes: ListOf::from_vec(at_boxes),
        in_tiles: ListOf::from_vec(in_tiles),
    })
}
