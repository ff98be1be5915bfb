ghost use Rattle.std.specs.Prelude.{◌≡◌, ◌<◌, ◌≤◌, ◌+◌, ◌^◌};
ghost use Rattle.vx_plane.specs.Plane.{painted};
ghost use Rattle.vx_grid.specs.Sizes.{round};

use vx_bits::BitPage;
use vx_grid::HalfSides;

/// Paints all pixels of a size round a place, so far as they lie on the page.
pub(crate) fn paint_round(page: &mut BitPage, half: HalfSides, x: u64, y: u64)
    requires across { (half.across ≤ x) × (half.across + half.across < 2 ^ 32) }
    requires down { (half.down ≤ y) × (half.down + half.down < 2 ^ 32) }
    ensures { page.new ≡ painted page.old (round half x y) }
{
    let left = x - u64::from(half.across);
    let top = y - u64::from(half.down);
    page.darken(left, top, half.across + half.across, half.down + half.down);
}
