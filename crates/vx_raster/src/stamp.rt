ghost use Rattle.std.specs.Prelude.{◌≡◌, ◌<◌, ◌^◌};
ghost use Rattle.vx_plane.specs.Plane.{painted, any_of};
ghost use Rattle.vx_raster.specs.Shape.{patch_pixels};

use vx_bits::BitPage;

/// A rectangle of a shape, in pixels from the shape's left top corner.
#[derive(Clone, Copy)]
pub(crate) struct Patch {
    pub left: u32,
    pub top: u32,
    pub width: u32,
    pub height: u32,
}

/// Paints a shape with its left top corner at a place, so far as it lies on the page.
pub(crate) fn stamp(page: &mut BitPage, x: u64, y: u64, shape: &[Patch])
    requires x { x < 2 ^ 40 }
    requires y { y < 2 ^ 40 }
    ensures { page.new ≡ painted page.old (any_of shape.now (patch_pixels x y)) }
{
    // `width` says that a page is what its dark places make: the loop begins with that.
    let _columns = page.width();
    for patch in shape {
        let Patch {
            left,
            top,
            width,
            height,
        } = *patch;
        page.darken(x + u64::from(left), y + u64::from(top), width, height);
    }
}
