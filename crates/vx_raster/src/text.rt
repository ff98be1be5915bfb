ghost use Rattle.std.specs.Prelude.{◌≡◌, ◌<◌, ◌^◌};
ghost use Rattle.vx_plane.specs.Plane.{painted, any_of, in_any};
ghost use Rattle.vx_layout.specs.Print.{glyph_pixels, line_pixels};
ghost use Rattle.vx_raster.specs.Dots.{bit_pixels, IsFirstRun};

use crate::stamp::{Patch, stamp};
use vx_bits::BitPage;
use vx_font::dots;
use vx_layout::TextLine;

/// The first run of dark dots of a column, bit 0 at the top: how many light dots stand before it,
/// and how many dots it has.
fn first_run(bits: u32) -> (u32, u32)
    requires some { 0 < bits }
    requires seven { bits < 2 ^ 7 }
    ensures { IsFirstRun bits result.0 result.1 }
{
    let light = bits.trailing_zeros();
    let dark = (bits >> light).trailing_ones();
    (light, dark)
}

/// Paints the dots of a glyph's column, 2 by 2 pixels each, run after run from the top.
fn paint_column(page: &mut BitPage, x: u64, y: u64, bits: u8)
    requires x { x < 2 ^ 34 }
    requires y { y < 2 ^ 34 }
    requires seven { bits < 2 ^ 7 }
    ensures { page.new ≡ painted page.old (in_any 7 (bit_pixels bits x y)) }
{
    // For the proof alone: what this call's clause says of the page.
    let _columns = page.width();
    let mut rest = u32::from(bits);
    let mut top = 0;
    while rest != 0 {
        let (light, dark) = first_run(rest);
        let run = [Patch {
            left: 0,
            top: 0,
            width: 2,
            height: 2 * dark,
        }];
        stamp(page, x, y + 2 * u64::from(top + light), &run);
        top += light + dark;
        rest >>= light + dark;
    }
}

/// Paints the glyph of a character in the cell at a place.
fn paint_glyph(page: &mut BitPage, c: char, x: u64, y: u64)
    requires x { x < 2 ^ 33 }
    requires y { y < 2 ^ 33 }
    ensures { page.new ≡ painted page.old (glyph_pixels c x y) }
{
    // For the proof alone: what this call's clause says of the page.
    let _columns = page.width();
    let columns = dots(c);
    for column in 0..5 {
        paint_column(page, x + 2 * column, y, columns[column as usize]);
    }
}

/// Paints a line, as far as it begins left of the page's right edge.
fn paint_line(page: &mut BitPage, line: &TextLine)
    ensures { page.new ≡ painted page.old (line_pixels line.now) }
{
    let right = u64::from(page.width());
    let top = u64::from(line.y);
    let mut x = u64::from(line.x);
    for c in line.text.as_str().chars() {
        if x >= right {
            return;
        }
        paint_glyph(page, c, x, top);
        x += 12;
    }
}

/// Paints lines.
pub(crate) fn paint_texts(page: &mut BitPage, texts: &[TextLine])
    ensures { page.new ≡ painted page.old (any_of texts.now line_pixels) }
{
    // For the proof alone: what this call's clause says of the page.
    let _columns = page.width();
    for line in texts {
        paint_line(page, line);
    }
}
