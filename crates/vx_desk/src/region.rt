//! The part of a page round a contest's block.

ghost use Rattle.std.specs.Prelude.{◌≡◌, ◌<◌, ◌≤◌, ◌^◌, fold};
ghost use Rattle.vx_election_model.specs.Options.{options_of};
ghost use Rattle.vx_layout.specs.Blocks as blocks;
ghost use Rattle.vx_layout.specs.Lines as text_lines;
ghost use Rattle.vx_fit.specs.Fit.{place_of};
ghost use Rattle.vx_grid.specs.Places.{IsWithin, point_of};
ghost use Rattle.vx_desk.specs.Regions as spec;
ghost use Rattle.vx_desk.specs.Shown.{HasItsPlace};

use crate::image::Image;
use crate::place::{place_u, place_v};
use vx_election_model::Contest;
use vx_grid::Border;
use vx_json::characters_of;
use vx_layout::Bubble;

/// How far a picture reaches beside its block on each side: half a row of the grid, in pixels.
const MARGIN: i64 = 25;

/// How many characters a row of a block has.
const ROW: usize = 58;

/// A block by its outer grid columns and rows.
#[derive(Clone, Copy)]
pub(crate) struct Block {
    pub(crate) left: u32,
    pub(crate) right: u32,
    pub(crate) top: u64,
    pub(crate) bottom: u64,
}

/// A rectangle of pixels of a page: its first and last column and row.
#[derive(Clone, Copy)]
pub(crate) struct Region {
    pub(crate) left: u32,
    pub(crate) right: u32,
    pub(crate) top: u32,
    pub(crate) bottom: u32,
}

impl Region {
    /// How many columns it has.
    pub(crate) fn width(self) -> u32
        requires { self.right < 4096 }
        ensures value { result ≡ spec.width_of self }
        ensures bound { result ≤ 4096 }
    {
        self.right.saturating_sub(self.left) + 1
    }

    /// How many rows it has.
    pub(crate) fn height(self) -> u32
        requires { self.bottom < 4096 }
        ensures value { result ≡ spec.height_of self }
        ensures bound { result ≤ 4096 }
    {
        self.bottom.saturating_sub(self.top) + 1
    }
}

/// How many rows of a block a text takes.
fn rows_of(text: &str) -> u64
    ensures value { result ≡ text_lines.rows_of text.now }
    ensures bound { result ≤ 2 ^ 59 }
{
    let count = characters_of(text);
    (count / ROW + (count % ROW + 57) / ROW) as u64
}

/// What a contest asks beside its title: only a yes/no contest asks anything.
fn description_of(contest: &Contest) -> &str
    ensures { result.now ≡ blocks.description_of contest.now }
{
    if contest.is_yes_no {
        contest.description.as_str()
    } else {
        ""
    }
}

/// The rows of a block above those of its options.
fn heading_rows(contest: &Contest) -> u64
    ensures { result ≡ blocks.heading_rows contest.now }
{
    rows_of(contest.title.as_str()) + rows_of(description_of(contest)) + 1
}

/// The block of a contest whose first option has this bubble.
fn block_of(contest: &Contest, bubble: Bubble) -> Block
    requires options { options_of contest.now < 2 ^ 32 }
    requires place { HasItsPlace bubble }
    ensures value { result ≡ spec.block_of contest.now bubble }
    ensures columns { (result.left ≤ 33) × (result.right ≤ 33) }
    ensures rows { (result.top < 2 ^ 40) × (result.bottom < 2 ^ 40) }
{
    let row = u64::from(bubble.row);
    let options = u64::from(contest.options());
    Block {
        left: bubble.col.saturating_sub(1),
        right: bubble.col + 8,
        top: row.saturating_sub(heading_rows(contest)),
        bottom: (row + options).saturating_sub(1),
    }
}

/// The column or row of a frame that is nearest to a whole number.
fn nearest(size: u32, at: i64) -> u32
    requires { 0 < size }
    ensures value { result ≡ spec.nearest size at }
    ensures bound { result < size }
{
    if at < 0 {
        return 0;
    }
    (at as u64).min(u64::from(size) - 1) as u32
}

/// The margin before a column or row of a frame.
fn before_one(size: u32, at: i64) -> u32
    requires size { 0 < size }
    requires at { IsWithin 2147483648 at }
    ensures value { result ≡ spec.before_one size at }
    ensures bound { result < size }
{
    nearest(size, at - MARGIN)
}

/// The margin past it.
fn past_one(size: u32, at: i64) -> u32
    requires size { 0 < size }
    requires at { IsWithin 2147483648 at }
    ensures value { result ≡ spec.past_one size at }
    ensures bound { result < size }
{
    nearest(size, at + MARGIN)
}

/// Where a picture begins on a frame: the margin before the lesser of two corners.
fn first_of(size: u32, a: i64, b: i64) -> u32
    requires size { 0 < size }
    requires a { IsWithin 2147483648 a }
    requires b { IsWithin 2147483648 b }
    ensures value { result ≡ spec.before size a b }
    ensures bound { result < size }
{
    let least = if b < a { b } else { a };
    nearest(size, least - MARGIN)
}

/// Where a picture ends on a frame: the margin past the greater of two corners.
fn last_of(size: u32, a: i64, b: i64) -> u32
    requires size { 0 < size }
    requires a { IsWithin 2147483648 a }
    requires b { IsWithin 2147483648 b }
    ensures value { result ≡ spec.past size a b }
    ensures bound { result < size }
{
    let greatest = if b < a { a } else { b };
    nearest(size, greatest + MARGIN)
}

/// The first column of the picture of a block.
fn left_of(border: &Border, block: Block, width: u32) -> u32
    requires columns { block.left ≤ 33 }
    requires rows { (block.top < 2 ^ 40) × (block.bottom < 2 ^ 40) }
    requires width { 0 < width }
    ensures value { result ≡ spec.before width (place_of border.now block.left block.top).u
        (place_of border.now block.left block.bottom).u }
    ensures bound { result < width }
{
    let upper = place_u(border, block.left, block.top);
    let lower = place_u(border, block.left, block.bottom);
    first_of(width, upper, lower)
}

/// The last column of the picture of a block.
fn right_of(border: &Border, block: Block, width: u32) -> u32
    requires columns { block.right ≤ 33 }
    requires rows { (block.top < 2 ^ 40) × (block.bottom < 2 ^ 40) }
    requires width { 0 < width }
    ensures value { result ≡ spec.past width (place_of border.now block.right block.top).u
        (place_of border.now block.right block.bottom).u }
    ensures bound { result < width }
{
    let upper = place_u(border, block.right, block.top);
    let lower = place_u(border, block.right, block.bottom);
    last_of(width, upper, lower)
}

/// The first row of the picture of a block.
fn top_of(border: &Border, block: Block, height: u32) -> u32
    requires columns { (block.left ≤ 33) × (block.right ≤ 33) }
    requires rows { block.top < 2 ^ 40 }
    requires height { 0 < height }
    ensures value { result ≡ spec.before height (place_of border.now block.left block.top).v
        (place_of border.now block.right block.top).v }
    ensures bound { result < height }
{
    let left = place_v(border, block.left, block.top);
    let right = place_v(border, block.right, block.top);
    first_of(height, left, right)
}

/// The last row of the picture of a block.
fn bottom_of(border: &Border, block: Block, height: u32) -> u32
    requires columns { (block.left ≤ 33) × (block.right ≤ 33) }
    requires rows { block.bottom < 2 ^ 40 }
    requires height { 0 < height }
    ensures value { result ≡ spec.past height (place_of border.now block.left block.bottom).v
        (place_of border.now block.right block.bottom).v }
    ensures bound { result < height }
{
    let left = place_v(border, block.left, block.bottom);
    let right = place_v(border, block.right, block.bottom);
    last_of(height, left, right)
}

/// The rectangle round the four corners of a block, with the margin on each side, cut at the frame.
fn region_of(image: &Image<'_>, block: Block) -> Region
    requires columns { (block.left ≤ 33) × (block.right ≤ 33) }
    requires rows { (block.top < 2 ^ 40) × (block.bottom < 2 ^ 40) }
    ensures value { result ≡ spec.region_of image.now.page image.now.reading.border block }
    ensures inside { spec.IsInside image.now.page result }
{
    let border = image.border();
    let (width, height) = (image.width(), image.height());
    Region {
        left: left_of(border, block, width),
        right: right_of(border, block, width),
        top: top_of(border, block, height),
        bottom: bottom_of(border, block, height),
    }
}

/// The region round the block of a contest, on the page that shows it.
fn region_block(image: &Image<'_>, contest: &Contest, number: u32) -> Region
    requires { options_of contest.now < 2 ^ 32 }
    ensures value { result ≡ spec.region_block contest.now number image.now }
    ensures inside { spec.IsInside image.now.page result }
{
    region_of(image, block_of(contest, image.first_bubble(number)))
}

/// A region that holds a place too, with the margin on each side.
fn with_place(image: &Image<'_>, region: Region, u: i64, v: i64) -> Region
    requires u { IsWithin 2147483648 u }
    requires v { IsWithin 2147483648 v }
    requires inside { spec.IsInside image.now.page region }
    ensures value { result ≡ spec.with_place image.now.page region (point_of u v) }
    ensures inside { spec.IsInside image.now.page result }
{
    let (width, height) = (image.width(), image.height());
    Region {
        left: region.left.min(before_one(width, u)),
        right: region.right.max(past_one(width, u)),
        top: region.top.min(before_one(height, v)),
        bottom: region.bottom.max(past_one(height, v)),
    }
}

/// A region that holds the middle of a bubble too.
fn with_middle(image: &Image<'_>, region: Region, bubble: Bubble) -> Region
    requires place { HasItsPlace bubble }
    requires inside { spec.IsInside image.now.page region }
    ensures value { result ≡ spec.with_place image.now.page region (spec.middle_of image.now bubble) }
    ensures inside { spec.IsInside image.now.page result }
{
    let row = u64::from(bubble.row);
    let u = place_u(image.border(), bubble.col, row);
    let v = place_v(image.border(), bubble.col, row);
    with_place(image, region, u, v)
}

/// The same, if the bubble is of the contest with a number.
fn with_bubble(image: &Image<'_>, number: u32, region: Region, bubble: Bubble) -> Region
    requires place { HasItsPlace bubble }
    requires inside { spec.IsInside image.now.page region }
    ensures value { result ≡ spec.with_bubble number image.now region bubble }
    ensures inside { spec.IsInside image.now.page result }
{
    if bubble.contest == number {
        with_middle(image, region, bubble)
    } else {
        region
    }
}

/// A region that holds the middle of each bubble of a contest too.
#[tactic(auto, using(crate::proofs::Steps::fold_later, crate::proofs::Steps::fold_none))]
fn with_bubbles(image: &Image<'_>, number: u32, block: Region) -> Region
    requires { spec.IsInside image.now.page block }
    ensures value { result ≡ fold (spec.with_bubble number image.now) block image.now.bubbles }
    ensures inside { spec.IsInside image.now.page result }
{
    let mut region = block;
    for bubble in image.bubbles() {
        region = with_bubble(image, number, region, *bubble);
    }
    region
}

/// The region of a contest on the page that shows it: round its block, and so large that it holds each of
/// its bubbles.
pub(crate) fn region_round(image: &Image<'_>, contest: &Contest, number: u32) -> Region
    requires { options_of contest.now < 2 ^ 32 }
    ensures value { result ≡ spec.region_round contest.now number image.now }
    ensures inside { spec.IsInside image.now.page result }
{
    with_bubbles(image, number, region_block(image, contest, number))
}

/// How far a whole number is behind a column or row, and nothing where it lies before it.
fn behind(from: u32, at: i64) -> u64
    requires from { from < 4096 }
    requires at { IsWithin 2147483648 at }
    ensures { result ≡ spec.behind from at }
{
    let way = at - i64::from(from);
    if way < 0 { 0 } else { way as u64 }
}

/// The column of a bubble's middle in the picture of a region.
pub(crate) fn x_of(image: &Image<'_>, region: Region, bubble: Bubble) -> u64
    requires place { HasItsPlace bubble }
    requires inside { spec.IsInside image.now.page region }
    ensures { result ≡ spec.behind region.left
        (place_of image.now.reading.border bubble.col bubble.row).u }
{
    let middle = place_u(image.border(), bubble.col, u64::from(bubble.row));
    behind(region.left, middle)
}

/// The row of a bubble's middle in the picture of a region.
pub(crate) fn y_of(image: &Image<'_>, region: Region, bubble: Bubble) -> u64
    requires place { HasItsPlace bubble }
    requires inside { spec.IsInside image.now.page region }
    ensures { result ≡ spec.behind region.top
        (place_of image.now.reading.border bubble.col bubble.row).v }
{
    let middle = place_v(image.border(), bubble.col, u64::from(bubble.row));
    behind(region.top, middle)
}
