//! The picture of a part of a page.

ghost use Rattle.std.specs.Prelude.{◌≡◌, ◌<◌, ◌≤◌, ◌*◌, ◌++◌, IfOk, OnOk};
ghost use Rattle.serde_json.specs.View.{view};
ghost use Rattle.vx_plane.specs.Count.{one_if};
ghost use Rattle.vx_bits.specs.Packed.{packed_byte, packed_row, raster_of, stride_of};
ghost use Rattle.vx_desk.specs.Pictures as spec;
ghost use Rattle.vx_desk.specs.Regions.{IsInside, height_of, width_of};

use crate::image::Image;
use crate::region::Region;
use base64::engine::general_purpose::STANDARD;
use serde_json::{Value, json};
use std::alloc::Global;
use vx_base::{Bytes, OutOfMemory};

/// Whether the pixel in a column and row of a region is dark; a column past its last one is light.
fn dark(image: &Image<'_>, region: Region, x: u32, y: u32) -> bool
    requires inside { IsInside image.now.page region }
    requires row { y < height_of region }
    ensures { result ≡ spec.pixel_at image.now.page region y x }
{
    if x < region.width() {
        image.dark(region.left + x, region.top + y)
    } else {
        false
    }
}

/// The same as a bit.
fn bit(image: &Image<'_>, region: Region, x: u32, y: u32) -> u8
    requires inside { IsInside image.now.page region }
    requires row { y < height_of region }
    ensures value { result ≡ one_if (spec.pixel_at image.now.page region y x) }
    ensures bound { result ≤ 1 }
{
    if dark(image, region, x, y) { 1 } else { 0 }
}

/// Four pixels from a column on, the first of them the highest bit.
fn half_byte(image: &Image<'_>, region: Region, x: u32, y: u32) -> u8
    requires inside { IsInside image.now.page region }
    requires row { y < height_of region }
    requires column { x ≤ 8192 }
    ensures value { result ≡ spec.half_byte_at image.now.page region y x }
    ensures bound { result ≤ 15 }
{
    8 * bit(image, region, x, y)
        + 4 * bit(image, region, x + 1, y)
        + 2 * bit(image, region, x + 2, y)
        + bit(image, region, x + 3, y)
}

/// A byte of a row of the picture.
fn byte(image: &Image<'_>, region: Region, k: u32, y: u32) -> u8
    requires inside { IsInside image.now.page region }
    requires row { y < height_of region }
    requires column { k ≤ 1000 }
    ensures { result ≡ packed_byte (spec.row_at image.now.page region y) k }
{
    16 * half_byte(image, region, 8 * k, y) + half_byte(image, region, 8 * k + 4, y)
}

/// Adds a row of the picture, packed.
#[tactic(auto, using(crate::proofs::Steps::laid_one, crate::proofs::Packing::row_packed))]
fn push_row(
    raster: &mut Bytes,
    image: &Image<'_>,
    region: Region,
    y: u32,
) -> Result<(), OutOfMemory>
    requires inside { IsInside image.now.page region }
    requires row { y < height_of region }
    ensures { OnOk result (raster.new
        ≡ raster.old ++ packed_row (spec.row_at image.now.page region y)) }
{
    for k in 0..(region.width() + 7) / 8 {
        raster.push(byte(image, region, k, y))?;
    }
    Ok(())
}

/// The raster of a region.
#[tactic(auto, using(crate::proofs::Steps::laid, crate::proofs::Packing::rows_raster))]
fn raster(alloc: Global, image: &Image<'_>, region: Region) -> Result<Bytes, OutOfMemory>
    requires { IsInside image.now.page region }
    ensures { IfOk result (λ raster. raster ≡ raster_of (spec.part_of image.now.page region)) }
{
    let mut raster = Bytes::new(alloc);
    for y in 0..region.height() {
        push_row(&mut raster, image, region, y)?;
    }
    Ok(raster)
}

/// The picture of a region: its sides and its raster in base64.
pub(crate) fn picture(
    alloc: Global,
    image: &Image<'_>,
    region: Region,
) -> Result<Value, OutOfMemory>
    requires { IsInside image.now.page region }
    ensures { IfOk result (λ value. view value ≡ spec.picture image.now.page region) }
{
    let raster = raster(alloc, image, region)?;
    let bits = STANDARD.encode(alloc, raster.as_slice())?;
    json!(in alloc; {"bits": bits, "height": region.height(), "width": region.width()})
}
