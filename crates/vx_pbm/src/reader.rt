ghost use Rattle.std.specs.Prelude.{◌≡◌, ◌<◌, IfOk, IfSome, OnSome, length};
ghost use Rattle.vx_pbm.specs.Images.{whole, Steps, Walks};
ghost use Rattle.vx_pbm.specs.Raster.{IsSized};

use crate::fault::PbmFault;
use crate::image::Image;
use crate::step::first_step;
use std::alloc::Global;
use std::marker::Model;

/// The images of bytes, one after another: raw ones, or one plain one. It is seen as what of the
/// bytes is unread.
#[derive(Drop)]
pub struct PbmReader<'b> {
    alloc: Global,
    bytes: &'b [u8],
    at: usize,
    behind_plain: bool,
}

impl<'b> Model for PbmReader<'b> {
    ghost use Rattle.std.specs.Prelude.{◌≤◌, drop, length};
    ghost use Rattle.vx_pbm.specs.Images.{Unread};

    ghost Value = { Unread };

    ghost view = { λ a. record { at = a.at; text = drop a.at a.bytes.now; behind_plain = a.behind_plain } };

    ghost invariant = { λ a. a.at ≤ length a.bytes.now };
}

impl<'b> PbmReader<'b> {
    /// A reader of the bytes from their first on; takes no memory.
    pub fn new(alloc: Global, bytes: &'b [u8]) -> PbmReader<'b>
        ensures { result ≡ whole bytes.now }
    {
        PbmReader {
            alloc,
            bytes,
            at: 0,
            behind_plain: false,
        }
    }

    /// The next image, or none at the end of the bytes. Behind an image less is unread. After a
    /// fault each further call answers the same. A plain image takes memory; after want of memory
    /// the reader stands before that image.
    pub fn next(&mut self) -> Result<Option<Image<'b>>, PbmFault>
        ensures exact { Steps self.old result self.new }
        ensures images { Walks self.old result self.new }
        ensures less { IfOk result (λ image. OnSome image (length self.new.text < length self.old.text)) }
        ensures sized { IfOk result (λ image. IfSome image (λ page. IsSized page.width page.height)) }
    {
        match first_step(self.alloc, self.bytes, self.at, self.behind_plain)? {
            None => Ok(None),
            Some(step) => {
                self.at = step.at;
                self.behind_plain = step.behind_plain;
                Ok(Some(step.image))
            }
        }
    }
}
