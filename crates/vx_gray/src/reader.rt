ghost use Rattle.std.specs.Prelude.{◌≡◌, ◌<◌, IfOk, OnSome, length};
ghost use Rattle.vx_gray.specs.Images.{whole, Steps, Walks};

use crate::fault::PgmFault;
use crate::step::first_step;
use crate::view::GrayView;
use std::marker::Model;

/// The grayscale images of bytes, one after another. It is seen as what of the bytes is unread.
#[derive(Drop)]
pub struct PgmReader<'b> {
    bytes: &'b [u8],
    at: usize,
}

impl<'b> Model for PgmReader<'b> {
    ghost use Rattle.std.specs.Prelude.{◌≤◌, drop, length};
    ghost use Rattle.vx_gray.specs.Images.{Unread};

    ghost Value = { Unread };

    ghost view = { λ a. record { at = a.at; text = drop a.at a.bytes.now } };

    ghost invariant = { λ a. a.at ≤ length a.bytes.now };
}

impl<'b> PgmReader<'b> {
    /// A reader of the bytes from their first on; takes no memory.
    pub fn new(bytes: &'b [u8]) -> PgmReader<'b>
        ensures { result ≡ whole bytes.now }
    {
        PgmReader { bytes, at: 0 }
    }

    /// The next image, or none at the end of the bytes. Behind an image less is unread. After a
    /// fault each further call answers the same. Takes no memory.
    pub fn next(&mut self) -> Result<Option<GrayView<'b>>, PgmFault>
        ensures exact { Steps self.old result self.new }
        ensures images { Walks self.old result self.new }
        ensures less { IfOk result (λ image. OnSome image (length self.new.text < length self.old.text)) }
    {
        match first_step(self.bytes, self.at)? {
            None => Ok(None),
            Some(step) => {
                self.at = step.at;
                Ok(Some(step.page))
            }
        }
    }
}
