ghost use Rattle.std.specs.Prelude.{◌≡◌};
ghost use Rattle.vx_plane.specs.Plane.{page_of, dark_at};

use std::marker::Model;
use vx_bits::{BitPage, BitView};

/// The page of an image, in the bytes that were read or in memory of its own.
#[derive(Drop)]
pub(crate) enum Held<'b> {
    Lent(BitView<'b>),
    Made(BitPage),
}

/// An image that was read. It lives as long as the bytes, and is seen as its page.
#[derive(Drop)]
pub struct Image<'b> {
    held: Held<'b>,
}

/// The same page, borrowed once more.
fn again<'a>(page: &'a BitView<'_>) -> BitView<'a>
    ensures { result ≡ page.now }
{
    BitView::new(page.width(), page.height(), page.rows())
}

impl<'b> Model for Image<'b> {
    ghost use Rattle.vx_plane.specs.Plane.{Page};

    ghost Value = { Page };

    ghost use Rattle.vx_pbm.specs.Image.{page_in};

    ghost view = { λ a. page_in a.held };
}

impl<'b> Image<'b> {
    /// The image of a page that the bytes hold.
    pub(crate) fn lent(page: BitView<'b>) -> Image<'b>
        ensures { result ≡ page.entry }
    {
        Image {
            held: Held::Lent(page),
        }
    }

    /// The image of a page that was made.
    pub(crate) fn made(page: BitPage) -> Image<'b>
        ensures { result ≡ page }
    {
        Image {
            held: Held::Made(page),
        }
    }

    /// The page, borrowed.
    pub fn view(&self) -> BitView<'_>
        ensures { result ≡ self.now }
    {
        match &self.held {
            Held::Lent(page) => again(page),
            Held::Made(page) => page.view(),
        }
    }
}
