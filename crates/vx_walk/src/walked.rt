ghost use Rattle.std.specs.Prelude.{◌≡◌, IfOk};
ghost use Rattle.vx_pbm.specs.Raster.{IsSized};

use std::alloc::{AllocError, Global};
use std::marker::Model;
use vx_bits::{BitPage, BitView};
use vx_pbm::Image;

/// An image of the scan at hand, or a copy of the last of the scan before, so that that may go.
#[derive(Drop)]
enum Held<'b> {
    Lent(Image<'b>),
    Copied(BitPage),
}

/// The first image of a sheet, which waits for its second. Contracts see its page.
#[derive(Drop)]
pub(crate) struct First<'b> {
    held: Held<'b>,
}

impl<'b> Model for First<'b> {
    ghost use Rattle.vx_plane.specs.Plane.{Page};

    ghost Value = { Page };

    ghost use Rattle.vx_pbm.specs.Raster.{IsSized};
    ghost use Rattle.vx_walk.specs.First.{page_in};

    ghost view = { λ first. page_in first.held };

    ghost invariant = { λ first. IsSized (page_in first.held).width (page_in first.held).height };
}

/// A copy of an image.
fn copy_of(alloc: Global, image: &BitView<'_>) -> Result<BitPage, AllocError>
    requires { IsSized image.now.width image.now.height }
    ensures { IfOk result (λ page. page ≡ image.now) }
{
    let rows = Vec::from_slice(alloc, image.rows())?;
    Ok(BitPage::from_rows(image.width(), image.height(), rows))
}

impl<'b> First<'b> {
    /// An image of the scan at hand.
    pub(crate) fn lent(image: Image<'b>) -> First<'b>
        requires { IsSized image.width image.height }
        ensures { result ≡ image.entry }
    {
        First {
            held: Held::Lent(image),
        }
    }

    /// The page, borrowed.
    pub(crate) fn view(&self) -> BitView<'_>
        ensures same { result ≡ self.now }
        ensures sized { IsSized result.width result.height }
    {
        match &self.held {
            Held::Lent(image) => image.view(),
            Held::Copied(page) => page.view(),
        }
    }

    /// A copy of it.
    fn copied<'n>(&self, alloc: Global) -> Result<First<'n>, AllocError>
        ensures { IfOk result (λ first. first ≡ self.now) }
    {
        let page = copy_of(alloc, &self.view())?;
        Ok(First {
            held: Held::Copied(page),
        })
    }
}

/// How far the walk over all images has come.
#[derive(Drop)]
pub(crate) struct Walked<'b> {
    /// So many sheets.
    pub(crate) sheets: u64,
    /// The image that waits for its second, if one does.
    pub(crate) waiting: Option<First<'b>>,
}

impl<'b> Walked<'b> {
    /// The same, with a copy of the image that waits, so that its scan may go.
    pub(crate) fn copied<'n>(&self, alloc: Global) -> Result<Walked<'n>, AllocError>
        ensures { IfOk result (λ walked. walked ≡ self.now) }
    {
        let waiting = match &self.waiting {
            None => None,
            Some(first) => Some(first.copied(alloc)?),
        };
        Ok(Walked {
            sheets: self.sheets,
            waiting,
        })
    }

    /// The page of the image that waits, borrowed.
    pub(crate) fn left(&self) -> Option<BitView<'_>>
        ensures { result ≡ self.now.waiting }
    {
        match &self.waiting {
            None => None,
            Some(first) => Some(first.view()),
        }
    }
}
