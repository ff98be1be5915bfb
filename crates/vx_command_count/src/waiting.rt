ghost use Rattle.std.specs.Prelude.{◌≡◌, ◌∷◌, [], All, IfOk};
ghost use Rattle.vx_pbm.specs.Faults.{is_no_memory as is_want_of_memory};
ghost use Rattle.vx_pbm.specs.Images.{IsWholePage};
ghost use Rattle.vx_command_count.specs.Gathering.{waits};

use std::alloc::Global;
use std::marker::Model;
use vx_base::{Bytes, OutOfMemory};
use vx_pbm::{Image, PbmFault, PbmReader, images_are_whole, what_is_written_reads_back, write_p4};

fn is_no_memory(fault: PbmFault) -> bool
    ensures { result ≡ is_want_of_memory fault }
{
    matches!(fault, PbmFault::OutOfMemory)
}

/// The last image of a scan, which waits for the next one's first, or none. It keeps a bitmap of its own,
/// so that its scan may go; it isn't read before its second is there. Contracts see the list of it.
#[derive(Drop)]
pub(crate) struct Waiting {
    bitmap: Bytes,
}

impl Model for Waiting {
    ghost use Rattle.std.specs.Prelude.{List, take};
    ghost use Rattle.vx_plane.specs.Plane.{Page};
    ghost use Rattle.vx_pbm.specs.Images.{images_of};

    ghost Value = { List Page };

    ghost view = { λ waiting. take 1 (images_of waiting.bitmap).pages };
}

impl Waiting {
    /// No image; takes no memory.
    pub(crate) fn none(alloc: Global) -> Waiting
        ensures { result ≡ [] }
    {
        Waiting {
            bitmap: Bytes::new(alloc),
        }
    }

    /// An image, if there is one.
    pub(crate) fn of(alloc: Global, image: Option<Image<'_>>) -> Result<Waiting, OutOfMemory>
        requires { All IsWholePage (waits image) }
        ensures { IfOk result (λ waiting. waiting ≡ waits image.entry) }
    {
        match image {
            Some(image) => Waiting::of_image(alloc, &image),
            None => Ok(Waiting::none(alloc)),
        }
    }

    fn of_image(alloc: Global, image: &Image<'_>) -> Result<Waiting, OutOfMemory>
        requires { IsWholePage image.now }
        ensures { IfOk result (λ waiting. waiting ≡ image.now ∷ []) }
    {
        what_is_written_reads_back();
        let mut bitmap = Bytes::new(alloc);
        write_p4(&image.view(), &mut bitmap)?;
        Ok(Waiting { bitmap })
    }

    /// The image that waits.
    pub(crate) fn image(&self, alloc: Global) -> Result<Option<Image<'_>>, OutOfMemory>
        ensures found { IfOk result (λ found. self.now ≡ waits found) }
        ensures whole { IfOk result (λ found. All IsWholePage (waits found)) }
    {
        images_are_whole();
        let mut reader = PbmReader::new(alloc, self.bitmap.as_slice());
        match reader.next() {
            Ok(found) => Ok(found),
            Err(fault) => {
                if is_no_memory(fault) {
                    Err(OutOfMemory)
                } else {
                    Ok(None)
                }
            }
        }
    }
}
