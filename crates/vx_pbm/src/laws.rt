//! Laws of the images of bytes. These functions do no work; their contracts are the laws.

ghost use Rattle.vx_pbm.specs.Images.{ImagesAreWhole, JoinsRawImages, ReadsBack, WalksAllImages};

use vx_bits::rasters_show_their_pages;

/// Where a text of raw images leaves the grammar nowhere and bytes follow that don't begin as a
/// plain image does, the images of both are those of the first and then those of the second.
pub fn raw_images_join()
    ensures { JoinsRawImages }
{}

/// What is written of a page with sides of 1 to 4096 pixels is read as that page alone.
pub fn what_is_written_reads_back()
    ensures { ReadsBack }
{
    rasters_show_their_pages();
}

/// The pages that a reader gives until it comes to the end or to a fault, with that fault, are the
/// images of the bytes.
pub fn a_walk_gives_all_images()
    ensures { WalksAllImages }
{}

/// The images of bytes are pages with all their rows, as wide as they say, of 1 to 4096 pixels each way.
pub fn images_are_whole()
    ensures { ImagesAreWhole }
{}
