//! Laws of the bits of grayscale scans. These functions do nothing; their contracts are the laws.

ghost use Rattle.vx_gray.specs.Fits.{BitsAreWhatIsShown, BitsFit, FallingLightPrintsFit, PrintsHaveLight};
ghost use Rattle.vx_gray.specs.Fits.{MarkedPrintsFit, MarkedPrintsHaveLight};
ghost use Rattle.vx_gray.specs.Fits.{ShownPrintsFit, ShownScansFit, SlowLightShows, TwoLevelPrintsFit, TwoLevelsShow};
ghost use Rattle.vx_gray.specs.Images.{ImagesAreSized};

use vx_scan_model::clean_prints_fit;

/// Where a grayscale scan fits a printed page with some marks, its bits fit that page with those marks:
/// they are the scan that it shows.
pub fn bits_fit()
    ensures shown { BitsAreWhatIsShown }
    ensures fit { BitsFit }
{}

/// A scan with a light place near each tile is shown in two levels, or in a light that falls by a factor of two
/// at most over each nine tiles; so if it fits a printed page with some marks, it fits that page with them in gray.
pub fn shown_scans_fit()
    ensures slowly { SlowLightShows }
    ensures levels { TwoLevelsShow }
    ensures scans { ShownScansFit }
{}

/// Near each tile of every printed page a place is light, also where its bubbles are marked; so a page that fits
/// with such marks fits with them in gray. And the clean print of each planned page fits that page with no bubble
/// marked: in two levels, the ink less than half as light as the paper, and in a light that falls by
/// a factor of two at most over each nine tiles, as one does that falls evenly over the page by three parts in four.
/// So what `bits_fit` says isn't said of nothing.
pub fn shown_prints_fit()
    ensures light { PrintsHaveLight }
    ensures marked_light { MarkedPrintsHaveLight }
    ensures marked { MarkedPrintsFit }
    ensures prints { ShownPrintsFit }
    ensures levels { TwoLevelPrintsFit }
    ensures falling { FallingLightPrintsFit }
{
    clean_prints_fit();
    shown_scans_fit();
}

/// The images of bytes are pages of 1 to 4096 pixels each way.
pub fn images_are_sized()
    ensures { ImagesAreSized }
{}
