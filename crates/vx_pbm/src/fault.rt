//! Why bytes are no bitmap.

ghost use Rattle.std.specs.Prelude.{◌≡◌};
ghost use Rattle.vx_pbm.specs.declared.fault.PbmFault.TheVariants.{OutOfMemory};

use std::fmt;
use vx_base::OutOfMemory as AllocError;

/// The first offset where bytes leave the grammar of bitmaps. Offsets count bytes from 0.
#[derive(Debug, Clone, Copy, PartialEq, Eq)]
pub enum PbmFault {
    /// No image begins at this offset.
    BadMagic(u64),
    /// No header has this byte at this offset, or the bytes end there. A number that is 0 or has
    /// more than 9 digits is bad at its first digit.
    BadHeader(u64),
    /// The width or the height that a header gives is above 4096.
    SizeTooLarge(u32, u32),
    /// The bytes end before the raster does: what there is and what it takes, counted in bytes for
    /// a raw image and in pixels for a plain one.
    Truncated(u64, u64),
    /// The byte at this offset of a plain raster is no pixel and no whitespace.
    BadPixel(u64),
    /// The byte at this offset, directly after a plain image's last pixel, isn't whitespace.
    TrailingPlain(u64),
    /// Memory ran out.
    OutOfMemory,
}

impl From<AllocError> for PbmFault {
    ghost from_gives = { λ _ fault. fault ≡ OutOfMemory };

    fn from(_e: AllocError) -> PbmFault {
        PbmFault::OutOfMemory
    }
}

/// The fault's number, and its values with blanks between.
impl fmt::Display for PbmFault {
    ghost use Rattle.std.specs.Prelude.{Some};
    ghost use Rattle.vx_pbm.specs.FaultTexts.{pbm_fault_text};

    ghost output = { λ fault. Some (pbm_fault_text fault) };

    fn fmt<W: fmt::Write>(&self, f: &mut fmt::Formatter<W>) -> fmt::Result {
        match self {
            PbmFault::BadMagic(at) => write!(f, "1 {at}"),
            PbmFault::BadHeader(at) => write!(f, "2 {at}"),
            PbmFault::SizeTooLarge(width, height) => write!(f, "3 {width} {height}"),
            PbmFault::Truncated(have, need) => write!(f, "4 {have} {need}"),
            PbmFault::BadPixel(at) => write!(f, "5 {at}"),
            PbmFault::TrailingPlain(at) => write!(f, "6 {at}"),
            PbmFault::OutOfMemory => f.write_str("out of memory"),
        }
    }
}
