//! Why bytes are no grayscale page.

use std::fmt;

/// The first offset where bytes leave the grammar of raw grayscale images. Offsets count bytes from 0.
#[derive(Debug, Clone, Copy, PartialEq, Eq)]
pub enum PgmFault {
    /// No image begins at this offset.
    BadMagic(u64),
    /// No header has this byte at this offset, or the bytes end there. A number that is 0 or has
    /// more than 9 digits is bad at its first digit.
    BadHeader(u64),
    /// The width or the height that a header gives is above 4096.
    SizeTooLarge(u32, u32),
    /// The bytes end before the raster does: what there is and what it takes, counted in bytes.
    Truncated(u64, u64),
    /// The greatest value that a header gives is above 255.
    BadMaxval(u32),
}

/// The fault's number, and its values with blanks between.
impl fmt::Display for PgmFault {
    ghost use Rattle.std.specs.Prelude.{Some};
    ghost use Rattle.vx_gray.specs.FaultTexts.{pgm_fault_text};

    ghost output = { λ fault. Some (pgm_fault_text fault) };

    fn fmt<W: fmt::Write>(&self, f: &mut fmt::Formatter<W>) -> fmt::Result {
        match self {
            PgmFault::BadMagic(at) => write!(f, "1 {at}"),
            PgmFault::BadHeader(at) => write!(f, "2 {at}"),
            PgmFault::SizeTooLarge(width, height) => write!(f, "3 {width} {height}"),
            PgmFault::Truncated(have, need) => write!(f, "4 {have} {need}"),
            PgmFault::BadMaxval(maxval) => write!(f, "7 {maxval}"),
        }
    }
}
