use crate::checking::CheckFault;
use std::fmt;

/// Why a text of readings isn't certified. Pages and lines are counted from 1.
#[derive(Clone, Copy, PartialEq, Eq)]
pub enum CertFault {
    /// The reading of that page is no certificate of it.
    Page(u32, CheckFault),
    /// That line leaves the grammar of readings, or names another contest or option than the plan.
    Line(u32),
    /// The readings have so many pages, and the scans so many.
    Pages(u32, u32),
}

/// What is refused, and why.
impl fmt::Display for CertFault {
    ghost use Rattle.std.specs.Prelude.{Some};
    ghost use Rattle.vx_refusals.specs.Texts.{readings_text};

    ghost output = { λ fault. Some (readings_text fault) };

    fn fmt<W: fmt::Write>(&self, f: &mut fmt::Formatter<W>) -> fmt::Result {
        match self {
            CertFault::Page(page, fault) => write!(f, "page {page} {fault}"),
            CertFault::Line(line) => write!(f, "line {line}"),
            CertFault::Pages(said, held) => write!(f, "pages {said} {held}"),
        }
    }
}

/// The same text.
impl fmt::Debug for CertFault {
    fn fmt<W: fmt::Write>(&self, f: &mut fmt::Formatter<W>) -> fmt::Result {
        fmt::Display::fmt(self, f)
    }
}
