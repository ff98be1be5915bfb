ghost use Rattle.std.specs.Prelude.{◌≡◌, ◌+◌, ◌≤◌, ◌^◌};
ghost use Rattle.vx_command_demo.specs.Adding as adding;

use crate::sums::{PageSums, ReasonSums, both_pages, both_reasons, no_pages, no_reasons};

/// What is counted of the pages of sheets, and of the sheets.
#[derive(Clone, Copy)]
pub(crate) struct Counted {
    pub(crate) pages: PageSums,
    pub(crate) reasons: ReasonSums,
}

/// What is counted of no sheet.
pub(crate) fn nothing() -> Counted
    ensures { result ≡ adding.nothing }
{
    Counted {
        pages: no_pages(),
        reasons: no_reasons(),
    }
}

/// What is counted of sheets, and then of more.
pub(crate) fn both(some: &Counted, more: &Counted) -> Counted
    requires some { adding.IsCounted some.now }
    requires more { adding.IsCounted more.now }
    requires few { some.now.pages.pages + more.now.pages.pages ≤ 2 ^ 11 }
    ensures sums { result ≡ adding.both some.now more.now }
    ensures counted { adding.IsCounted result }
{
    Counted {
        pages: both_pages(&some.pages, &more.pages),
        reasons: both_reasons(&some.reasons, &more.reasons),
    }
}
