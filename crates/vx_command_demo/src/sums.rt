//! What is counted of pages and of sheets.

ghost use Rattle.std.specs.Prelude.{◌≡◌, ◌+◌, ◌≤◌, ◌^◌};
ghost use Rattle.vx_command_demo.specs.Adding as adding;

/// What is counted of pages. Columns and rows are in pixels of their scans.
#[derive(Clone, Copy)]
pub(crate) struct PageSums {
    /// How many there are.
    pub(crate) pages: u64,
    /// How many were read as their card, page and marks.
    pub(crate) as_truth: u64,
    /// How many readings the checker accepted.
    pub(crate) certified: u64,
    /// How many bubbles were read as marked.
    pub(crate) marks: u64,
    /// The columns of all places of the borders, added up.
    pub(crate) columns: i64,
    /// And the rows.
    pub(crate) rows: i64,
    /// The scores of all bubbles, added up.
    pub(crate) scores: u64,
}

/// Sums of no page.
pub(crate) fn no_pages() -> PageSums
    ensures { result ≡ adding.no_pages }
{
    PageSums {
        pages: 0,
        as_truth: 0,
        certified: 0,
        marks: 0,
        columns: 0,
        rows: 0,
        scores: 0,
    }
}

/// Sums of pages, and then of more.
pub(crate) fn both_pages(some: &PageSums, more: &PageSums) -> PageSums
    requires some { adding.ArePageSums some.now }
    requires more { adding.ArePageSums more.now }
    requires few { some.now.pages + more.now.pages ≤ 2 ^ 11 }
    ensures sums { result ≡ adding.both_pages some.now more.now }
    ensures within { adding.ArePageSums result }
{
    PageSums {
        pages: some.pages + more.pages,
        as_truth: some.as_truth + more.as_truth,
        certified: some.certified + more.certified,
        marks: some.marks + more.marks,
        columns: some.columns + more.columns,
        rows: some.rows + more.rows,
        scores: some.scores + more.scores,
    }
}

/// Of how many contests of sheets each reason holds, whether it is enabled or not.
#[derive(Clone, Copy)]
pub(crate) struct ReasonSums {
    pub(crate) overvote: u64,
    pub(crate) undervote: u64,
    pub(crate) marginal: u64,
    pub(crate) blank: u64,
    pub(crate) write_in: u64,
}

/// Sums of no sheet.
pub(crate) fn no_reasons() -> ReasonSums
    ensures { result ≡ adding.no_reasons }
{
    ReasonSums {
        overvote: 0,
        undervote: 0,
        marginal: 0,
        blank: 0,
        write_in: 0,
    }
}

/// Sums of sheets, and then of more.
pub(crate) fn both_reasons(some: &ReasonSums, more: &ReasonSums) -> ReasonSums
    requires some { adding.AreReasonSums (2 ^ 40) some.now }
    requires more { adding.AreReasonSums (2 ^ 40) more.now }
    ensures { result ≡ adding.both_reasons some.now more.now }
{
    ReasonSums {
        overvote: some.overvote + more.overvote,
        undervote: some.undervote + more.undervote,
        marginal: some.marginal + more.marginal,
        blank: some.blank + more.blank,
        write_in: some.write_in + more.write_in,
    }
}

/// Sums of a page that isn't read.
pub(crate) fn unread() -> PageSums
    ensures { result ≡ adding.unread }
{
    PageSums {
        pages: 1,
        as_truth: 0,
        certified: 0,
        marks: 0,
        columns: 0,
        rows: 0,
        scores: 0,
    }
}
