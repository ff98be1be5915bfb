//! What `export` writes of a journal. This function does nothing; its contract is the law.

ghost use Rattle.vx_command_export.specs.Laws.{ExportsWriteWhatWasKept};

use vx_center::exports_show_what_was_kept;
use vx_cvr::pieces_are_the_report;
use vx_journal::texts_are_of_journals;

/// Whatever stands of the acts of `export`: where it ended well, all that it wrote is the report of
/// exactly the events that the journal keeps, and the report shows what was kept.
pub fn exports_write_what_was_kept()
    ensures { ExportsWriteWhatWasKept }
{
    exports_show_what_was_kept();
    texts_are_of_journals();
    pieces_are_the_report();
}
