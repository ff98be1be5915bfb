ghost use Rattle.vx_report_read.specs.Exported.{
  HistoriesAreRead,
  ReportsAreRead,
  ReportsAreReadBack,
  RowsAreTheExported,
};
ghost use Rattle.vx_report_read.specs.Texts.{JournalsAreUtf8, ReportsAreUtf8};
ghost use Rattle.vx_report_read.specs.Totals.{TotalsAreTheExported};

use vx_center::{exports_show_what_was_kept, sheets_have_own_keys};
use vx_command::taken_elections_are_valid;
use vx_journal::journals_are_histories;
use vx_json_trip::{lines_are_read_back, strings_are_utf8};
use vx_records::records_are_read;
use vx_results::rows_fit;
use vx_styles::each_card_has_its_precinct;

/// The report of a history is read back as the value that it was written from.
pub fn reports_are_read_back()
    ensures { ReportsAreReadBack }
{
    lines_are_read_back();
    rows_fit();
}

/// The texts of an election that a command takes are UTF-8, and so are the words that a journal keeps.
pub fn journals_are_utf8()
    ensures { JournalsAreUtf8 }
{
    strings_are_utf8();
    records_are_read();
}

/// The report that `export` writes of a journal is UTF-8.
pub fn reports_are_utf8()
    ensures { ReportsAreUtf8 }
{
    journals_are_utf8();
    taken_elections_are_valid();
    journals_are_histories();
    rows_fit();
}

/// The report of a history is read as its units, its contests with their selections, and a record for
/// each of the history's sheets; or, where its bytes aren't UTF-8, as no JSON.
pub fn histories_are_read()
    ensures { HistoriesAreRead }
{
    reports_are_read_back();
    rows_fit();
    each_card_has_its_precinct();
    sheets_have_own_keys();
}

/// The report that `export` writes of a journal is read so.
pub fn reports_are_read()
    ensures { ReportsAreRead }
{
    histories_are_read();
    reports_are_utf8();
    taken_elections_are_valid();
    journals_are_histories();
}

/// The rows of what it is read as are the exported selections of the history's sheets, with their
/// votes.
pub fn rows_are_the_exported()
    ensures { RowsAreTheExported }
{
    histories_are_read();
}

/// The totals of what it is read as are the sums over the exported contests of the sheets that were
/// added, and over no contest that waits.
pub fn totals_are_the_exported()
    ensures { TotalsAreTheExported }
{
    rows_are_the_exported();
    exports_show_what_was_kept();
}
