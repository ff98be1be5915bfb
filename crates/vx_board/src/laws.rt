//! Laws of the page for those who hold the paper. These functions do nothing; their contracts are the laws.

ghost use Rattle.vx_board.specs.Laws.{BallotsAreTheSample, BoardIsBlind, DataIsNoMarkup};
ghost use Rattle.vx_board.specs.Written.{BoardIsOfWhatWasKept};

use vx_center::{same_keys_are_equal, sheets_have_own_places};
use vx_cvr::{each_row_is_of_a_sheet, one_row_of_a_key, rows_are_of_the_sheets};
use vx_journal::texts_are_of_journals;
use vx_markup::{lines_have_no_markup, texts_join_without_markup};

/// Of two lists of kept events that added ballots under the same keys and of the same cards, in the same order, the
/// pages are the same bytes, whatever was marked, read and decided; and of two journals of one election that keep such
/// lists `board` does the same and ends the same.
pub fn board_is_blind()
    ensures { BoardIsBlind }
{}

/// No line of the data has a byte of markup in it, whatever the names are.
pub fn data_is_no_markup()
    ensures { DataIsNoMarkup }
{
    lines_have_no_markup();
    texts_join_without_markup();
}

/// The ballots are those that `sample` draws of what the report of the same events says, by the same seed and size,
/// and they stand in the order of their keys, each key once.
pub fn ballots_are_the_sample()
    ensures { BallotsAreTheSample }
{
    rows_are_of_the_sheets();
    each_row_is_of_a_sheet();
    one_row_of_a_key();
    sheets_have_own_places();
    same_keys_are_equal();
}

/// Whatever stands of the acts of `board`: where it ended well, all that it wrote is the page of exactly the events
/// that the journal keeps.
pub fn board_is_of_what_was_kept()
    ensures { BoardIsOfWhatWasKept }
{
    texts_are_of_journals();
}
