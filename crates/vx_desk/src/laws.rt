//! Laws of the desk's data. These functions do nothing; their contracts are the laws.

ghost use Rattle.vx_desk.specs.Laws.{DataIsNoMarkup, DeskTellsWhatWaits, PicturesShowTheScan, SameSheetsAreEqual};
ghost use Rattle.vx_desk.specs.Standing.{OptionsStandByNumber, PicturesHoldBubbles};
ghost use Rattle.vx_desk.specs.Told.{WaitingIsToldOnce};

use vx_bits::rasters_show_their_pages;
use vx_center::{
    added_sheets_fit, same_keys_are_equal, sheets_have_own_keys, sheets_have_own_places,
};
use vx_layout::{plans_are_numbered, plans_show_each_option};
use vx_markup::lines_have_no_markup;
use vx_scan_model::{named_pages_stand_on_the_grid, readings_are_certificates};

/// No line of the data has a byte of markup in it, whatever the names, the history and the images are.
pub fn data_is_no_markup()
    ensures { DataIsNoMarkup }
{
    lines_have_no_markup();
}

/// The contests of a sheet's line are exactly those that wait, in the sheet's order.
pub fn desk_tells_what_waits()
    ensures { DeskTellsWhatWaits }
{}

/// Of each sheet of the batch with a contest that waits, and of no other, there is one line where its images are
/// there, with its contests that wait or that the images differ, and else its number is missing, once.
pub fn waiting_is_told_once()
    ensures { WaitingIsToldOnce }
{
    same_keys_are_equal();
    sheets_have_own_keys();
    sheets_have_own_places();
    added_sheets_fit();
}

/// The options of a contest stand in its list by their numbers on the ballot, all of them.
pub fn options_stand_by_number()
    ensures { OptionsStandByNumber }
{
    plans_are_numbered();
    plans_show_each_option();
}

/// The middle of each of a contest's bubbles lies in its picture, where the option says, and round it the margin
/// as far as the page goes.
pub fn pictures_hold_their_bubbles()
    ensures { PicturesHoldBubbles }
{
    named_pages_stand_on_the_grid();
    readings_are_certificates();
}

/// A picture is the stated part of the upright page, pixel by pixel.
pub fn pictures_show_the_scan()
    ensures { PicturesShowTheScan }
{
    rasters_show_their_pages();
}

/// By the test that the sheet of two images passes to be shown, two sheets are the same in all exactly
/// where they are equal.
pub fn same_sheets_are_equal()
    ensures { SameSheetsAreEqual }
{}
