//! Laws of the counting machine, most of them over whole runs. These functions do nothing; their contracts
//! are the laws. Which lists of events a center may have kept is `IsHistory`, a clause of `Center::events`.

ghost use Rattle.vx_center.specs.Laws.{
  AddedSheetsAreAlone,
  AddedSheetsFit,
  ClaimsAreFree,
  DecisionsAreTheHolders,
  ExportsStay,
  FoundSheetsStay,
  HistoriesAreShown,
  ReleasesAreTheHolders,
  RepliesAreDoneOrRefuse,
  SameKeysAreEqual,
  SheetsComeInOrder,
  SheetsHaveOwnKeys,
  SheetsHaveOwnPlaces,
  SheetsStay,
};

/// A sheet that was added is never changed or lost.
pub fn sheets_stay()
    ensures { SheetsStay }
{}

/// No two sheets of a history have one key.
pub fn sheets_have_own_keys()
    ensures { SheetsHaveOwnKeys }
{}

/// No two places of the list of a history's sheets have one key.
pub fn sheets_have_own_places()
    ensures { SheetsHaveOwnPlaces }
{}

/// A contest that is exported stays exported.
pub fn exports_stay()
    ensures { ExportsStay }
{}

/// At most one station holds a sheet: it is given to one only while no other holds it, and given back
/// only by the one that holds it.
pub fn one_station_holds_a_sheet()
    ensures claims { ClaimsAreFree }
    ensures releases { ReleasesAreTheHolders }
{}

/// A decision counts only from the station that holds the sheet.
pub fn decisions_are_the_holders()
    ensures { DecisionsAreTheHolders }
{}

/// Of every history an export shows exactly the exported contests, as they were read with the last decisions
/// applied; one with a marginal option only where it was ruled, and none that has a reason and no decision.
pub fn exports_show_what_was_kept()
    ensures { HistoriesAreShown }
{}

/// An answer that keeps its event is Done, and any other is a refusal.
pub fn replies_are_done_or_refuse()
    ensures { RepliesAreDoneOrRefuse }
{}

/// More events add their sheets behind those of the events before them.
pub fn sheets_come_in_order()
    ensures { SheetsComeInOrder }
{}

/// A sheet that is found under its key is found so whatever events come behind.
pub fn found_sheets_stay()
    ensures { FoundSheetsStay }
{}

/// Two keys that are the same, batch and number, are equal.
pub fn same_keys_are_equal()
    ensures { SameKeysAreEqual }
{}

/// The sheet that an event of a history adds is the only one of its key.
pub fn added_sheets_are_alone()
    ensures { AddedSheetsAreAlone }
{}

/// A sheet that an event of a history adds has a key in range and is one of the election's.
pub fn added_sheets_fit()
    ensures { AddedSheetsFit }
{}
