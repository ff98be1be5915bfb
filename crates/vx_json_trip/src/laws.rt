ghost use Rattle.vx_json_trip.specs.Strings.{StringsAreUtf8};
ghost use Rattle.vx_json_trip.specs.Trips.{LinesAreReadBack, TextsAreRead, TextsAreReadBack};

/// The compact text of a value is read as that value with the members of its objects in order.
pub fn texts_are_read()
    ensures { TextsAreRead }
{}

/// The compact text of a value whose names are in order is read back as that value.
pub fn texts_are_read_back()
    ensures { TextsAreReadBack }
{}

/// The same of a line, the text with a line feed behind it.
pub fn lines_are_read_back()
    ensures { LinesAreReadBack }
{}

/// What is read of a text has its strings in UTF-8, where the text is.
pub fn strings_are_utf8()
    ensures { StringsAreUtf8 }
{}
