//! Laws of texts without markup. These functions do nothing; their contracts are the laws.

ghost use Rattle.vx_markup.specs.Laws.{LinesHaveNoMarkup, TextsJoinWithoutMarkup};

/// No line of a value has a byte of markup in it, whatever the value is.
pub fn lines_have_no_markup()
    ensures { LinesHaveNoMarkup }
{}

/// Two texts without markup are one without markup.
pub fn texts_join_without_markup()
    ensures { TextsJoinWithoutMarkup }
{}
