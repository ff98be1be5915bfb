//! The law of texts of readings. This function does nothing; its contract is the law.

ghost use Rattle.vx_readings.specs.Laws.{WrittenIsReadBack};

/// What is written of a page is read back: a block as its reading, with the names of the bubbles, and a
/// fault's line as that there is no reading.
pub fn written_readings_are_read_back()
    ensures { WrittenIsReadBack }
{}
