//! Laws of page codes. These functions do nothing; their contracts are the laws.

ghost use Rattle.vx_code.specs.Code.{TagsAreInRange, CodesAreGivenBack, NoBitIsRefused, ReadCodesAreShown};

/// The tag of any digest has at most 20 bits.
pub fn tags_are_in_range()
    ensures { TagsAreInRange }
{}

/// Counts that show the boxes of a code of the paper's version give that code back.
pub fn codes_are_given_back()
    ensures { CodesAreGivenBack }
{}

/// Where the first two counts show no bit, no code is shown.
pub fn no_bit_is_refused()
    ensures { NoBitIsRefused }
{}

/// Counts that show a code show its boxes, and its fields are as large as their bits allow.
pub fn read_codes_are_shown()
    ensures { ReadCodesAreShown }
{}
