//! Why two images are no sheet.

use std::fmt;

/// Why images that come next are no sheet.
#[derive(Clone, Copy, Debug, PartialEq, Eq)]
pub enum SheetCause {
    /// One of the two can't be read.
    Unread,
    /// Both can be read, and they aren't the front and the back of one sheet.
    Unpaired,
    /// There is one image, the last of all.
    Single,
}

/// The cause in a word.
impl fmt::Display for SheetCause {
    ghost use Rattle.std.specs.Prelude.{Some};
    ghost use Rattle.vx_command.specs.Causes.{sheet_text};

    ghost output = { λ cause. Some (sheet_text cause) };

    fn fmt<W: fmt::Write>(&self, f: &mut fmt::Formatter<W>) -> fmt::Result {
        match self {
            SheetCause::Unread => f.write_str("unread"),
            SheetCause::Unpaired => f.write_str("unpaired"),
            SheetCause::Single => f.write_str("single"),
        }
    }
}
