//! What `count` does with what `try` accepted. This function does nothing; its contract is the law.

ghost use Rattle.vx_command_try.specs.Laws.{TriedSheetsAreAdded};

use vx_command_count::sheets_are_added;

/// What `try` accepts `count` adds, sheet for sheet: where a `try` of scans does its work, a `count` of them
/// ends well and appends the record of each sheet that was told, in order and nothing else, where their keys
/// are new, their numbers at most 999,999 and there is room.
pub fn tried_sheets_are_added()
    ensures { TriedSheetsAreAdded }
{
    sheets_are_added();
}
