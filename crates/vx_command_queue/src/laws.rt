//! What `queue` writes of a journal. These functions do nothing; their contracts are the laws.

ghost use Rattle.vx_command_queue.specs.Laws.{QueuesListWhatWaits, QueuesWriteWhatWaits};

use vx_center::{added_sheets_fit, sheets_have_own_places};
use vx_journal::texts_are_of_journals;

/// The queue's lines are those of exactly the contests of a history that wait, in order, each once, with the
/// enabled reasons that hold and who holds the sheet.
pub fn queues_list_what_waits()
    ensures { QueuesListWhatWaits }
{
    added_sheets_fit();
    sheets_have_own_places();
}

/// Whatever stands of the acts of `queue`: where it ended well, all that it wrote is the queue's text of
/// exactly the events that the journal keeps.
pub fn queues_write_what_waits()
    ensures { QueuesWriteWhatWaits }
{
    queues_list_what_waits();
    texts_are_of_journals();
}
