//! Laws of journals. These functions do nothing; their contracts are the laws.

ghost use Rattle.vx_journal.specs.Laws.{
  BegunAreJournals,
  FrontsAreJournals,
  HeadersBeginJournals,
  JournalsAreHistories,
  JournalsAreTheirEvents,
  JournalsGrow,
  JournalsStay,
  ReadLaws,
  RecordsAreEvents,
  TextsAreOfJournals,
};

use vx_command::{acts_in_order, records_in_order, texts_in_order};
use vx_records::records_are_read;

/// A journal that was begun is a journal.
pub fn begun_journals_are_journals()
    ensures { BegunAreJournals }
{}

/// The header begins a journal where no record is there.
pub fn headers_begin_journals()
    ensures { HeadersBeginJournals }
{}

/// A journal grows by the record of an event that fits, has a record, and is answered with Done.
pub fn journals_grow()
    ensures { JournalsGrow }
{
    records_are_read();
}

/// A step that reads the journal, and then the rest of a command.
pub fn journals_in_order()
    ensures { ReadLaws }
{
    acts_in_order();
}

/// Whatever stands of a command's acts, behind each of which the records are a journal, the keeper
/// holds one.
pub fn journals_stay()
    ensures { JournalsStay }
{}

/// The first records of a journal are a journal, of the first of its events.
pub fn fronts_are_journals()
    ensures { FrontsAreJournals }
{}

/// A record behind the header is one event of the journal, behind the events of the records before it.
pub fn records_are_events()
    ensures { RecordsAreEvents }
{}

/// The records of a journal are its header and the records of the events that it keeps, in order, and no other.
pub fn journals_are_their_events()
    ensures { JournalsAreTheirEvents }
{
    records_are_read();
}

/// What a journal keeps is a history of the counting machine.
pub fn journals_are_histories()
    ensures { JournalsAreHistories }
{}

/// A command that takes its election, reads its journal and writes a text of what it keeps: where it ended
/// well, all that it wrote is the text of exactly the events that the journal keeps, which are a history.
pub fn texts_are_of_journals()
    ensures { TextsAreOfJournals }
{
    texts_in_order();
    records_in_order();
}
