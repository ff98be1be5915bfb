//! Laws of records and headers. These functions do nothing; their contracts are the laws.

ghost use Rattle.vx_records.specs.Laws.{HeadersAreRead, RecordsAreRead, RefusalsAreSmall};

/// The record of each held event is read as that event, and nothing but those records is read. Any
/// other bytes are answered with the length of their longest front that some record begins with.
pub fn records_are_read()
    ensures { RecordsAreRead }
{}

/// The same of the headers of digests.
pub fn headers_are_read()
    ensures { HeadersAreRead }
{}

/// No more than 16,384 bytes begin a record.
pub fn refusals_are_small()
    ensures { RefusalsAreSmall }
{}
