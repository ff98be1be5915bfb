use crate::fault::SheetFault;
use vx_rules::SheetMarks;
use vx_scan_model::PageFault;

/// What a sheet of a count came to.
#[derive(Debug, Drop)]
pub enum Came {
    /// It was read so, and its event is kept.
    Added(SheetMarks),
    /// A sheet with its key was added before.
    Repeated,
    /// The image with that number, the first of its two that has a fault, can't be read.
    Unread(u64, PageFault),
    /// Its two images are no sheet.
    Unpaired(SheetFault),
    /// It has one image, the last of all.
    Single,
    /// So many events are kept, and no more may be.
    Full(u32),
    /// Its number is above the most that it may be, 999,999.
    Beyond,
}
