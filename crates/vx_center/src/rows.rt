use vx_base::ListOf;
use vx_events::{Key, Options, WriteInName};
use vx_grid::States;

/// The name of each write-in slot of a contest, in their order, where one was given.
pub type SlotNames = ListOf<Option<WriteInName>>;

/// What a contest of a sheet counts as.
#[derive(Debug, Drop)]
pub struct Final {
    /// The contest's place in the election's list.
    pub contest: u32,
    /// The options that are selected.
    pub selected: Options,
    /// Whether a person ruled that it is overvoted.
    pub ruled: bool,
    pub names: SlotNames,
    /// What the options were read as.
    pub read: States,
    /// Whether a person decided anything of it.
    pub decided: bool,
}

/// The contests of a sheet that are exported, in ascending order.
pub type Finals = ListOf<Final>;

/// What is exported of a sheet.
#[derive(Debug, Drop)]
pub struct ExportSheet {
    pub key: Key,
    /// The card's number in the election.
    pub card: u32,
    /// The number of the front page.
    pub front: u32,
    pub finals: Finals,
}

/// A row for each sheet, in the order of the batches' bytes and then of the numbers.
pub type ExportSheets = ListOf<ExportSheet>;

/// Lets export rows go. That this is safe is proved here; a crate that calls it needn't prove it again.
pub fn drop_rows(_rows: ExportSheets) {}
