use vx_events::Decision;

/// What was decided of a contest of a sheet.
#[derive(Debug, Drop)]
pub struct Decided {
    /// The contest's place in the election's list.
    pub contest: u32,
    pub decision: Decision,
}
