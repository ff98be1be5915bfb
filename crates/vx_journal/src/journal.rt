use vx_center::Center;

/// A journal that was read: the counting machine of its events, and whether no record was there, so
/// that its header is still to come.
#[derive(Drop)]
pub struct Journal<'e> {
    pub center: Center<'e>,
    pub is_new: bool,
}

/// Lets a journal go. That this is safe is proved here; a crate that calls it needn't prove it again.
pub fn drop_journal(_journal: Journal<'_>) {}
