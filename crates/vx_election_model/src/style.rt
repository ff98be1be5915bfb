use crate::indexes::Indexes;
use vx_base::ListOf;
use vx_json::Text;

/// A ballot style: which precincts vote by it, and on the contests of which districts.
#[derive(Debug, Drop)]
pub struct Style {
    pub id: Text,
    /// Places in the election's list of precincts.
    pub precincts: Indexes,
    /// Places in the election's list of districts.
    pub districts: Indexes,
    /// The place of its party in the election's list, where it has one.
    pub party: Option<u32>,
}

/// A list of ballot styles.
pub type Styles = ListOf<Style>;
