use vx_base::ListOf;
use vx_json::Text;

/// A party, a district or a precinct.
#[derive(Debug, Drop)]
pub struct Named {
    pub id: Text,
    pub name: Text,
}

/// A list of parties, districts or precincts.
pub type NamedList = ListOf<Named>;
