ghost use Rattle.std.specs.Prelude.{◌≡◌};

use crate::choice::Choices;
use vx_base::ListOf;
use vx_json::Text;

/// A contest of candidates, or one that is answered by yes or no.
#[derive(Debug, Drop)]
pub struct Contest {
    pub id: Text,
    pub title: Text,
    /// What a yes/no contest asks; empty for a contest of candidates.
    pub description: Text,
    /// The place of its district in the election's list.
    pub district: u32,
    /// The place of its party in the election's list, where only that party's voters vote on it.
    pub party: Option<u32>,
    /// How many choices a voter may mark.
    pub seats: u32,
    pub choices: Choices,
    /// Whether one write-in slot stands for each seat after the choices.
    pub write_ins: bool,
    pub is_yes_no: bool,
}

impl Contest {
    ghost use Rattle.vx_election_model.specs.Options.{options_of};
    ghost use Rattle.std.specs.Prelude.{◌<◌, ◌^◌};

    /// The number of options: the choices, then the write-in slots.
    pub fn options(&self) -> u32
        requires { options_of self.now < 2 ^ 32 }
        ensures { result ≡ options_of self.now }
    {
        let slots = if self.write_ins { self.seats } else { 0 };
        self.choices.len() as u32 + slots
    }
}

/// A list of contests.
pub type Contests = ListOf<Contest>;
