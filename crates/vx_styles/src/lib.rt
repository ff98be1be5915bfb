//! The cards of an election, and the contests on each.
//!
//! A card is a ballot style with one of its precincts. Which cards there are, in which order, and
//! which contests stand on one is defined in `specs/Cards.antt`. Each call asks for a valid
//! election, as `vx_election` reads it.
#![tactic(auto)]

mod card;
mod laws;
mod styles;

pub use card::{Card, CardList};
pub use laws::{
    cards_are_few, contests_of_a_card_are_few, contests_of_a_card_are_there,
    each_card_has_its_precinct,
};
pub use styles::{cards, contests_of};
