//! Laws of the cards of an election. These functions do nothing; their contracts are the laws.

ghost use Rattle.std.specs.Prelude.{◌<◌, ◌≤◌, ℕ, length};
ghost use Rattle.std.specs.List.{All};
ghost use Rattle.vx_election_model.specs.Valid.{IsValid};
ghost use Rattle.vx_election_model.specs.declared.election.Election.{Election};
ghost use Rattle.vx_styles.specs.Cards.{cards_of, card_at, contests_of_card};

/// A valid election has at most 1,024 cards.
pub fn cards_are_few()
    ensures { (election : Election) → IsValid election → length (cards_of election) ≤ 1024 }
{}

/// The precinct of each card of a valid election is there.
pub fn each_card_has_its_precinct()
    ensures { (election : Election) (card : ℕ) →
        IsValid election → card < length (cards_of election) →
        (card_at election card).precinct < length election.precincts }
{}

/// The contests of a card are some of the election's.
pub fn contests_of_a_card_are_there()
    ensures { (election : Election) (card : ℕ) →
        All (λ place. place < length election.contests) (contests_of_card election card) }
{}

/// A card has at most 500 contests.
pub fn contests_of_a_card_are_few()
    ensures { (election : Election) (card : ℕ) → IsValid election →
        length (contests_of_card election card) ≤ 500 }
{}
