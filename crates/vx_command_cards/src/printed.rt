//! What of a contest is printed, by the layout's definitions.

ghost use Rattle.std.specs.Prelude.{◌≡◌, chars, IfOk};
ghost use Rattle.vx_layout.specs.Blocks as blocks;
ghost use Rattle.vx_command_cards.specs.Texts as texts;

use std::alloc::Global;
use vx_base::OutOfMemory;
use vx_election_model::Contest;

/// What stands beside the bubble of a write-in slot.
const WRITE_IN: &str = "Write-in";

/// The characters of a text.
pub(crate) fn characters_in(alloc: Global, text: &str) -> Result<Vec<char>, OutOfMemory>
    ensures { IfOk result (λ characters. characters.items ≡ chars text.now) }
{
    text.chars().collect(alloc)
}

/// What is printed of a contest beside its title: only a yes/no contest has a description.
pub(crate) fn description_of(contest: &Contest) -> &str
    ensures { result.now ≡ blocks.description_of contest.now }
{
    if contest.is_yes_no {
        contest.description.as_str()
    } else {
        ""
    }
}

/// What is printed beside the bubble of an option, by its place.
pub(crate) fn label_at(contest: &Contest, option: usize) -> &str
    ensures { result.now ≡ blocks.label_at contest.now option }
{
    match contest.choices.as_slice().get(option) {
        Some(choice) => choice.label.as_str(),
        None => WRITE_IN,
    }
}

/// The id of a choice, by its place.
pub(crate) fn choice_id(contest: &Contest, option: usize) -> &str
    ensures { result.now ≡ texts.choice_id contest.now option }
{
    match contest.choices.as_slice().get(option) {
        Some(choice) => choice.id.as_str(),
        None => "",
    }
}
