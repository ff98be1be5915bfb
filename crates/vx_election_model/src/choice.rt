use vx_base::ListOf;
use vx_json::Text;

/// A candidate, or one of the two answers of a yes/no contest. Write-in slots are no choices.
#[derive(Debug, Drop)]
pub struct Choice {
    /// The candidate's id, or `yes` or `no`.
    pub id: Text,
    /// What is printed beside the bubble: a candidate's name with its parties, where they fit.
    pub label: Text,
    /// The candidate's name; for a yes/no answer its label.
    pub name: Text,
}

/// A list of choices.
pub type Choices = ListOf<Choice>;
