ghost use Rattle.std.specs.Prelude.{◌≡◌, true};

/// What each task of `map_tasks` goes through before it begins. A gate of a test can so hold one
/// item back until another has begun.
pub trait Gate: Sync {
    /// Lets the task of an item go on. Items are counted from 1. The answer is false where a gate
    /// held the item for as many turns as it has, and then the task goes on all the same.
    fn enter(&self, call: u32) -> bool;
}

/// The gate that holds nothing back.
#[derive(Clone, Copy, Debug)]
pub struct OpenGate;

impl Gate for OpenGate {
    fn enter(&self, _call: u32) -> bool
        ensures { result ≡ true }
    {
        true
    }
}
