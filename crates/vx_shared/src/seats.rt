use crate::history::Entry;
use vx_election_model::Election;
use vx_events::Event;

/// What a shared center was made from: the election, the events that its center had kept, and the
/// shares and calls of its first pass. No value of it is made: a clause reads an array as a list of
/// any length, and a number as any number.
pub struct Origin {
    pub election: Election,
    pub kept: [Event; 0],
    pub shares: u64,
    pub calls: u64,
}

/// What a seat is doing. A number is the one that it drew.
pub enum Role {
    /// Nothing.
    Idle,
    /// It waits for its turn.
    Waiting(u64),
    /// It has the turn, and found this history.
    Turn(u64, [Entry; 0]),
    /// It has the turn, and has called.
    Committed(u64),
    /// It took over another seat: what that one had seen, the marks of its own calls, its origin.
    Joined([Entry; 0], [bool; 0], Origin),
}

/// What a seat at the table knows: where it comes from, what it does, the history that it has seen,
/// in which a mark for each place says whether that call was its own, and what is left to it. No
/// value of it is made.
pub struct View {
    pub origin: Origin,
    pub role: Role,
    pub seen: [Entry; 0],
    pub own: [bool; 0],
    pub shares: u64,
    pub calls: u64,
}
