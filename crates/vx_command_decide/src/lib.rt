//! The command `decide`: the decisions of a script, line by line. Each accepted line's event is
//! appended to the journal, and then its line is written; the first line that is refused ends the
//! command, and all before it stands.
//!
//! What a line says stands in `vx_script`, what the command does as a whole in
//! `specs/Outcome.antt`. That the journal stays one whatever stands of the command is the law of
//! `specs/Laws.antt`.
#![tactic(auto)]

mod deciding;
mod laws;
mod lines;

pub use deciding::decide;
pub use laws::decide_keeps_journals;
