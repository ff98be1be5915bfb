//! What all commands share: why a command halts, the status that the program ends with and what it
//! says of it, and the steps that many commands do.
//!
//! What a command does to the outside is its outcome, acts in order and an end (`specs/Acts.antt`);
//! how far it has come when it answers stands in `specs/Done.antt`, what it leaves of the devices'
//! counts of faults in `specs/Devices.antt`, which inputs it asks in `specs/Asking.antt`, and what a
//! step may answer in `specs/Steps.antt`. The functions of `laws` promise the laws of
//! `specs/Laws.antt` and `specs/Asking.antt`, with which a command's proof goes from act to act.
#![tactic(auto)]

mod causes;
mod halt;
mod laws;
mod plans;
mod status;
mod taking;
mod writing;

pub use causes::SheetCause;
pub use halt::{Halt, halt_of_bitmap, halt_of_card};
pub use laws::{
    acts_in_order, asks_in_order, records_in_order, scanned_images_are_whole, steps_in_order,
    taken_elections_are_valid, texts_in_order,
};
pub use plans::plan_all;
pub use status::{Message, Status, status_of};
pub use taking::{INPUT_LIMIT, take_election, take_input};
pub use writing::write_text;
