//! Laws for the proofs of commands. These functions do nothing; their contracts are the laws. A body
//! that calls one has its laws among the facts of that call, and hands them to its lemmas.

ghost use Rattle.vx_command.specs.Asking.{AskLaws};
ghost use Rattle.vx_command.specs.Images.{ScannedImagesAreWhole};
ghost use Rattle.vx_command.specs.Kept.{RecordsInOrder};
ghost use Rattle.vx_command.specs.Laws.{ActLaws, StepLaws, TakenElectionsAreValid};
ghost use Rattle.vx_command.specs.Texts.{TextsInOrder};

use vx_election::defined_elections_are_valid;
use vx_io::{Inputs, questions_asked};
use vx_pbm::images_are_whole;

/// Acts that are done, or broken off, and then the rest of a command.
pub fn acts_in_order()
    ensures { ActLaws }
{}

/// A step that gives a command something to go on with, or halts it.
pub fn steps_in_order<T>()
    ensures { StepLaws T }
{}

/// Inputs that are asked for one after the other.
pub fn asks_in_order<I: Inputs>()
    ensures { AskLaws I.Inputs }
{
    questions_asked();
}

/// However far a command has come, it wrote the texts of its acts in order.
pub fn texts_in_order()
    ensures { TextsInOrder }
{}

/// However far a command has come, a keeper holds the records that were there and a front of the command's,
/// all of them unless it broke off.
pub fn records_in_order()
    ensures { RecordsInOrder }
{}

/// The election that a command takes is valid.
pub fn taken_elections_are_valid()
    ensures { TakenElectionsAreValid }
{
    defined_elections_are_valid();
}

/// Each image of the scans that a command reads is whole.
pub fn scanned_images_are_whole()
    ensures { ScannedImagesAreWhole }
{
    images_are_whole();
}
