//! Trials of cards and their pages: `cards` by hand, with accents, blanks, control characters, cut words, choices that look
//! alike, a card that can't be planned, and devices that fail; simulated scans of the town's pages, and how they are read.
//! Nothing stands on it.
#![tactic(auto)]

#[cfg(test)]
mod cards_worked;
#[cfg(test)]
mod simulated;
