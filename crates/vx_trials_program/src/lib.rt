//! Trials of the program with its journal: what runs keep in a file stands there as SQLite reads it, and the commands that
//! read the journal tell it, also of one that may not be written; a journal in memory leaves no file. And of the keeper of a
//! file: what it tells as kept is on the disk. Nothing stands on it.
#![tactic(auto)]

#[cfg(test)]
mod files;
#[cfg(test)]
mod journals;
#[cfg(test)]
mod keeper;
#[cfg(test)]
mod kept;
#[cfg(test)]
mod reading;
#[cfg(test)]
mod runs;
#[cfg(test)]
mod sealed;
