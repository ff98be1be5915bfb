//! Trials of scans of printed pages, each command called alone: other forms of scans that are read; sheets of two cards, and
//! backs that lie upside down, that are counted; `try` and `desk` by hand, with scans that aren't there or aren't bitmaps and
//! devices that fail. Nothing stands on it.
#![tactic(auto)]

#[cfg(test)]
mod desk_printed;
#[cfg(test)]
mod desk_worked;
#[cfg(test)]
mod desks;
#[cfg(test)]
mod devices;
#[cfg(test)]
mod forms;
#[cfg(test)]
mod pages;
#[cfg(test)]
mod pages_pinned;
#[cfg(test)]
mod sheets;
#[cfg(test)]
mod tries;
#[cfg(test)]
mod try_worked;
