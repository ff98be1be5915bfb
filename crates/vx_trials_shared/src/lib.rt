//! Trials of a shared center: what it answers to three calls of two passes, worked by hand; eight threads
//! that wait for their turns and are woken; two scripts as items of `run_items`, side by side. Nothing stands on it.
#![tactic(auto)]

#[cfg(test)]
mod calls;
#[cfg(test)]
mod ended;
#[cfg(test)]
mod hall;
#[cfg(test)]
mod side_by_side;
#[cfg(test)]
mod threads;
