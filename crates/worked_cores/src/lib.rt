//! Worked hashes of pages and machines on one thread, by the public calls of `page_model` up to `merge_core`, and what domains rest on.
//! Besides the tests it has one case of a law that no call shows, `copies`.
#![tactic(auto)]

#[cfg(test)]
mod asks;
#[cfg(test)]
mod by_workers;
#[cfg(test)]
mod checks;
pub mod copies;
#[cfg(test)]
mod domains;
#[cfg(test)]
mod foreseen;
#[cfg(test)]
mod hashes;
#[cfg(test)]
mod limits;
#[cfg(test)]
mod model;
#[cfg(test)]
mod refused;
#[cfg(test)]
mod room;
#[cfg(test)]
mod stores;
