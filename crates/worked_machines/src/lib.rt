//! Worked rings, machines and runs, by the public calls of `share_rings` and `merge_run`, and machines that are watched, by those of
//! `watched_machine`. This crate has only tests.
#![tactic(auto)]

#[cfg(test)]
mod answers;
#[cfg(test)]
mod checks;
#[cfg(test)]
mod limits;
#[cfg(test)]
mod makes;
#[cfg(test)]
mod refused;
#[cfg(test)]
mod rings;
#[cfg(test)]
mod rounds;
#[cfg(test)]
mod runs;
#[cfg(test)]
mod watches;
