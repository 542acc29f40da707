//! The engines of `share_text` with readers and writers that fail, and with memory refused; each call of the interface as it was
//! ordered; and estimates, digests and fleets. This crate has only tests.
#![tactic(auto)]

#[cfg(test)]
mod calls;
#[cfg(test)]
mod checks;
#[cfg(test)]
mod engine;
#[cfg(test)]
mod estimates;
#[cfg(test)]
mod journals;
#[cfg(test)]
mod once;
#[cfg(test)]
mod reading;
#[cfg(test)]
mod refusals;
#[cfg(test)]
mod scripts;
#[cfg(test)]
mod surface;
#[cfg(test)]
mod writing;
