//! Worked runs: the public call `merge_run::run`, which starts a thread for each guest.
mod answers;
mod counting;
mod makes;
mod many;
mod meeting;
mod plain;
mod refused;
mod replays;
