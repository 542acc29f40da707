//! Worked publishers, watches and machines that are watched, in one thread and in several.
mod config;
mod refused;
mod reports;
mod runs;
mod viewing;
