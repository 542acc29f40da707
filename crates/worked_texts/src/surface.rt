//! Each call of the interface as it was ordered, once.
mod cores;
mod machines;
mod model;
mod reports;
mod rings;
mod runs;
mod stores;
mod texts;
