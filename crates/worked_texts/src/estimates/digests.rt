//! Worked digests: refused memory, and reads of a process of which some fail.
mod fleets;
mod lists;
mod live;
