//! The memory of processes.
mod memory;
