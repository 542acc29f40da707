//! The messages of a host.
mod spelled;
