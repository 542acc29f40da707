//! The world of events as a program.
mod events;
