//! Worked publishers and watches without a machine, in one thread and in several.
mod console;
mod makes;
mod places;
mod published;
mod refused;
