//! Images of memory: ELF cores of a few pages.
mod files;
mod refused;
