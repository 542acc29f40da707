//! Censuses of pages, under a good hash and under hashes that distinguish few pages or none.
mod known;
pub mod pages;
mod reads;
mod room;
mod together;
mod watched;
