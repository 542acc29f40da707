//! The messages between a host of VMM processes and its clients, as bytes.
//!
//! A packet of a connection is one message. What is read from a packet is spelled so, and what is spelled so is read.
#![tactic(auto)]

mod client;
mod fault;
mod host;
mod item;
mod limits;
mod list;
mod numbers;

pub use client::{ClientMessage, Name, Wanted};
pub use fault::MessageFault;
pub use host::{HostMessage, Welcome};
pub use item::{Lent, Packet, Question};
pub use limits::{
    ASK, HEAD_BYTES, HELLO, LEND, LOANS, MAX_IN_MESSAGE, MAX_MESSAGE_BYTES, NAME_BYTES, PASSING,
    RELEASE, SEEN, VERSION, WANTED_BYTES, WELCOME,
};
pub use numbers::limits_law;
