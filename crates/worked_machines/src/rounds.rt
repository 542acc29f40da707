//! Rounds of the merger: guest by guest in turn, and with enough proposals for a second worker.
mod in_turn;
mod many;
