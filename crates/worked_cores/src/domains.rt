//! Worked slots, domains, fingerprints and messages, by the public calls of `lent_slots`, `share_domain`, `recent_fingerprints`,
//! `frame_fingerprints` and `host_messages`.
mod counted;
mod fingerprints;
mod frames;
mod given;
mod limits;
mod salts;
mod sessions;
mod slots;
