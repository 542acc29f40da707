//! Pages that clients asked about, and the fingerprints of frames.
mod asked;
mod kept;
