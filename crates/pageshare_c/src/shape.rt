//! What a domain is made of.

/// What a domain is made of.
#[repr(C)]
#[derive(Clone, Copy)]
pub struct DomainShape {
    /// How many machines there are.
    pub machines: u32,
    /// How many slots each machine has.
    pub slots: u32,
    /// How many frames each machine has.
    pub frames: u32,
    /// How many clients may be in at a time.
    pub clients: u32,
    /// How many questions are remembered.
    pub recent: u32,
    /// The salt under which pages are hashed.
    pub salt: u32,
    /// What spreads the questions.
    pub seed: u64,
}
