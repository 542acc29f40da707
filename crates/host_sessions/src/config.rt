//! What a host is made of.
use share_domain::DomainConfig;

/// The sizes of a host, and its secrets.
#[derive(Clone, Copy, Debug, PartialEq, Eq)]
pub struct HostConfig {
    /// The domain of all sessions. As many sessions as clients may be there at a time.
    pub domain: DomainConfig,
    /// How many questions are remembered: 1 to `MAX_PLACES`.
    pub recent: u32,
    /// What spreads the questions and the fingerprints of frames. Draw it at random and keep it secret.
    pub seed: u64,
    /// The salt of fingerprints, which clients learn: another one than the domain's.
    pub salt: u32,
    /// The most slots of one session.
    pub quota: u32,
    /// The percentage of one processor that clients are asked to use at most, or 0.
    pub client_cpu: u32,
}
