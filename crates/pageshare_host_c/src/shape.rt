//! What a host is made of, as C says it.
ghost use Rattle.std.specs.Prelude.{◌≡◌};
ghost use Rattle.c_surface.specs.declared.status.TheConstants as status;
ghost use Rattle.pageshare_host_c.specs.Shapes.{begin_cause, config_of, IsFit};

use c_surface::{shape_status, status};
use host_sessions::HostConfig;
use share_domain::DomainConfig;

/// What a host is made of.
#[repr(C)]
#[derive(Clone, Copy)]
pub struct HostShape {
    /// How many machines there are.
    pub machines: u32,
    /// How many slots each machine has.
    pub slots: u32,
    /// How many frames each machine has.
    pub frames: u32,
    /// How many sessions there may be at a time.
    pub sessions: u32,
    /// How many questions are remembered.
    pub recent: u32,
    /// The most slots of one session.
    pub quota: u32,
    /// The salt under which pages are hashed.
    pub salt: u32,
    /// The salt of fingerprints.
    pub fingerprints: u32,
    /// What spreads the questions.
    pub seed: u64,
    /// The percentage of one processor that clients are asked to use at most, or 0.
    pub client_cpu: u32,
    /// Not read.
    pub reserved: u32,
}

/// Returns the first cause for which no host is begun, or `OK`, if the handle holds one or not.
pub(crate) fn begin_cause(shape: &HostShape, used: bool) -> u32
    ensures cause { result ≡ begin_cause shape.now used }
    ensures fits { result ≡ status.OK → IsFit shape.now }
{
    if used {
        return status::IN_USE;
    }
    shape_status(&config_of(shape).domain, shape.recent)
}

/// Returns what a host is made of.
pub(crate) fn config_of(shape: &HostShape) -> HostConfig
    ensures { result ≡ config_of shape.now }
{
    HostConfig {
        domain: DomainConfig {
            machines: shape.machines,
            slots: shape.slots,
            frames: shape.frames,
            clients: shape.sessions,
            salt: shape.salt,
        },
        recent: shape.recent,
        seed: shape.seed,
        salt: shape.fingerprints,
        quota: shape.quota,
        client_cpu: shape.client_cpu,
    }
}
