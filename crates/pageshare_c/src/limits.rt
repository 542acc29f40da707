//! Which domains there are.
ghost use Rattle.std.specs.Prelude.{◌≡◌, ◌≤◌};
ghost use Rattle.c_surface.specs.Shapes.{IsFit};
ghost use Rattle.c_surface.specs.declared.status.TheConstants as status;
ghost use Rattle.pageshare_c.specs.Shapes.{config_of, make_cause};

use crate::make::WIDE_SHA256;
use crate::shape::DomainShape;
use c_surface::{shape_status, status};
use share_domain::DomainConfig;

/// Returns the first cause for which no domain is made, or `OK`, if the handle holds one or not.
pub(crate) fn make_cause(shape: &DomainShape, hash: u32, used: bool) -> u32
    ensures cause { result ≡ make_cause shape.now hash used }
    ensures fits { result ≡ status.OK → IsFit (config_of shape.now) shape.now.recent }
    ensures hash { result ≡ status.OK → hash ≤ WIDE_SHA256 }
{
    if used {
        return status::IN_USE;
    }
    if hash > WIDE_SHA256 {
        return status::HASH;
    }
    shape_status(&config_of(shape), shape.recent)
}

/// Returns what share_domain takes of the numbers.
pub(crate) fn config_of(shape: &DomainShape) -> DomainConfig
    ensures { result ≡ config_of shape.now }
{
    DomainConfig {
        machines: shape.machines,
        slots: shape.slots,
        frames: shape.frames,
        clients: shape.clients,
        salt: shape.salt,
    }
}
