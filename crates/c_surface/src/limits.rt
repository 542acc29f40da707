//! Which domains there are.
ghost use Rattle.std.specs.Prelude.{◌≡◌};
ghost use Rattle.c_surface.specs.Shapes.{shape_status, IsFit};
ghost use Rattle.c_surface.specs.declared.status.TheConstants as status;

use crate::faults::domain_status;
use crate::status;
use recent_fingerprints::MAX_PLACES;
use share_domain::{DomainConfig, limit_fault};

/// Returns the status of the first number that no domain has, or `OK`. A domain remembers `recent` questions.
pub fn shape_status(config: &DomainConfig, recent: u32) -> u32
    ensures status { result ≡ shape_status config.now recent }
    ensures fits { result ≡ status.OK → IsFit config.now recent }
{
    if let Some(fault) = limit_fault(config) {
        return domain_status(fault);
    }
    if recent == 0 || recent > MAX_PLACES {
        return status::RECENT;
    }
    status::OK
}
