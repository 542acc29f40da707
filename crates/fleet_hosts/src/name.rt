//! The host that a guest's name begins with.
ghost use Rattle.std.specs.Prelude.{◌≡◌};
ghost use Rattle.fleet_hosts.specs.Hosts.{before_dot};

/// Returns the host of a guest with this name: what comes before the first dot, or the whole name if it has none.
pub fn host_of<'a>(name: &'a [u8]) -> &'a [u8]
    ensures { result.now ≡ before_dot name.now }
{
    for at in 0..name.len() {
        if name[at] == b'.' {
            return &name[..at];
        }
    }
    name
}
