//! A law about the definitions alone.
ghost use Rattle.fleet_hosts.specs.Laws.{HostsLaw};

/// *Sharing on each host reclaims no more than sharing in one pool*, whichever host each guest is on. The sum over all hosts of
/// what sharing reclaims there is at most what it reclaims of all guests on one host. It is about whole digests, which have a
/// sample of 1.
pub fn hosts_law()
    ensures { HostsLaw }
{}
