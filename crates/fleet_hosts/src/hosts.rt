//! Guests by their hosts.
ghost use Rattle.std.specs.Prelude.{◌≡◌, ◌≤◌, IfOk, [], length, map, vec_capacity};
ghost use Rattle.std.specs.Str.{bytes_eq};
ghost use Rattle.fleet_hosts.specs.Hosts.{first_equal, guests_of};

use std::alloc::{AllocError, Allocator};

/// Returns whether two names are equal.
fn is_same(name: &[u8], other: &[u8]) -> bool
    ensures { result ≡ bytes_eq name.now other.now }
{
    name == other
}

/// Returns the number of the first of these names that is equal to this one, or how many names there are if none is.
fn first_equal(names: &[&[u8]], name: &[u8]) -> usize
    ensures value { result ≡ first_equal name.now names.now }
    ensures within { result ≤ length names.now }
{
    for at in 0..names.len() {
        if is_same(names[at], name) {
            return at;
        }
    }
    names.len()
}

/// Returns the number of each guest's host, if the guests' hosts have these names. A host has the number of its first guest: guests
/// whose hosts have one name have one number, and others have others.
pub fn hosts_of<A: Allocator>(alloc: A, names: &[&[u8]]) -> Result<Vec<usize, A>, AllocError>
    ensures { IfOk result (λ hosts. hosts.items ≡ map (λ name. first_equal name.now names.now) names.now) }
{
    let mut hosts = Vec::with_capacity(alloc, names.len())?;
    for name in names {
        hosts.push_reserved(first_equal(names, name));
    }
    Ok(hosts)
}

/// Returns the numbers of the guests that are on a host, rising. `hosts` has the number of each guest's host.
pub fn guests_on<A: Allocator>(
    alloc: A,
    hosts: &[usize],
    host: usize,
) -> Result<Vec<usize, A>, AllocError>
    ensures { IfOk result (λ guests. guests.items ≡ guests_of host hosts.now) }
{
    let mut guests = Vec::with_capacity(alloc, hosts.len())?;
    push_guests(&mut guests, hosts, host);
    Ok(guests)
}

/// Appends the numbers of the guests that are on a host.
fn push_guests<A: Allocator>(guests: &mut Vec<usize, A>, hosts: &[usize], host: usize)
    requires empty { guests.old.items ≡ [] }
    requires room { length hosts.now ≤ vec_capacity guests.old }
    ensures { guests.new.items ≡ guests_of host hosts.now }
{
    for at in 0..hosts.len() {
        if hosts[at] == host {
            guests.push_reserved(at);
        }
    }
}
