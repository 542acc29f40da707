//! The numbers of a fleet by host: each host's guests are merged by themselves.
use crate::command_fault::{Cause, CommandFault};
use crate::fleet::opened::{Digest, read_header};
use crate::reading::Reading;
use command_terms::{FleetWords, line_where};
use digest_text::DigestHead;
use fleet_census::{FleetTotal, Pairs, merge};
use fleet_hosts::{HostList, guests_on, host_of, hosts_of};
use report_text::FleetHost;
use std::alloc::{AllocError, Global};
use std::fs::{self, File, Files};
use std::io::{Eprint, Read};
use std::time::Clock;

/// The guests that are on some host, and where they are. A digest without lines has no guest.
#[derive(Drop)]
pub struct Hosts<'a> {
    /// The number of each guest's digest.
    digests: Vec<usize>,
    /// The name of each guest.
    guests: Vec<&'a [u8]>,
    /// The name of each guest's host.
    names: Vec<&'a [u8]>,
    /// The number of each guest's host: that of its first guest.
    numbers: Vec<usize>,
}

/// Reads the list of hosts, if there is one.
pub fn hosts_text<'a, R: Files<File = File>>(
    rt: &R,
    alloc: Global,
    words: &FleetWords<'a>,
) -> Result<Vec<u8>, CommandFault<'a>> {
    match words.hosts {
        Some(path) => read_list(rt, alloc, path).map_err(|cause| CommandFault::of_file(
            path, cause,
        )),
        None => Ok(Vec::new(alloc)),
    }
}

/// Reads a whole file.
fn read_list<R: Files<File = File>>(rt: &R, alloc: Global, path: &str) -> Result<Vec<u8>, Cause> {
    let mut file = fs::open(rt, path)?;
    let mut text = Vec::new(alloc);
    file.read_to_end(&mut text)?;
    Ok(text)
}

impl<'a> Hosts<'a> {
    /// Returns where the guests of these digests are: as the list says, and else by their names. `list` is the text of the list, if the
    /// words ask for one.
    pub fn of<'w>(
        alloc: Global,
        words: &FleetWords<'w>,
        heads: &[Option<&'a DigestHead>],
        list: &'a [u8],
    ) -> Result<Hosts<'a>, CommandFault<'w>> {
        match words.hosts {
            Some(path) => match HostList::read(alloc, list) {
                Ok(list) => Hosts::listed(alloc, heads, &list).map_err(
                    |refused| CommandFault::of_file(path, Cause::from(refused)),
                ),
                Err(fault) => Err(CommandFault::of_file(path, Cause::from(fault))),
            },
            None => Hosts::listed(alloc, heads, &HostList::empty(alloc)).map_err(
                |refused| CommandFault::of_fleet(words, Cause::from(refused)),
            ),
        }
    }

    /// Returns where guests are by a list, and by their names if the list doesn't have them.
    fn listed(
        alloc: Global,
        heads: &[Option<&'a DigestHead>],
        list: &HostList<'a>,
    ) -> Result<Hosts<'a>, AllocError> {
        let mut digests = Vec::new(alloc);
        let mut guests = Vec::new(alloc);
        let mut names = Vec::new(alloc);
        for (digest, head) in heads.iter().enumerate() {
            if let Some(head) = head {
                let guest = head.guest.as_bytes();
                digests.push(digest)?;
                guests.push(guest)?;
                names.push(list.host_of(guest).unwrap_or(host_of(guest)))?;
            }
        }
        let numbers = hosts_of(alloc, &names)?;
        Ok(Hosts {
            digests,
            guests,
            names,
            numbers,
        })
    }

    /// Returns the numbers of the digests of a host's guests.
    fn digests_on(&self, alloc: Global, number: usize) -> Result<Vec<usize>, AllocError> {
        let mut digests = Vec::new(alloc);
        for guest in guests_on(alloc, &self.numbers, number)? {
            if let Some(digest) = self.digests.get(guest) {
                digests.push(*digest)?;
            }
        }
        Ok(digests)
    }

    /// Whether two guests of different names are on one host. Where hosts are known by names alone, these are names of hosts only then:
    /// the name of an image's file may have a dot, too.
    fn has_company(&self) -> bool {
        for (guest, number) in self.guests.iter().zip(&self.numbers) {
            if self.guests.get(*number) != Some(guest) {
                return true;
            }
        }
        false
    }

    /// Returns how many hosts there are.
    fn count(&self) -> usize {
        let mut count: usize = 0;
        for (guest, number) in self.numbers.iter().enumerate() {
            if *number == guest {
                count = count.saturating_add(1);
            }
        }
        count
    }
}

/// Counts what is in the digests of each host together, if there are two hosts or more, and names alone say so only if two guests are on
/// one of them. The digests are opened and read again. If
/// they can't be, `again` is false; then that is a fault if the words ask for hosts.
pub fn count_hosts<'a, 'h, R: Files<File = File> + Eprint + Clock>(
    rt: &R,
    alloc: Global,
    words: &FleetWords<'a>,
    hosts: &Hosts<'h>,
    again: bool,
    is_terminal: bool,
) -> Result<Vec<FleetHost<'h>>, CommandFault<'a>> {
    if hosts.count() < 2 || words.hosts.is_none() && !hosts.has_company() {
        return Ok(Vec::new(alloc));
    }
    if !again {
        return match words.hosts {
            Some(_path) => Err(CommandFault::of_fleet(words, Cause::ReadOnce)),
            None => Ok(Vec::new(alloc)),
        };
    }
    let reading = Reading::of_bytes(line_where(rt, words.progress, is_terminal), 0);
    let counted = count_each(rt, alloc, words, hosts, &reading);
    reading.end();
    counted
}

/// Counts what is in the digests of each host.
fn count_each<'a, 'h, 'r, R: Files<File = File> + Eprint + Clock>(
    rt: &R,
    alloc: Global,
    words: &FleetWords<'a>,
    hosts: &Hosts<'h>,
    reading: &'r Reading<'r, R>,
) -> Result<Vec<FleetHost<'h>>, CommandFault<'a>> {
    let out_of_memory = |refused| CommandFault::of_fleet(words, Cause::from(refused));
    let mut counted = Vec::with_capacity(alloc, hosts.names.len()).map_err(out_of_memory)?;
    for (guest, name) in hosts.names.iter().enumerate() {
        if hosts.numbers.get(guest) == Some(&guest) {
            let digests = hosts.digests_on(alloc, guest).map_err(out_of_memory)?;
            let total = merge_again(rt, alloc, words, &digests, reading)?;
            // A name has only characters of ASCII.
            let name = str::from_utf8(name).unwrap_or("-");
            let host = FleetHost {
                name,
                guests: digests.len(),
                total,
            };
            counted.push(host).map_err(|refused| CommandFault::of_fleet(
                words,
                Cause::from(refused),
            ))?;
        }
    }
    Ok(counted)
}

/// Opens these digests again, and counts what is in them together.
fn merge_again<'a, 'r, R: Files<File = File> + Eprint + Clock>(
    rt: &R,
    alloc: Global,
    words: &FleetWords<'a>,
    digests: &[usize],
    reading: &'r Reading<'r, R>,
) -> Result<FleetTotal, CommandFault<'a>> {
    let mut readers = Vec::new(alloc);
    for digest in digests {
        let path = words.digest_of(*digest);
        open_again(rt, alloc, path, reading, &mut readers).map_err(|cause| CommandFault::of_file(
            path, cause,
        ))?;
    }
    if readers.is_empty() {
        return Err(CommandFault::of_fleet(words, Cause::NoDigest));
    }
    match merge(alloc, &mut readers, Pairs::Omitted) {
        Ok(numbers) => Ok(numbers.total),
        Err(fault) => match fault.file().and_then(|file| digests.get(file).copied()) {
            Some(digest) => Err(CommandFault::of_file(words.digest_of(digest), Cause::from(fault))),
            None => Err(CommandFault::of_fleet(words, Cause::from(fault))),
        },
    }
}

/// Opens a digest again, reads its header and appends it to the others.
fn open_again<'r, R: Files<File = File> + Eprint + Clock>(
    rt: &R,
    alloc: Global,
    path: &str,
    reading: &'r Reading<'r, R>,
    readers: &mut Vec<Digest<'r, R>>,
) -> Result<(), Cause> {
    read_header(alloc, fs::open(rt, path)?, reading, readers)
}
