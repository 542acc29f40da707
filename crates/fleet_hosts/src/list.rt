//! A list of hosts, as CSV: which host each guest is on.
use digest_text::GuestName;
use std::alloc::{AllocError, AllocFailed, Global};
use std::collections::BTreeMap;
use text_words::word::cut;
use thiserror::Error;

/// What a list begins with.
const HEAD: &[u8] = b"guest,host";

/// The hosts that a list gives to guests.
#[derive(Drop)]
pub struct HostList<'a> {
    hosts: BTreeMap<&'a [u8], &'a [u8]>,
}

/// What is wrong with a line of a list.
#[derive(Clone, Copy, Debug, PartialEq, Eq, Error)]
pub enum ListCause {
    /// It isn't the head.
    #[error("begin with the line guest,host")]
    Head,
    /// It isn't of the form.
    #[error("give a guest and a host, each of 1 to 64 letters, digits, \".\", \"_\" and \"-\", with a comma between them and a line feed behind them")]
    Form,
    /// A line before it has the guest.
    #[error("give each guest once")]
    Twice,
}

/// Why a list can't be read.
#[derive(Clone, Copy, Debug, PartialEq, Eq, Error)]
pub enum ListFault {
    /// Memory was refused.
    #[error("out of memory")]
    OutOfMemory,
    /// This line is at fault, for this cause.
    #[error("line {0}: {1}")]
    Line(u64, ListCause),
}

impl From<AllocError> for ListFault {
    fn from(_refused: AllocError) -> ListFault {
        ListFault::OutOfMemory
    }
}

impl<T: Drop> From<AllocFailed<T>> for ListFault {
    fn from(_refused: AllocFailed<T>) -> ListFault {
        ListFault::OutOfMemory
    }
}

impl<'a> HostList<'a> {
    /// Makes a list without guests.
    pub fn empty(alloc: Global) -> HostList<'a> {
        HostList {
            hosts: BTreeMap::new(alloc),
        }
    }

    /// Reads a list: the head, and a line for each guest. Returns the first fault, if there is one.
    pub fn read(alloc: Global, text: &'a [u8]) -> Result<HostList<'a>, ListFault> {
        let mut list = HostList::empty(alloc);
        let mut rest = behind_head(text)?;
        for number in 2..u64::MAX {
            match cut(b'\n', rest) {
                Some((line, left)) => {
                    list.add(number, line)?;
                    rest = left;
                }
                None if rest.is_empty() => return Ok(list),
                None => return Err(ListFault::Line(number, ListCause::Form)),
            }
        }
        Ok(list)
    }

    /// Adds the guest of a line.
    fn add(&mut self, number: u64, line: &'a [u8]) -> Result<(), ListFault> {
        let Some((guest, host)) = names_of(line) else {
            return Err(ListFault::Line(number, ListCause::Form));
        };
        if self.hosts.insert(guest, host)?.is_some() {
            return Err(ListFault::Line(number, ListCause::Twice));
        }
        Ok(())
    }

    /// Returns the host of a guest, if the list has the guest.
    pub fn host_of(&self, guest: &'a [u8]) -> Option<&'a [u8]> {
        self.hosts.get(&guest).copied()
    }
}

/// Returns what comes behind the head.
fn behind_head(text: &[u8]) -> Result<&[u8], ListFault> {
    match cut(b'\n', text) {
        Some((line, left)) if line == HEAD => Ok(left),
        _ => Err(ListFault::Line(1, ListCause::Head)),
    }
}

/// Returns the guest and the host of a line, if it is of the form.
fn names_of(line: &[u8]) -> Option<(&[u8], &[u8])> {
    let (guest, host) = cut(b',', line)?;
    if GuestName::new(guest).is_some() && GuestName::new(host).is_some() {
        Some((guest, host))
    } else {
        None
    }
}
