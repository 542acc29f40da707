//! Texts that are merged, for the tests.
use crate::checks::holds;
use digest_text::{Cause, DigestReader, ReadFault};
use fleet_census::{FleetFault, FleetNumbers, Pairs, merge};
use std::alloc::{Allocator, Global};
use std::process::Abort;

/// Why a merge has no numbers, as plain data: the file's number, with the line and its cause.
#[derive(Clone, Copy, Debug, PartialEq, Eq)]
pub enum Refusal {
    OutOfMemory,
    TooManyDigests,
    TooManyPages,
    OtherSample(usize),
    Read(usize),
    Line(usize, u64, Cause),
}

fn refusal_of(fault: FleetFault) -> Refusal {
    match fault {
        FleetFault::OutOfMemory => Refusal::OutOfMemory,
        FleetFault::TooManyDigests => Refusal::TooManyDigests,
        FleetFault::TooManyPages => Refusal::TooManyPages,
        FleetFault::OtherSample(file) => Refusal::OtherSample(file),
        FleetFault::Read(file, _error) => Refusal::Read(file),
        FleetFault::Line(file, fault) => Refusal::Line(file, fault.line, fault.cause),
    }
}

fn read_refusal(file: usize, fault: ReadFault) -> Refusal {
    match fault {
        ReadFault::OutOfMemory => Refusal::OutOfMemory,
        ReadFault::Read(_error) => Refusal::Read(file),
        ReadFault::Line(fault) => Refusal::Line(file, fault.line, fault.cause),
    }
}

/// Merges texts, all with memory of this allocator but for the list of their readers.
pub fn merge_texts<A: Allocator + Copy>(
    rt: &impl Abort,
    memory: A,
    global: Global,
    texts: &[&[u8]],
    pairs: Pairs,
) -> Result<FleetNumbers<A>, Refusal> {
    let mut readers = Vec::with_capacity(global, texts.len())
        .ok()
        .expect(rt, "room");
    for (file, text) in texts.iter().enumerate() {
        match DigestReader::new(memory, *text) {
            Ok(reader) => holds(rt, readers.push(reader).is_ok()),
            Err(fault) => return Err(read_refusal(file, fault)),
        }
    }
    holds(rt, !readers.is_empty());
    merge(memory, &mut readers, pairs).map_err(refusal_of)
}
