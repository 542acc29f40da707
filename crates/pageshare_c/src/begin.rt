//! Domains that are made, or begun and then made by the frames of their machines.
ghost use Rattle.std.specs.Prelude.{◌≡◌, ◌≢◌, ◌≤◌, ◌==◌, Some, IfOk, IfSome};
ghost use Rattle.machine_frames.specs.FrameMap.{no_frames};
ghost use Rattle.page_model.specs.declared.limits.TheConstants.{MAX_FRAMES};
ghost use Rattle.recent_fingerprints.specs.Notes.{nothing_noted};
ghost use Rattle.pageshare_c.specs.Hosts.{awaits_none, begun_of, frames_awaited, made_of, one_added, AddsFrames, BeginsDomain, MakesDomain};
ghost use Rattle.c_surface.specs.Shapes.{IsFit};
ghost use Rattle.pageshare_c.specs.Shapes.{config_of};

use crate::begun::Begun;
use crate::domain_handle::DomainHandle;
use crate::hashed_domain::HashedDomain;
use crate::hosted::{Hosted, MadeDomain};
use crate::limits::{config_of, make_cause};
use crate::make::{WIDE_SHA256, new_frames};
use crate::shape::DomainShape;
use c_surface::{Handle, put_back, status};
use machine_frames::{Frames, FramesFault, Region};
use recent_fingerprints::RecentFingerprints;
use share_domain::new_frames as new_frames_of_each;
use std::alloc::{AllocError, Global};

/// Makes a domain with frames of its own.
fn new_made(alloc: Global, shape: &DomainShape, hash: u32) -> Result<Box<Hosted>, AllocError>
    requires fit { IsFit (config_of shape.now) shape.now.recent }
    requires hash { hash ≤ WIDE_SHA256 }
    ensures { IfOk result (λ hosted. hosted.value ≡ made_of shape.now hash (nothing_noted shape.now.recent shape.now.clients shape.now.seed)) }
{
    let config = config_of(shape);
    let recent = RecentFingerprints::new(alloc, shape.recent, shape.clients, shape.seed)?;
    let frames = new_frames_of_each(alloc, &config)?;
    let domain = HashedDomain::new(alloc, &config, hash, frames)?;
    let hosted = Box::new(alloc, Hosted::Made(MadeDomain { domain, recent }))?;
    Ok(hosted)
}

/// Makes a domain of this shape, and returns the status.
pub(crate) fn make_domain(
    alloc: Global,
    domain: &mut DomainHandle,
    shape: &DomainShape,
    hash: u32,
) -> u32
    ensures { MakesDomain shape.now hash domain.old.slot.domain domain.new.slot.domain result }
{
    let cause = make_cause(shape, hash, domain.is_live());
    if cause != status::OK {
        return cause;
    }
    match new_made(alloc, shape, hash) {
        Err(_) => status::MEMORY,
        Ok(hosted) => {
            domain.put(hosted);
            status::OK
        }
    }
}

/// Makes a domain that waits for the frames of its machines.
fn new_begun(alloc: Global, shape: &DomainShape, hash: u32) -> Result<Box<Hosted>, AllocError>
    requires fit { IsFit (config_of shape.now) shape.now.recent }
    requires hash { hash ≤ WIDE_SHA256 }
    ensures { IfOk result (λ hosted. hosted.value ≡ begun_of shape.now hash) }
{
    let begun = Begun::new(alloc, shape, hash)?;
    let hosted = Box::new(alloc, Hosted::Begun(begun))?;
    Ok(hosted)
}

/// Begins a domain of this shape in regions of `pages` pages, and returns the status.
pub(crate) fn begin(
    alloc: Global,
    domain: &mut DomainHandle,
    shape: &DomainShape,
    hash: u32,
    pages: usize,
) -> u32
    ensures { BeginsDomain shape.now hash pages domain.old.slot.domain domain.new.slot.domain result }
{
    let cause = make_cause(shape, hash, domain.is_live());
    if cause != status::OK {
        return cause;
    }
    if pages as u64 != u64::from(shape.machines) * u64::from(shape.frames) {
        return status::REGION;
    }
    match new_begun(alloc, shape, hash) {
        Err(_) => status::MEMORY,
        Ok(hosted) => {
            domain.put(hosted);
            status::OK
        }
    }
}

/// Returns how many frames the next machine has, or 0 if the domain waits for none.
fn frames_awaited(hosted: &Hosted) -> u32
    ensures awaited { result ≡ frames_awaited hosted.now }
    ensures none { awaits_none hosted.now ≡ (result == 0) }
    ensures limit { result ≤ MAX_FRAMES }
{
    match hosted {
        Hosted::Begun(begun) => begun.frames(),
        Hosted::Made(_) => 0,
    }
}

/// Gives a domain that was begun the frames of its next machine, and returns the status.
pub(crate) fn add_frames(alloc: Global, domain: &mut DomainHandle, region: Region) -> u32
    ensures { AddsFrames region.pages domain.old.slot.domain domain.new.slot.domain result }
{
    let held = match domain.take(alloc) {
        None => return status::NO_MACHINE,
        Some(held) => held,
    };
    let each = frames_awaited(&held);
    if each == 0 {
        return put_back(domain, held, status::NO_MACHINE);
    }
    let frames = match new_frames(alloc, each, Some(region)) {
        Err(FramesFault::Region) => return put_back(domain, held, status::REGION),
        Err(FramesFault::Frames) => return status::MEMORY,
        Err(FramesFault::OutOfMemory) => return status::MEMORY,
        Ok(frames) => frames,
    };
    match added(alloc, held, frames) {
        None => status::MEMORY,
        Some(hosted) => {
            domain.put(hosted);
            status::OK
        }
    }
}

/// Returns the domain with these frames of its next machine, `None` if memory was refused.
fn added(alloc: Global, held: Box<Hosted>, frames: Frames) -> Option<Box<Hosted>>
    requires awaited { frames_awaited held.value ≢ 0 }
    requires frames { frames ≡ no_frames (frames_awaited held.value) }
    ensures { IfSome result (λ hosted. Some hosted.value ≡ one_added (Some held.value)) }
{
    match Box::into_inner(held) {
        Hosted::Made(_) => None,
        Hosted::Begun(begun) => match begun.add(alloc, frames) {
            None => None,
            Some(next) => match Box::new(alloc, next) {
                Err(_) => None,
                Ok(hosted) => Some(hosted),
            },
        },
    }
}
