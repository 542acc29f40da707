//! Hosts that are begun, and then made by the frames of their machines.
ghost use Rattle.std.specs.Prelude.{◌≡◌, ◌≢◌, ◌≤◌, ◌==◌, Some, IfOk, IfSome};
ghost use Rattle.machine_frames.specs.FrameMap.{no_frames};
ghost use Rattle.page_model.specs.declared.limits.TheConstants.{MAX_FRAMES};
ghost use Rattle.pageshare_host_c.specs.Hosts.{awaits_none, frames_awaited, one_added, AddsFrames, BeginsHost};
ghost use Rattle.pageshare_host_c.specs.declared.hosted.Hosted.TheVariants as hosted;
ghost use Rattle.pageshare_host_c.specs.Shapes.{IsFit};

use crate::handle::HostHandle;
use crate::hosted::Hosted;
use crate::shape::{HostShape, begin_cause};
use crate::waiting::Waiting;
use c_surface::{Handle, put_back, status};
use machine_frames::{Frames, FramesFault, Region};
use std::alloc::{AllocError, Global};

/// Makes a host that waits for the frames of its machines.
fn new_waiting(alloc: Global, shape: &HostShape) -> Result<Box<Hosted>, AllocError>
    requires { IsFit shape.now }
    ensures { IfOk result (λ boxed. boxed.value ≡ hosted.Waiting (record { shape = shape.now; given = 0 })) }
{
    let waiting = Waiting::new(alloc, shape)?;
    let boxed = Box::new(alloc, Hosted::Waiting(waiting))?;
    Ok(boxed)
}

/// Begins a host of this shape, and returns the status.
pub(crate) fn begin(alloc: Global, host: &mut HostHandle, shape: &HostShape) -> u32
    ensures { BeginsHost shape.now host.old.slot.host host.new.slot.host result }
{
    let cause = begin_cause(shape, host.is_live());
    if cause != status::OK {
        return cause;
    }
    match new_waiting(alloc, shape) {
        Err(_) => status::MEMORY,
        Ok(boxed) => {
            host.put(boxed);
            status::OK
        }
    }
}

/// Returns how many frames the next machine has, or 0 if the host waits for none.
fn frames_awaited(hosted: &Hosted) -> u32
    ensures awaited { result ≡ frames_awaited hosted.now }
    ensures none { awaits_none hosted.now ≡ (result == 0) }
    ensures limit { result ≤ MAX_FRAMES }
{
    match hosted {
        Hosted::Waiting(waiting) => waiting.frames(),
        Hosted::Made(_) => 0,
    }
}

/// Gives a host that was begun the frames of its next machine, and returns the status.
pub(crate) fn add_frames(alloc: Global, host: &mut HostHandle, region: Region) -> u32
    ensures { AddsFrames region.pages host.old.slot.host host.new.slot.host result }
{
    let held = match host.take(alloc) {
        None => return status::NO_MACHINE,
        Some(held) => held,
    };
    let each = frames_awaited(&held);
    if each == 0 {
        return put_back(host, held, status::NO_MACHINE);
    }
    let frames = match Frames::in_region(alloc, each, region) {
        Err(FramesFault::Region) => return put_back(host, held, status::REGION),
        Err(FramesFault::Frames) => return status::MEMORY,
        Err(FramesFault::OutOfMemory) => return status::MEMORY,
        Ok(frames) => frames,
    };
    match added(alloc, held, frames) {
        None => status::MEMORY,
        Some(next) => {
            host.put(next);
            status::OK
        }
    }
}

/// Returns the host with these frames of its next machine, `None` if memory was refused.
fn added(alloc: Global, held: Box<Hosted>, frames: Frames) -> Option<Box<Hosted>>
    requires awaited { frames_awaited held.value ≢ 0 }
    requires frames { frames ≡ no_frames (frames_awaited held.value) }
    ensures { IfSome result (λ next. Some next.value ≡ one_added (Some held.value)) }
{
    match Box::into_inner(held) {
        Hosted::Made(_) => None,
        Hosted::Waiting(waiting) => match waiting.add(alloc, frames) {
            None => None,
            Some(next) => match Box::new(alloc, next) {
                Err(_) => None,
                Ok(boxed) => Some(boxed),
            },
        },
    }
}
