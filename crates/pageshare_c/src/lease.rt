//! Clients that enter, release their slots and leave.
ghost use Rattle.std.specs.Prelude.{◌≡◌, Some};
ghost use Rattle.pageshare_c.specs.Leases.{after_enter, after_release_at, client_after, enter_status, freed_after, release_status, LeavesAt};

use crate::hosted::Hosted;
use c_surface::status;
use share_domain::{Slot, frame_number};

/// Lets a client in, writes its number to `client`, and returns the status.
pub(crate) fn enter(hosted: &mut Hosted, client: &mut u32) -> u32
    ensures status { result ≡ enter_status (Some hosted.old) }
    ensures client { client.new ≡ client_after client.old (Some hosted.old) }
    ensures now { Some hosted.new ≡ after_enter (Some hosted.old) }
{
    match hosted {
        Hosted::Begun(_) => status::NO_MACHINE,
        Hosted::Made(made) => match made.domain.enter() {
            None => status::NO_ROOM,
            Some(number) => {
                *client = number;
                status::OK
            }
        },
    }
}

/// Releases a client's slot, writes the frame that is free since to `freed`, and returns the status.
pub(crate) fn release(hosted: &mut Hosted, client: u32, slot: Slot, freed: &mut u32) -> u32
    ensures status { result ≡ release_status client slot (Some hosted.old) }
    ensures freed { freed.new ≡ freed_after client slot freed.old (Some hosted.old) }
    ensures now { Some hosted.new ≡ after_release_at client slot (Some hosted.old) }
{
    match hosted {
        Hosted::Begun(_) => status::NO_MACHINE,
        Hosted::Made(made) => match made.domain.release(client, slot) {
            Err(_) => status::NOT_ITS_SLOT,
            Ok(frame) => {
                *freed = frame_number(frame);
                status::OK
            }
        },
    }
}

/// Releases slots of a client that leaves, writes to `freed` the frames that are free since and to `count` how many slots there were, and
/// returns the status.
pub(crate) fn leave(hosted: &mut Hosted, client: u32, freed: &mut [u32], count: &mut usize) -> u32
    ensures { LeavesAt client result freed.old freed.new count.old count.new (Some hosted.old) (Some hosted.new) }
{
    match hosted {
        Hosted::Begun(_) => status::NO_MACHINE,
        Hosted::Made(made) => {
            if freed.is_empty() {
                return status::LENGTH;
            }
            match made.domain.leave(client, freed) {
                None => status::NO_CLIENT,
                Some(released) => {
                    made.recent.forget(client);
                    *count = released;
                    status::OK
                }
            }
        }
    }
}
