//! Questions about pages.
ghost use Rattle.std.specs.Prelude.{◌≡◌, Some};
ghost use Rattle.c_surface.specs.declared.status.TheConstants as status;
ghost use Rattle.pageshare_c.specs.Asked.{asked, seen_after};
ghost use Rattle.pageshare_c.specs.Hosts.{made_status};

use crate::hosted::Hosted;
use c_surface::status;
use recent_fingerprints::PageName;

/// Asks about a page, writes the answer to `seen`, and returns the status.
pub(crate) fn ask(hosted: &mut Hosted, page: PageName, fingerprint: u64, seen: &mut u8) -> u32
    ensures status { result ≡ made_status (λ m. status.OK) (Some hosted.old) }
    ensures seen { seen.new ≡ seen_after page fingerprint seen.old (Some hosted.old) }
    ensures noted { Some hosted.new ≡ asked page fingerprint (Some hosted.old) }
{
    match hosted {
        Hosted::Begun(_) => status::NO_MACHINE,
        Hosted::Made(made) => {
            *seen = u8::from(made.recent.ask(page, fingerprint));
            status::OK
        }
    }
}
