//! What is noted.
ghost use Rattle.std.specs.Prelude.{◌≡◌};
ghost use Rattle.recent_fingerprints.specs.Chains.{note_in};

use crate::halves::Halves;
use std::mem::size_of;

/// A page, by its client and by a number that the caller gives to each of the client's pages.
#[derive(Clone, Copy, Debug, PartialEq, Eq)]
pub struct PageName {
    /// The client's number.
    pub client: u32,
    /// The page's number, of the caller's choice.
    pub number: u64,
}

/// A note that a page was asked about, with its fingerprint.
#[derive(Clone, Copy, Debug, PartialEq, Eq)]
pub struct Note {
    /// The fingerprint of the page's content.
    pub fingerprint: u64,
    /// The page.
    pub page: PageName,
    /// The life of the page's client: how many clients with its number have ended, modulo 2^32.
    pub life: u32,
}

// A note in its place, in 28 bytes, and how many notes stand between it and the next older one of its chain. The chain ends if that
// one would be beyond the last place.
#[derive(Clone, Copy)]
pub(crate) struct Place {
    pub(crate) fingerprint: Halves,
    pub(crate) number: Halves,
    pub(crate) life: u32,
    pub(crate) client: u32,
    pub(crate) between: u32,
}

const _: () = prove!(size_of::<Place>() == 28);

impl Place {
    // Puts a note into a place.
    pub(crate) fn of(note: Note, between: u32) -> Place
        ensures note { note_in result ≡ note }
        ensures between { result.between ≡ between }
    {
        Place {
            fingerprint: Halves::of(note.fingerprint),
            number: Halves::of(note.page.number),
            life: note.life,
            client: note.page.client,
            between,
        }
    }

    // Returns the note.
    #[inline]
    pub(crate) fn note(self) -> Note
        ensures { result ≡ note_in self }
    {
        Note {
            fingerprint: self.fingerprint.number(),
            page: PageName {
                client: self.client,
                number: self.number.number(),
            },
            life: self.life,
        }
    }
}
