//! What entries are found by.
ghost use Rattle.std.specs.Prelude.{◌≡◌, ◌<◌, ◌^◌, Some, IfSome};
ghost use Rattle.packed_entries.specs.Keys.{truncated, key_of, shared_parts, hint_parts};

use crate::Entry;

/// What a table finds an entry by.
#[derive(Clone, Copy, Debug, PartialEq, Eq)]
pub enum Key {
    /// The entry of a shared frame, by the hash of its content.
    Shared(u64),
    /// The entry of a hint frame, by its key.
    Hint(u32),
}

impl Key {
    // Returns the low 32 bits of a hash, or a hint's key.
    pub(crate) fn truncated(self) -> u32
        ensures { result ≡ truncated self }
    {
        match self {
            Key::Shared(hash) => (hash % (1 << 32)) as u32,
            Key::Hint(key) => key,
        }
    }
}

impl Entry {
    // Returns what the entry is found by.
    pub(crate) fn key(&self) -> Key
        ensures { result ≡ key_of self.now }
    {
        match *self {
            Entry::Shared { hash, .. } => Key::Shared(hash),
            Entry::Hint { key, .. } => Key::Hint(key),
        }
    }

    // Returns the MPN and the count of a shared frame.
    pub(crate) fn shared(&self) -> Option<(u32, u16)>
        ensures parts { result ≡ shared_parts (Some self.now) }
        ensures fits { IfSome result (λ shared. shared.0 < 2 ^ 24) }
    {
        match *self {
            Entry::Shared { mpn, count, .. } => Some((mpn.get(), count)),
            Entry::Hint { .. } => None,
        }
    }

    // Returns the guest, the PPN and the MPN of a hint frame.
    pub(crate) fn hint(&self) -> Option<(u8, u32, u32)>
        ensures { result ≡ hint_parts (Some self.now) }
    {
        match *self {
            Entry::Shared { .. } => None,
            Entry::Hint {
                guest,
                ppn,
                mpn,
                ..
            } => Some((guest, ppn.get(), mpn.get())),
        }
    }
}
