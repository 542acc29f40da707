//! An entry in 16 bytes.
ghost use Rattle.std.specs.Prelude.{◌≡◌, ◌+◌, ◌<◌, ◌≤◌, ◌^◌, ◌++◌, Some, IfSome, IsSome, is_none, take, drop};
ghost use Rattle.std.specs.Int.{w64, to_be_bytes, from_be_bytes};
ghost use Rattle.packed_entries.specs.Packing.{packed_bytes, packed_shared, packed_hint, unpacked};
ghost use Rattle.packed_entries.specs.Packing.{is_refused, tail_word, hint_word, bits_of, word_at};
ghost use Rattle.packed_entries.specs.Places.{packed_in, with_link};
ghost use Rattle.packed_entries.specs.Keys.{has_key};

use crate::{Entry, Key, U23, U24};

/// What a packed entry has in its 16 bytes: an entry, and the link to the next one of its chain.
#[derive(Clone, Copy, Debug, PartialEq, Eq)]
pub struct Packed {
    /// What is known about the frame.
    pub entry: Entry,
    /// The next entry's place plus 1, or 0 if no entry comes next.
    pub link: U23,
}

impl Packed {
    /// Makes the entry of a shared frame, or returns `None` if the MPN doesn't fit in 24 bits or the link in 23.
    pub fn shared(hash: u64, mpn: u32, count: u16, link: u32) -> Option<Packed>
        ensures { result ≡ packed_shared hash mpn count link }
    {
        let mpn = U24::new(mpn)?;
        let link = U23::new(link)?;
        Some(Packed {
            entry: Entry::Shared { hash, mpn, count },
            link,
        })
    }

    /// Makes the entry of a hint frame, or returns `None` if the PPN or the MPN doesn't fit in 24 bits or the link in 23.
    pub fn hint(key: u32, guest: u8, ppn: u32, mpn: u32, link: u32) -> Option<Packed>
        ensures { result ≡ packed_hint key guest ppn mpn link }
    {
        let ppn = U24::new(ppn)?;
        let mpn = U24::new(mpn)?;
        let link = U23::new(link)?;
        Some(Packed {
            entry: Entry::Hint {
                key,
                guest,
                ppn,
                mpn,
            },
            link,
        })
    }

    /// Returns the bytes: two big-endian words, whose fields are listed here from the most significant bit down. The first word
    /// of a shared frame is the hash; that of a hint frame has the key in 32 bits, the guest in 8, and the PPN in 24. The second
    /// word has the MPN in 24 bits, the count in 16 (0 in a hint frame), the link in 23, and a tag in 1 bit. The tag is 1 in a
    /// shared frame and 0 in a hint frame.
    pub fn write(&self) -> [u8; 16]
        ensures bytes { result ≡ packed_bytes self.now }
        ensures read_back { unpacked result ≡ Some self.now }
    {
        let link = self.link.get();
        match self.entry {
            Entry::Shared { hash, mpn, count } => bytes_of(
                hash,
                tail_word(mpn.get(), count, link, 1),
            ),
            Entry::Hint {
                key,
                guest,
                ppn,
                mpn,
            } => bytes_of(
                hint_word(key, guest, ppn.get()),
                tail_word(mpn.get(), 0, link, 0),
            ),
        }
    }

    /// Reads the packed entry in these bytes. Returns `None` exactly if the tag is 0 and the count isn't.
    pub fn read(bytes: &[u8; 16]) -> Option<Packed>
        ensures packed { result ≡ unpacked bytes.now }
        ensures refused { is_none result ≡ is_refused bytes.now }
        ensures written_back { IfSome result (λ p. packed_bytes p ≡ bytes.now) }
    {
        let first = word_at(bytes, 0);
        let second = word_at(bytes, 8);
        let mpn = U24::of(bits(second, 40, 24));
        let count = bits(second, 24, 16) as u16;
        let link = U23::of(bits(second, 1, 23));
        if bits(second, 0, 1) == 1 {
            let entry = Entry::Shared {
                hash: first,
                mpn,
                count,
            };
            return Some(Packed { entry, link });
        }
        if count != 0 {
            return None;
        }
        let entry = Entry::Hint {
            key: bits(first, 32, 32),
            guest: bits(first, 24, 8) as u8,
            ppn: U24::of(bits(first, 0, 24)),
            mpn,
        };
        Some(Packed { entry, link })
    }

    // Returns the packed entry in bytes that can be read.
    pub(crate) fn of(bytes: &[u8; 16]) -> Packed
        requires { IsSome (unpacked bytes.now) }
        ensures { unpacked bytes.now ≡ Some result }
    {
        match Packed::read(bytes) {
            Some(packed) => packed,
            None => unreachable!(),
        }
    }
}

// Whether the key finds the entry of bytes that can be read. The first word is compared first: it seldom agrees by
// chance, while the tag often does.
#[inline]
pub(crate) fn finds(key: Key, bytes: &[u8; 16]) -> bool
    requires { IsSome (unpacked bytes.now) }
    ensures { result ≡ has_key key (packed_in bytes.now).entry }
{
    let first = word_at(bytes, 0);
    let is_shared = bits(word_at(bytes, 8), 0, 1) == 1;
    match key {
        Key::Shared(hash) => hash == first && is_shared,
        Key::Hint(key) => key == bits(first, 32, 32) && !is_shared,
    }
}

// Returns the link of bytes that can be read.
#[inline]
pub(crate) fn link_of(bytes: &[u8; 16]) -> u32
    requires { IsSome (unpacked bytes.now) }
    ensures value { result ≡ (packed_in bytes.now).link }
    ensures fits { result < 2 ^ 23 }
{
    bits(word_at(bytes, 8), 1, 23)
}

// Returns bytes that can be read, with another link.
#[inline]
pub(crate) fn relinked(bytes: &[u8; 16], link: u32) -> [u8; 16]
    requires read { IsSome (unpacked bytes.now) }
    requires link { link < 2 ^ 23 }
    ensures { unpacked result ≡ Some (with_link (packed_in bytes.now) link) }
{
    let second = word_at(bytes, 8);
    let others = (second >> 24) * (1 << 24) + second % 2;
    bytes_of(word_at(bytes, 0), others + u64::from(link) * 2)
}

// Returns the word of an MPN of 24 bits, a count of 16, a link of 23 and a tag of 1.
fn tail_word(mpn: u32, count: u16, link: u32, tag: u64) -> u64
    requires mpn { mpn < 2 ^ 24 }
    requires link { link < 2 ^ 23 }
    requires tag { tag < 2 }
    ensures value { result ≡ tail_word mpn count link tag }
{
    ((u64::from(mpn) * (1 << 16) + u64::from(count)) * (1 << 23) + u64::from(link)) * 2 + tag
}

// Returns the word of a truncated hash of 32 bits, a guest of 8 and a PPN of 24.
fn hint_word(key: u32, guest: u8, ppn: u32) -> u64
    requires ppn { ppn < 2 ^ 24 }
    ensures value { result ≡ hint_word key guest ppn }
{
    (u64::from(key) * (1 << 8) + u64::from(guest)) * (1 << 24) + u64::from(ppn)
}

// Returns the bytes of two words.
fn bytes_of(first: u64, second: u64) -> [u8; 16]
    ensures { result ≡ to_be_bytes w64 first ++ to_be_bytes w64 second }
{
    let mut bytes = [0; 16];
    bytes[..8].copy_from_slice(&first.to_be_bytes());
    bytes[8..].copy_from_slice(&second.to_be_bytes());
    bytes
}

// Returns the word that begins at byte `at`.
fn word_at(bytes: &[u8; 16], at: usize) -> u64
    requires { at + 8 ≤ 16 }
    ensures { result ≡ word_at bytes.now at }
{
    let (word, _rest) = bytes[at..].split_first_chunk().unwrap();
    u64::from_be_bytes(*word)
}

// Returns the field of `width` bits of a word, with `low` bits below it.
fn bits(word: u64, low: u32, width: u32) -> u32
    requires low { low < 64 }
    requires width { width ≤ 32 }
    ensures { result ≡ bits_of word low width }
{
    ((word >> low) % (1 << width)) as u32
}
