//! The hashes of frames, each computed only if it isn't noted.
ghost use Rattle.std.specs.Prelude.{◌≡◌, ◌==◌, Some};
ghost use Rattle.page_model.specs.Steps.{key_of};
ghost use Rattle.machine_frames.specs.FrameMap as fm;
ghost use Rattle.merge_core.specs.Kept.{OnlyNotes};
ghost use Rattle.merge_core.specs.Pmap.{bytes_in, known_at};
ghost use Rattle.merge_core.specs.View.{guests_of, notes_of, Whole};

use crate::held::Held;
use page_digest::PageHash;
use std::alloc::Allocator;

/// Returns the hash of a page's frame, computed only if it isn't known.
pub fn hash_frame<H: PageHash, A: Allocator>(held: &mut Held<H, A>, mpn: u32, salt: u32) -> u64
    requires whole { Whole H.hash_of held.old }
    requires taken { fm.IsTaken held.old.frames mpn }
    requires salt { (known_at (notes_of held.old) mpn).salt ≡ salt }
    ensures hash { result ≡ H.hash_of salt (bytes_in held.old.frames mpn) }
    ensures kept { OnlyNotes H.hash_of held.old held.new }
    ensures shown { guests_of held.new ≡ guests_of held.old }
{
    if let Some(code) = held.notes.known_hash(mpn) {
        return code;
    }
    let code = held.hash.hash(salt, held.frames.bytes(mpn));
    learn(held, mpn, salt, code);
    code
}

/// Notes a frame's hash.
pub fn learn<H: PageHash, A: Allocator>(held: &mut Held<H, A>, mpn: u32, salt: u32, code: u64)
    requires whole { Whole H.hash_of held.old }
    requires taken { fm.IsTaken held.old.frames mpn }
    requires salt { (known_at (notes_of held.old) mpn).salt ≡ salt }
    requires code { code ≡ H.hash_of salt (bytes_in held.old.frames mpn) }
    ensures kept { OnlyNotes H.hash_of held.old held.new }
    ensures shown { guests_of held.new ≡ guests_of held.old }
    ensures known { known_at (notes_of held.new) mpn ≡ record { salt = salt; hash = Some code } }
{
    held.notes.learn(mpn, salt, code);
}

/// Whether the hash of a frame is noted.
pub fn is_noted<H: PageHash, A: Allocator>(held: &Held<H, A>, mpn: u32) -> bool
    requires whole { Whole H.hash_of held.now }
    requires taken { fm.IsTaken held.now.frames mpn }
{
    held.notes.known_hash(mpn).is_some()
}

/// Whether a frame's present content has this key.
pub fn has_key<H: PageHash, A: Allocator>(
    held: &mut Held<H, A>,
    mpn: u32,
    salt: u32,
    key: u32,
) -> bool
    requires whole { Whole H.hash_of held.old }
    requires taken { fm.IsTaken held.old.frames mpn }
    requires salt { (known_at (notes_of held.old) mpn).salt ≡ salt }
    ensures key { result ≡ (key_of (H.hash_of salt (bytes_in held.old.frames mpn)) == key) }
    ensures kept { OnlyNotes H.hash_of held.old held.new }
    ensures shown { guests_of held.new ≡ guests_of held.old }
{
    let code = hash_frame(held, mpn, salt);
    key_of(code) == key
}

/// Returns the low 32 bits of a hash.
pub fn key_of(code: u64) -> u32
    ensures { result ≡ key_of code }
{
    (code % 4_294_967_296) as u32
}
