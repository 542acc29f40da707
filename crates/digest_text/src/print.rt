//! Lines of a digest, appended to a buffer.
//!
//! Each `push_` function says how many bytes it appends at most. So room that was made for a longest line is always enough.
ghost use Rattle.std.specs.Prelude.{◌≡◌, ◌+◌, ◌*◌, ◌<◌, ◌≤◌, ◌++◌, codes, decimal, length, vec_len, vec_capacity, IfOk, OnOk, OnErr};
ghost use Rattle.hex.specs.Hex.{encode_lower};
ghost use Rattle.digest_text.specs.Written.{counted_text, digest_word, head_for, head_text, lines_text};

use crate::GuestName;
use guest_digests::{DigestLine, GuestDigests};
use itoa::Buffer;
use std::alloc::{AllocError, Allocator};

/// The most bytes of a line's first four fields with their commas: a name of 64 bytes, and three numbers of up to 20 digits.
pub(crate) const MAX_HEAD_BYTES: usize = 128;

/// The most bytes of a line that is written, with its line feed.
pub(crate) const LINE_ROOM: usize = 182;

/// Appends a comma and a number: at most 21 bytes.
fn push_field<A: Allocator>(out: &mut Vec<u8, A>, n: u64) -> Result<(), AllocError>
    ensures bytes { OnOk result (out.new.items ≡ out.old.items ++ (codes "," ++ decimal n)) }
    ensures len { OnOk result (vec_len out.new ≤ vec_len out.old + 21) }
    ensures capacity { vec_capacity out.old ≤ vec_capacity out.new }
    ensures full { OnErr result (vec_capacity out.old < vec_len out.old + 21) }
{
    let mut buffer = Buffer::new();
    out.extend_from_slice(b",")?;
    out.extend_from_slice(buffer.format(n).as_bytes())
}

/// Returns the digits of a digest.
fn digest_word(digest: u128) -> [u8; 32]
    ensures { result ≡ digest_word digest }
{
    let mut word = [0; 32];
    spell(&digest.to_be_bytes(), &mut word);
    word
}

/// Writes the digits of bytes, two for each.
fn spell(bytes: &[u8], digits: &mut [u8])
    requires { length digits.old ≡ 2 * length bytes.now }
    ensures { digits.new ≡ encode_lower bytes.now }
{
    let _ = hex::encode_to_slice(bytes, digits);
}

/// Appends a line's last two fields and its line feed: at most 54 bytes.
#[tactic(auto, unfolding(crate::specs::Written::counted_text))]
fn push_counted<A: Allocator>(out: &mut Vec<u8, A>, line: &DigestLine) -> Result<(), AllocError>
    ensures bytes { OnOk result (out.new.items ≡ out.old.items ++ counted_text line.now) }
    ensures len { OnOk result (vec_len out.new ≤ vec_len out.old + 54) }
    ensures capacity { vec_capacity out.old ≤ vec_capacity out.new }
    ensures full { OnErr result (vec_capacity out.old < vec_len out.old + 54) }
{
    out.extend_from_slice(&digest_word(line.digest))?;
    push_field(out, line.copies)?;
    out.extend_from_slice(b"\n")
}

/// Appends a line that begins with `head`.
fn push_line<A: Allocator>(
    out: &mut Vec<u8, A>,
    head: &[u8],
    line: &DigestLine,
) -> Result<(), AllocError>
    requires { length head.now ≤ MAX_HEAD_BYTES }
    ensures bytes { OnOk result (out.new.items ≡ out.old.items ++ (head.now ++ counted_text line.now)) }
    ensures len { OnOk result (vec_len out.new ≤ vec_len out.old + LINE_ROOM) }
    ensures capacity { vec_capacity out.old ≤ vec_capacity out.new }
    ensures full { OnErr result (vec_capacity out.old < vec_len out.old + LINE_ROOM) }
{
    out.extend_from_slice(head)?;
    push_counted(out, line)
}

/// Appends lines that begin with `head`, for which there is room.
pub(crate) fn push_lines<A: Allocator>(out: &mut Vec<u8, A>, head: &[u8], lines: &[DigestLine])
    requires head { length head.now ≤ MAX_HEAD_BYTES }
    requires room { vec_len out.old + LINE_ROOM * length lines.now ≤ vec_capacity out.old }
    ensures bytes { out.new.items ≡ out.old.items ++ lines_text head.now lines.now }
    ensures capacity { vec_capacity out.old ≤ vec_capacity out.new }
{
    for line in lines {
        push_line(out, head, line).unwrap();
    }
}

/// Returns what each line of a guest's digests begins with: at most [`MAX_HEAD_BYTES`] bytes.
#[tactic(auto, unfolding(crate::specs::Written::head_text))]
pub(crate) fn head_text<A: Allocator, B: Allocator>(
    alloc: B,
    guest: &GuestName,
    digests: &GuestDigests<A>,
) -> Result<Vec<u8, B>, AllocError>
    ensures bytes { IfOk result (λ head. head.items ≡ head_text (head_for guest.now digests.now)) }
    ensures len { IfOk result (λ head. vec_len head ≤ MAX_HEAD_BYTES) }
{
    let mut head = Vec::with_capacity(alloc, MAX_HEAD_BYTES)?;
    head.extend_from_slice(guest.as_bytes())?;
    push_field(&mut head, u64::from(digests.sampling.salt()))?;
    push_field(&mut head, digests.pages)?;
    push_field(&mut head, u64::from(digests.sampling.sample().get()))?;
    head.extend_from_slice(b",")?;
    Ok(head)
}
