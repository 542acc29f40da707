//! What a line says.
ghost use Rattle.std.specs.Prelude.{◌≡◌, ◌≤◌, IfSome, length};
ghost use Rattle.std.specs.Option.{option_map};
ghost use Rattle.digest_text.specs.Fields.{counted_in, head_in, row_in};
ghost use Rattle.digest_text.specs.Repeats.{Spells};
ghost use Rattle.digest_text.specs.Seen.{IsOfForm, head_seen, row_seen};

use crate::fields::{copies, digest_field, field, number, sample};
use crate::name::is_name;
use arrayvec::ArrayVec;
use guest_digests::DigestLine;

/// The most bytes of a line, without its line feed. A line of the form has at most 156.
pub(crate) const MAX_LINE_BYTES: usize = 256;

/// The bytes with which a line spells its first four fields, with their commas. Any line's have room.
pub(crate) type Front = ArrayVec<u8, MAX_LINE_BYTES>;

/// What a line begins with, as it stands there.
#[derive(Clone, Copy)]
pub(crate) struct LineHead<'a> {
    pub(crate) guest: &'a [u8],
    pub(crate) salt: u32,
    pub(crate) pages: u64,
    /// The sample's number.
    pub(crate) every: u32,
}

/// What a line says, as it stands there.
#[derive(Clone, Copy)]
pub(crate) struct LineRow<'a> {
    pub(crate) head: LineHead<'a>,
    pub(crate) line: DigestLine,
    /// The first four fields, with their commas.
    pub(crate) front: &'a [u8],
}

/// Returns a line's first four fields, and what is left behind them.
#[tactic(auto, unfolding(crate::specs::Fields::head_in, crate::specs::Names::name_in))]
fn head(bytes: &[u8]) -> Option<(LineHead<'_>, &[u8])>
    ensures value { option_map (λ x. (head_seen x.0, x.1.now)) result ≡ head_in bytes.now }
    ensures known { IfSome result (λ x. IsOfForm x.0) }
{
    let (guest, rest) = field(bytes)?;
    if !is_name(guest) {
        return None;
    }
    let (salt, rest) = field(rest)?;
    let salt = number(u64::from(u32::MAX), salt)? as u32;
    let (pages, rest) = field(rest)?;
    let pages = number(u64::MAX, pages)?;
    let (every, rest) = field(rest)?;
    let every = sample(every)?;
    let head = LineHead {
        guest,
        salt,
        pages,
        every,
    };
    Some((head, rest))
}

/// Returns a line's last two fields.
#[tactic(auto, unfolding(crate::specs::Fields::counted_in))]
pub(crate) fn counted(bytes: &[u8]) -> Option<DigestLine>
    ensures { result ≡ counted_in bytes.now }
{
    let (digest, rest) = digest_field(bytes)?;
    let copies = copies(rest)?;
    Some(DigestLine { digest, copies })
}

/// Returns what a line says, or `None` if it isn't of the form.
#[tactic(auto, unfolding(crate::specs::Fields::row_in))]
pub(crate) fn read_row(bytes: &[u8]) -> Option<LineRow<'_>>
    ensures value { option_map row_seen result ≡ row_in bytes.now }
    ensures known { IfSome result (λ row. IsOfForm row.head) }
    ensures front { IfSome result (λ row. Spells row.front.now (head_seen row.head)) }
    ensures few { IfSome result (λ row. length row.front.now ≤ MAX_LINE_BYTES) }
{
    if bytes.len() > MAX_LINE_BYTES {
        return None;
    }
    let (head, rest) = head(bytes)?;
    let line = counted(rest)?;
    let front = &bytes[..bytes.len() - rest.len()];
    Some(LineRow { head, line, front })
}
