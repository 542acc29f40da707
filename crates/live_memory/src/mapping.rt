//! A line of `/proc/PID/maps`.
ghost use Rattle.std.specs.Prelude.{◌≡◌, ◌+◌, ◌<◌, ◌≤◌, IfSome, option_map};
ghost use Rattle.live_memory.specs.Mappings.{is_apart, is_fileless, is_kept, is_of_frames, is_private, is_writable, mapping_in, segment_of, writable_of};
ghost use Rattle.live_memory.specs.Ranges.{IsRange};

use crate::fields::{behind_spaces, range, word};
use memory_images::Segment;
use text_words::word::number_to;

const VVAR: &[u8] = b"[vvar]";

const VDSO: &[u8] = b"[vdso]";

const VSYSCALL: &[u8] = b"[vsyscall]";

/// What the name of a memfd begins with.
const MEMFD: &[u8] = b"/memfd:";

/// The name of anonymous memory that is shared.
const SHARED: &[u8] = b"/dev/zero (deleted)";

/// The name of anonymous memory of large pages.
const LARGE: &[u8] = b"/anon_hugepage (deleted)";

/// The name of the file of frames that `pageshare-host` lends from.
const FRAMES: &[u8] = b"/memfd:pageshare-frames (deleted)";

/// Where memory of `libpageshare-window.so` itself begins, and where it ends, by `window/kernel.c`.
const APART_BEGIN: u64 = 0x2000_0000_0000;

const APART_END: u64 = 0x3000_0000_0000;

/// A mapping of a process's memory that is no file's and can be written.
#[derive(Clone, Copy, Debug, PartialEq, Eq)]
pub struct WritableMapping {
    /// Where its pages lie.
    pub segment: Segment,
    /// The process offered it for sharing (`MADV_MERGEABLE`).
    pub is_offered: bool,
    /// It is the process's own, and of no file.
    pub is_anonymous: bool,
    /// It shows frames of `pageshare-host`.
    pub shows_frames: bool,
    /// By it the library of `pageshare-host` reads all frames: it is none of the guest's memory.
    pub reads_frames: bool,
}

/// What a line says of a mapping, without its name.
#[derive(Clone, Copy)]
pub(crate) struct Mapping {
    pub(crate) from: u64,
    pub(crate) to: u64,
    pub(crate) is_writable: bool,
    /// Its pages are the process's own.
    pub(crate) is_private: bool,
    /// The number of the file that is mapped; 0: there is none.
    pub(crate) inode: u64,
}

/// Whether the permissions are those of memory that can be written, as in `rw-p`.
fn is_writable(permissions: &[u8]) -> bool
    ensures { result ≡ is_writable permissions.now }
{
    permissions.len() > 1 && permissions[1] == b'w'
}

/// Whether the permissions are those of memory that is the process's own, as in `rw-p`.
fn is_private(permissions: &[u8]) -> bool
    ensures { result ≡ is_private permissions.now }
{
    permissions.len() > 3 && permissions[3] == b'p'
}

/// Returns what a line says, and the mapping's name.
#[tactic(auto, unfolding(crate::specs::Mappings::mapping_in))]
pub(crate) fn read_mapping(line: &[u8]) -> Option<(Mapping, &[u8])>
    ensures value { option_map (λ x. (x.0, x.1.now)) result ≡ mapping_in line.now }
    ensures range { IfSome result (λ x. IsRange x.0.from x.0.to) }
{
    let (addresses, rest) = word(line)?;
    let (from, to) = range(addresses)?;
    let (permissions, rest) = word(rest)?;
    let (_offset, rest) = word(rest)?;
    let (_device, rest) = word(rest)?;
    let (inode, rest) = word(rest)?;
    let inode = number_to(u64::MAX, inode).ok()?;
    let is_writable = is_writable(permissions);
    let is_private = is_private(permissions);
    let mapping = Mapping {
        from,
        to,
        is_writable,
        is_private,
        inode,
    };
    Some((mapping, behind_spaces(rest)))
}

/// Whether a mapping's memory is no file's. Then it has no inode and isn't the system's own. Or its name says that it is a memfd,
/// or anonymous memory that is shared or of large pages.
fn is_fileless(inode: u64, name: &[u8]) -> bool
    ensures { result ≡ is_fileless inode name.now }
{
    if inode == 0 {
        return name != VVAR && name != VDSO && name != VSYSCALL;
    }
    name.starts_with(MEMFD) || name == SHARED || name == LARGE
}

/// Whether a mapping's pages are to be read.
pub(crate) fn is_kept(mapping: Mapping, name: &[u8]) -> bool
    ensures { result ≡ is_kept mapping name.now }
{
    mapping.is_writable && is_fileless(mapping.inode, name)
}

/// Whether a mapping is the process's own, of the file of frames of `pageshare-host`.
fn is_of_frames(mapping: Mapping, name: &[u8]) -> bool
    ensures { result ≡ is_of_frames mapping name.now }
{
    mapping.is_private && name == FRAMES
}

/// Whether a mapping is where memory of `libpageshare-window.so` itself is.
fn is_apart(mapping: Mapping) -> bool
    ensures { result ≡ is_apart mapping }
{
    mapping.from >= APART_BEGIN && mapping.from < APART_END
}

/// Returns where a mapping's pages lie.
fn segment_of(mapping: Mapping) -> Segment
    requires { mapping.from < mapping.to }
    ensures { result ≡ segment_of mapping }
{
    Segment {
        offset: mapping.from,
        len: mapping.to - mapping.from,
    }
}

/// Returns what is known of a mapping that is kept.
pub(crate) fn writable_of(mapping: Mapping, name: &[u8], is_offered: bool) -> WritableMapping
    requires { mapping.from < mapping.to }
    ensures { result ≡ writable_of mapping name.now is_offered }
{
    let is_of_frames = is_of_frames(mapping, name);
    let is_apart = is_apart(mapping);
    WritableMapping {
        segment: segment_of(mapping),
        is_offered,
        is_anonymous: mapping.is_private && mapping.inode == 0,
        shows_frames: is_of_frames && !is_apart,
        reads_frames: is_of_frames && is_apart,
    }
}
