//! The lines behind that of a mapping in `/proc/PID/smaps`.
ghost use Rattle.std.specs.Prelude.{◌≡◌};
ghost use Rattle.std.specs.List.{slice_split};
ghost use Rattle.live_memory.specs.Details.{has_word, is_detail, is_offered, says_offered};
ghost use Rattle.live_memory.specs.Maps.{is_feed};

use text_words::word::cut;

/// What the line of a mapping's flags begins with.
const FLAGS: &[u8] = b"VmFlags:";

/// The flag of a mapping that is offered for sharing.
const OFFERED: &[u8] = b"mg";

/// Whether a line is no mapping's own: it begins with A to Z.
pub(crate) fn is_detail(line: &[u8]) -> bool
    ensures { result ≡ is_detail line.now }
{
    match line.first() {
        Some(byte) => *byte >= b'A' && *byte <= b'Z',
        None => false,
    }
}

/// Whether one of the words between spaces is this one.
fn has_word(line: &[u8], word: &[u8]) -> bool
    ensures { result ≡ has_word word.now line.now }
{
    let mut rest = line;
    while let Some((first, behind)) = cut(b' ', rest) {
        if first == word {
            return true;
        }
        rest = behind;
    }
    rest == word
}

fn says_offered(line: &[u8]) -> bool
    ensures { result ≡ says_offered line.now }
{
    line.starts_with(FLAGS) && has_word(line, OFFERED)
}

/// Whether the details that a text begins with say that the mapping before them is offered for sharing.
pub(crate) fn is_offered(details: &[u8]) -> bool
    ensures { result ≡ is_offered (slice_split is_feed details.now) }
{
    let mut rest = details;
    while let Some((line, behind)) = cut(b'\n', rest) {
        if !is_detail(line) {
            return false;
        }
        if says_offered(line) {
            return true;
        }
        rest = behind;
    }
    is_detail(rest) && says_offered(rest)
}
