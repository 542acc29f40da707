//! Room for a text's requests, taken before its lines are read.
ghost use Rattle.std.specs.Prelude.{◌+◌, ◌*◌, ◌≤◌, length};
ghost use Rattle.journal_text.specs.declared.room.TheConstants.{LEAST_LINE_BYTES};

use text_words::word::cut;

/// No line of a request is shorter, not counting its line feed.
pub const LEAST_LINE_BYTES: usize = 7;

/// Returns how many lines of the text may be requests. A list with that room needn't grow. However many line feeds a text
/// has, there are no more such lines than the shortest ones would be.
pub(crate) fn count_lines(text: &[u8]) -> usize
    ensures few { result * (LEAST_LINE_BYTES + 1) ≤ length text.now }
{
    let mut count = 0;
    let mut rest = text;
    while let Some((line, more)) = cut(b'\n', rest) {
        if line.len() >= LEAST_LINE_BYTES {
            count += 1;
        }
        rest = more;
    }
    count
}
