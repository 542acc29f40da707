//! Names of images as they are shown.
use std::fmt::{self, Display, Formatter};

/// Shown instead of a character that can't be shown.
const REPLACEMENT: char = '\u{fffd}';

/// A name on one line: control characters are shown as U+FFFD.
#[derive(Clone, Copy)]
pub struct PlainName<'a>(pub &'a str);

/// A name within XML: as a plain name, with the characters that have a meaning there written as entities.
#[derive(Clone, Copy)]
pub struct XmlName<'a>(pub &'a str);

/// A name within XML that takes at most 22 columns: a longer one is cut to an ellipsis and its end.
#[derive(Clone, Copy)]
pub struct ShortName<'a>(pub &'a str);

/// The columns of a short name, at most.
const COLUMNS: usize = 22;

impl Display for PlainName<'_> {
    fn fmt<W: fmt::Write>(&self, f: &mut Formatter<W>) -> fmt::Result {
        for c in self.0.chars() {
            f.write_char(shown(c))?;
        }
        Ok(())
    }
}

impl Display for XmlName<'_> {
    fn fmt<W: fmt::Write>(&self, f: &mut Formatter<W>) -> fmt::Result {
        for c in self.0.chars() {
            write_xml(f, shown(c))?;
        }
        Ok(())
    }
}

impl Display for ShortName<'_> {
    fn fmt<W: fmt::Write>(&self, f: &mut Formatter<W>) -> fmt::Result {
        let all = columns_of(self.0);
        // An ellipsis replaces what is left out, and takes a column itself.
        let mut left = if all > COLUMNS {
            f.write_str("\u{2026}")?;
            all.saturating_sub(COLUMNS).saturating_add(1)
        } else {
            0
        };
        for c in self.0.chars() {
            if left == 0 {
                write_xml(f, shown(c))?;
            }
            left = left.saturating_sub(columns(c));
        }
        Ok(())
    }
}

/// Returns how many columns a text takes.
fn columns_of(text: &str) -> usize {
    let mut sum: usize = 0;
    for c in text.chars() {
        sum = sum.saturating_add(columns(c));
    }
    sum
}

/// Returns the columns of a character: from the scripts of East Asia on, a character may take two.
fn columns(c: char) -> usize {
    if c < '\u{1100}' { 1 } else { 2 }
}

/// Replaces a character that breaks the line, controls a terminal, or can't be in XML.
fn shown(c: char) -> char {
    if c.is_control() || c == '\u{2028}' || c == '\u{2029}' || c == '\u{fffe}' || c == '\u{ffff}' {
        REPLACEMENT
    } else {
        c
    }
}

fn write_xml<W: fmt::Write>(f: &mut Formatter<W>, c: char) -> fmt::Result {
    match c {
        '&' => f.write_str("&amp;"),
        '<' => f.write_str("&lt;"),
        '>' => f.write_str("&gt;"),
        '"' => f.write_str("&quot;"),
        '\'' => f.write_str("&apos;"),
        _ => f.write_char(c),
    }
}
