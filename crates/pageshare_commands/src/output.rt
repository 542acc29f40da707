//! What the commands `estimate` and `fleet` write of their numbers.
use crate::command_fault::Cause;
use report_text::{Report, Unit, json_text, table_text};
use std::alloc::{AllocError, Global};
use std::io::Write;

/// Makes the text that a command writes to its output: the object where `is_json`, and else the table, in pages where
/// `in_pages`.
pub fn output_text(
    alloc: Global,
    is_json: bool,
    in_pages: bool,
    report: &Report<'_>,
) -> Result<String, AllocError> {
    if is_json {
        let mut text = json_text(alloc, report)?;
        text.push_str("\n")?;
        Ok(text)
    } else {
        table_text(alloc, report, unit_of(in_pages))
    }
}

/// Returns what the table's numbers are.
fn unit_of(in_pages: bool) -> Unit {
    if in_pages {
        Unit::Pages
    } else {
        Unit::Mebibytes
    }
}

/// Writes a whole text.
pub fn write_all(output: &mut impl Write, text: &str) -> Result<(), Cause> {
    output.write_all(text.as_bytes())?;
    output.flush()?;
    Ok(())
}
