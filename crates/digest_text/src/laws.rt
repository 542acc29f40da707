//! Laws of the texts, about the definitions alone.
ghost use Rattle.std.specs.Prelude.{◌≡◌};
ghost use Rattle.digest_text.specs.Reread.{DigestsAreLines, ReadsAsWritten};
ghost use Rattle.digest_text.specs.declared.name.TheConstants.{MAX_NAME_BYTES};
ghost use Rattle.digest_text.specs.declared.row.TheConstants.{MAX_LINE_BYTES};

/// The text that is written of lines is read as these lines, each under its head: of lines that rise, that the sample keeps, and
/// that list all pages. The lines of a guest's digests are such lines, whatever the source of its pages returned.
pub fn reading_law()
    ensures written { ReadsAsWritten }
    ensures digests { DigestsAreLines }
{}

/// Each limit is this number.
pub fn limits_law()
    ensures name { MAX_NAME_BYTES ≡ 64 }
    ensures line { MAX_LINE_BYTES ≡ 256 }
{}
