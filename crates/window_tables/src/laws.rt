//! What the counts of a table are worth. The functions' bodies are empty: the contract is all there is.
ghost use Rattle.window_tables.specs.Laws.{DifferencesCount, EachNumberIsRight, EachTableIsCounted, NoMoreCome, NoneIsMissed, NotesStayInside, SetsStayInside, SetsTakeTwo, SomeKeepMappings, ZerosTakeNoMore};
ghost use Rattle.window_tables.specs.Runs.{EachRunIsNext, NoRunIsMissed};

/// Whatever calls there are for the pages of a table whose bytes are zeros at first, in whatever order, the counts of each part are right of its
/// pages. And where a part counts no slot to release, none of its pages has one that is.
pub fn table_law()
    ensures counted { EachTableIsCounted }
    ensures missed { NoneIsMissed }
{}

/// The next run of pages of some kinds between two pages is the first one, and the longest: no page before it is of these kinds, all its pages count as
/// the same one of them, and the page behind it doesn't. Where there is none, no page between the two is of these kinds.
pub fn runs_law()
    ensures next { EachRunIsNext }
    ensures none { NoRunIsMissed }
{}

/// Where only pages of a range change, a table has as many mappings as before, less `mappings_at` of the range before, and more by `mappings_at` of
/// it then. No more come than `mappings_more` says. What `note` notes is such a change, and where content is given up or pages leave the same
/// stays mapped. Where zeros are put in place of pages, no more come than `zeros_more` says, if the system lets be said of them what is said of the
/// window, if they lie in parts that are all whole or all split, and if the page behind them begins what was moved only if it was moved. Where a
/// part becomes whole or is split, what is mapped outside it stays, and at most two more come. So a number that is kept by these differences is how
/// many mappings the table has.
pub fn mappings_law()
    ensures differences { DifferencesCount }
    ensures most { NoMoreCome }
    ensures noted { NotesStayInside }
    ensures stays { SomeKeepMappings }
    ensures zeros { ZerosTakeNoMore }
    ensures set { SetsStayInside }
    ensures two { SetsTakeTwo }
    ensures kept { EachNumberIsRight }
{}
