//! Scripts, with what `serial` writes for them; for one guest, what any engine writes.
use crate::journals::Row;

/// One guest, whose journal has just enough room for its store, two proposals, its release and its close.
pub fn scan() -> Row {
    Row {
        text: "\
            pageshare script 1\n\
            frames 2\n\
            pages 1\n\
            ring 1\n\
            journal 5\n\
            0 store 0 0 41\n\
            0 scan random 7 2\n\
            0 release 0\n\
            end 3\n",
        output: "\
            0 mapped\n\
            0 hinted\n\
            0 kept\n\
            0 released freed\n\
            0 closed\n\
            report entries 5 mapped 0 shared 0 frames 0 reclaimed 0 hints 0\n",
    }
}

/// The journal of each run of `scan`.
pub const SCAN_JOURNAL: &str = "\
    pageshare journal 1\n\
    frames 2\n\
    pages 1\n\
    0 store 0 0 41\n\
    0 propose 0\n\
    0 propose 0\n\
    0 release 0\n\
    0 close\n\
    end 5\n";

/// Guest 0 has one turn less than guest 1, whose lines are around its own.
pub fn two_guests() -> Row {
    Row {
        text: "\
            pageshare script 1\n\
            frames 2\n\
            pages 1 1\n\
            ring 1\n\
            journal 5\n\
            1 store 0 0 41\n\
            0 store 0 0 41\n\
            1 propose 0\n\
            end 3\n",
        output: "\
            0 mapped\n\
            1 mapped\n\
            0 closed\n\
            1 hinted\n\
            1 closed\n\
            report entries 5 mapped 2 shared 0 frames 2 reclaimed 0 hints 1\n",
    }
}

/// What each run of `two_guests` writes by threads. Only guest 1 proposes, so each order of their requests gives the
/// same verdicts.
pub const VERDICTS_OF_TWO: &str = "\
    0 mapped\n\
    0 closed\n\
    1 mapped\n\
    1 hinted\n\
    1 closed\n\
    report entries 5 mapped 2 shared 0 frames 2 reclaimed 0 hints 1\n";
