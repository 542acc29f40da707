//! A run's journal, replayed on one thread.
use crate::checks::{equal, holds};
use merge_core::{Core, CoreFault};
use merge_run::{Config, Finished};
use page_digest::Sha256Hash;
use page_model::{Entry, MAX_ENTRIES, Verdict};
use std::alloc::{AllocError, Global};
use std::process::Abort;
use worked_answers::numbers;

/// Makes an empty list for each guest.
fn empty_lists(alloc: Global, guests: usize) -> Result<Vec<Vec<Verdict>>, AllocError> {
    let mut lists = Vec::new(alloc);
    for _ in 0..guests {
        lists.push(Vec::new(alloc))?;
    }
    Ok(lists)
}

/// Makes a fresh core of these numbers.
fn new_core(alloc: Global, config: &Config) -> Result<Core<Sha256Hash>, CoreFault> {
    Core::new(
        alloc,
        config.frames,
        &config.pages,
        &config.salts,
        Sha256Hash,
    )
}

fn apply(rt: &impl Abort, core: &mut Core<Sha256Hash>, entry: &Entry) -> Verdict {
    holds(rt, entry.guest < core.guests());
    holds(rt, core.entries() < MAX_ENTRIES);
    core.apply(entry.guest, &entry.request)
}

/// Appends a verdict to the guest's list.
fn keep(rt: &impl Abort, lists: &mut Vec<Vec<Verdict>>, guest: usize, verdict: Verdict) {
    holds(rt, guest < lists.len());
    lists[guest].push(verdict).expect(rt, "memory");
}

/// Returns each guest's verdicts.
fn apply_all(
    rt: &impl Abort,
    alloc: Global,
    core: &mut Core<Sha256Hash>,
    journal: &[Entry],
) -> Vec<Vec<Verdict>> {
    let mut lists = empty_lists(alloc, usize::from(core.guests())).expect(rt, "memory");
    for entry in journal {
        let verdict = apply(rt, core, entry);
        keep(rt, &mut lists, usize::from(entry.guest), verdict);
    }
    lists
}

/// Checks that a fresh core that applies the journal entry by entry gives each guest's verdicts and the report.
pub fn check_replay(
    rt: &impl Abort,
    alloc: Global,
    config: &Config,
    finished: &Finished<Sha256Hash>,
) {
    let mut core = new_core(alloc, config).expect(rt, "a core");
    let lists = apply_all(rt, alloc, &mut core, finished.settled.journal());
    holds(rt, lists == finished.verdicts);
    equal(
        rt,
        numbers(&core.report()),
        numbers(&finished.settled.report()),
    );
}
