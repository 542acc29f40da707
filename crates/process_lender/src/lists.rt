//! What is done with lists of a window's pages.
ghost use Rattle.std.specs.Prelude.{◌≡◌, false};
ghost use Rattle.process_lender.specs.Lists.{Answered, CameOfCopies, CameOfLoans, CameOfRelease, Chooses, ChoosesCopies, FindsReleases};
ghost use Rattle.process_lender.specs.Windows.{with_pages};

use crate::noted::table_facts;
use crate::tables::WindowTables;
use crate::{Choice, ProcessFacts};
use lend_steps::{
    answered, copied, loaned, released, to_ask, to_copy, to_give_back, to_hold, to_release,
};
use page_looks::idle::LookConfig;
use std::alloc::Allocator;
use window_tables::TableFacts;

impl<A: Allocator> WindowTables<A> {
    // Finds about which pages a host may be asked.
    fn to_ask(
        &mut self,
        facts: &ProcessFacts,
        taken: u64,
        config: &LookConfig,
        look: u32,
        numbers: &[u32],
        answers: &mut [u8],
    ) -> bool
        ensures pages { Chooses (Choice.ToAsk config.now look) facts.now taken numbers.now result answers.old answers.new self.old self.new.pages self.new.counts }
        ensures rest { self.new ≡ with_pages self.new.pages self.new.counts self.old }
    {
        let table = table_facts(facts, &self.state);
        to_ask(
            &mut self.pages,
            &mut self.counts,
            self.lead,
            &table,
            &self.pins,
            config,
            look,
            &self.parts,
            facts.most,
            taken,
            numbers,
            answers,
        )
    }

    // Orders pages to be held that have their loans.
    fn to_hold(&mut self, facts: &ProcessFacts, numbers: &[u32], answers: &mut [u8]) -> bool
        ensures pages { Chooses Choice.ToHold facts.now 0 numbers.now result answers.old answers.new self.old self.new.pages self.new.counts }
        ensures rest { self.new ≡ with_pages self.new.pages self.new.counts self.old }
    {
        let table = table_facts(facts, &self.state);
        to_hold(
            &mut self.pages,
            &mut self.counts,
            self.lead,
            &table,
            &self.pins,
            &self.parts,
            numbers,
            answers,
        )
    }

    // Chooses free pages to be given back.
    fn to_give_back(
        &mut self,
        facts: &ProcessFacts,
        taken: u64,
        numbers: &[u32],
        answers: &mut [u8],
    ) -> bool
        ensures pages { Chooses Choice.ToGiveBack facts.now taken numbers.now result answers.old answers.new self.old self.new.pages self.new.counts }
        ensures rest { self.new ≡ with_pages self.new.pages self.new.counts self.old }
    {
        let table = table_facts(facts, &self.state);
        to_give_back(
            &mut self.pages,
            &mut self.counts,
            self.lead,
            &table,
            &self.pins,
            &self.parts,
            facts.most,
            taken,
            numbers,
            answers,
        )
    }

    // Chooses pages of a list.
    pub(crate) fn choose(
        &mut self,
        facts: &ProcessFacts,
        taken: u64,
        what: Choice,
        numbers: &[u32],
        answers: &mut [u8],
    ) -> bool
        ensures pages { Chooses what facts.now taken numbers.now result answers.old answers.new self.old self.new.pages self.new.counts }
        ensures rest { self.new ≡ with_pages self.new.pages self.new.counts self.old }
    {
        match what {
            Choice::ToAsk(config, look) => {
                self.to_ask(facts, taken, &config, look, numbers, answers)
            }
            Choice::ToHold => self.to_hold(facts, numbers, answers),
            Choice::ToGiveBack => self.to_give_back(facts, taken, numbers, answers),
        }
    }

    // Takes a host's answers.
    pub(crate) fn answered(
        &mut self,
        facts: &ProcessFacts,
        taken: u64,
        numbers: &[u32],
        fingerprints: &[u64],
        seen: &[u8],
        answers: &mut [u8],
    ) -> bool
        ensures pages { Answered facts.now taken numbers.now fingerprints.now seen.now result answers.old answers.new self.old self.new.pages self.new.counts }
        ensures rest { self.new ≡ with_pages self.new.pages self.new.counts self.old }
    {
        answered(
            &mut self.pages,
            &mut self.counts,
            self.lead,
            &self.parts,
            facts.most,
            taken,
            numbers,
            fingerprints,
            seen,
            answers,
        )
    }

    // Chooses pages that are to be copied.
    pub(crate) fn to_copy(
        &mut self,
        facts: &ProcessFacts,
        numbers: &[u32],
        there: &[u8],
        fingerprints: &[u64],
        answers: &mut [u8],
    ) -> bool
        ensures pages { ChoosesCopies facts.now numbers.now there.now fingerprints.now result answers.old answers.new self.old self.new.pages self.new.counts }
        ensures rest { self.new ≡ with_pages self.new.pages self.new.counts self.old }
    {
        let table = table_facts(facts, &self.state);
        to_copy(
            &mut self.pages,
            &mut self.counts,
            self.lead,
            &table,
            &self.pins,
            &self.parts,
            numbers,
            there,
            fingerprints,
            answers,
        )
    }

    // Takes what came of copies.
    pub(crate) fn copied(
        &mut self,
        facts: &ProcessFacts,
        numbers: &[u32],
        outcomes: &[u8],
        answers: &mut [u8],
    ) -> bool
        ensures pages { CameOfCopies facts.now numbers.now outcomes.now result answers.old answers.new self.old self.new.pages self.new.counts }
        ensures rest { self.new ≡ with_pages self.new.pages self.new.counts self.old }
    {
        let table = table_facts(facts, &self.state);
        copied(
            &mut self.pages,
            &mut self.counts,
            self.lead,
            &table,
            &self.pins,
            numbers,
            outcomes,
            answers,
        )
    }

    // Takes what a host said of loans.
    pub(crate) fn loaned(
        &mut self,
        numbers: &[u32],
        slots: &[u64],
        given: &[u32],
        frames: u32,
        is_heard: bool,
        answers: &mut [u8],
    ) -> bool
        ensures pages { CameOfLoans numbers.now slots.now given.now frames is_heard result answers.old answers.new self.old self.new.pages self.new.counts }
        ensures rest { self.new ≡ with_pages self.new.pages self.new.counts self.old }
    {
        loaned(
            &mut self.pages,
            &mut self.counts,
            self.lead,
            numbers,
            slots,
            given,
            frames,
            is_heard,
            answers,
        )
    }

    // Finds pages whose slots are to be released.
    pub(crate) fn to_release(
        &mut self,
        facts: &ProcessFacts,
        first: usize,
        count: usize,
        places: &mut [usize],
    ) -> usize
        ensures pages { FindsReleases facts.now first count result places.old places.new self.old self.new.pages self.new.counts }
        ensures rest { self.new ≡ with_pages self.new.pages self.new.counts self.old }
    {
        let table = table_facts(facts, &self.state);
        to_release(
            &mut self.pages,
            &mut self.counts,
            self.lead,
            &table,
            &self.pins,
            first,
            count,
            places,
        )
    }

    // Takes what came of a release.
    pub(crate) fn released(&mut self, numbers: &[usize], is_done: bool) -> bool
        ensures pages { CameOfRelease numbers.now is_done result self.old self.new.pages self.new.counts }
        ensures rest { self.new ≡ with_pages self.new.pages self.new.counts self.old }
    {
        released(
            &mut self.pages,
            &mut self.counts,
            self.lead,
            numbers,
            is_done,
        )
    }
}
