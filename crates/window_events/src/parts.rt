//! The protocol as a program, from any pages and frames.
ghost use Rattle.std.specs.Prelude.{◌≡◌, ◌<◌, length, IfOk, is_some, unwrap_or, option_map, map, slice_get};
ghost use Rattle.window_events.specs.Windows.{step, start, shown, with_page, fresh};
ghost use Rattle.window_events.specs.declared.event.Event.TheVariants as Event;

use crate::changes::is_held;
use crate::{Event, Page};
use std::alloc::{AllocError, Allocator, Global};
use std::marker::Model;

// The pages of all guests, and what the host's frames contain.
#[derive(Drop)]
pub(crate) struct Parts<A: Allocator = Global> {
    pages: Vec<Page, A>,
    frames: Vec<u64, A>,
}

impl<A: Allocator> Model for Parts<A> {
    ghost use Rattle.window_events.specs.Windows as windows;

    ghost Value = { windows.Mappings };

    ghost view = { λ w. record { pages = w.pages.items; frames = w.frames.items } };
}

impl<A: Allocator> Parts<A> {
    // The parts of the mappings before the first event.
    pub(crate) fn new(alloc: A, contents: &[u64], frames: &[u64]) -> Result<Parts<A>, AllocError>
    where
        A: Clone,
        ensures { IfOk result (λ parts. parts ≡ start contents.now frames.now) }
    {
        let for_pages = alloc.clone()?;
        let pages = fresh_pages(for_pages, contents)?;
        let frames = same_numbers(alloc, frames)?;
        Ok(Parts { pages, frames })
    }

    // Plays one event, and returns whether it was possible.
    pub(crate) fn apply(&mut self, event: &Event) -> bool
        ensures possible { result ≡ is_some (step self.old event.now) }
        ensures mappings { self.new ≡ unwrap_or (step self.old event.now) self.old }
    {
        match event {
            Event::Write(page, content) => match self.page(*page) {
                Some(old) => self.put(*page, old.written(*content)),
                None => false,
            },
            Event::Guard(page) => match self.page(*page) {
                Some(old) => self.put(*page, old.guarded()),
                None => false,
            },
            Event::Unguard(page) => match self.page(*page) {
                Some(old) => self.put(*page, old.unguarded()),
                None => false,
            },
            Event::Copy(page) => match self.page(*page) {
                Some(old) => {
                    let copied = old.copied(self.frames.as_slice());
                    self.put(*page, copied)
                }
                None => false,
            },
            Event::Lend(page, frame) => self.lend(*page, *frame),
            Event::Map(page) => match self.page(*page) {
                Some(old) => self.put(*page, old.mapped()),
                None => false,
            },
            Event::Release(page) => match self.page(*page) {
                Some(old) => self.put(*page, old.released()),
                None => false,
            },
            Event::Trim(frame, content) => self.trim(*frame, *content),
            Event::Discard(page) => match self.page(*page) {
                Some(old) => self.put(*page, old.discarded()),
                None => false,
            },
        }
    }

    // Returns the page of this number, if there is one.
    pub(crate) fn page(&self, number: u32) -> Option<Page>
        ensures { result ≡ slice_get self.now.pages number }
    {
        self.pages.get(number as usize).copied()
    }

    // Replaces a page by `page`, if that is one, and returns whether it is.
    fn put(&mut self, number: u32, page: Option<Page>) -> bool
        requires { number < length self.old.pages }
        ensures possible { result ≡ is_some page }
        ensures mappings { self.new ≡ unwrap_or (option_map (with_page self.old number) page) self.old }
    {
        match page {
            Some(page) => {
                self.pages[number as usize] = page;
                true
            }
            None => false,
        }
    }

    // Puts a page's copy into a frame.
    fn lend(&mut self, number: u32, frame: u32) -> bool
        ensures possible { result ≡ is_some (step self.old (Event.Lend number frame)) }
        ensures mappings { self.new ≡ unwrap_or (step self.old (Event.Lend number frame)) self.old }
    {
        let Some(page) = self.page(number) else {
            return false;
        };
        let Some(copy) = page.copy else {
            return false;
        };
        let Some(old) = self.frames.get(frame as usize).copied() else {
            return false;
        };
        if page.held.is_some() {
            return false;
        }
        if old != copy && is_held(frame, self.pages.as_slice()) {
            return false;
        }
        self.pages[number as usize] = page.holding(frame);
        self.frames[frame as usize] = copy;
        true
    }

    // Gives a frame that no page holds another content.
    fn trim(&mut self, frame: u32, content: u64) -> bool
        ensures possible { result ≡ is_some (step self.old (Event.Trim frame content)) }
        ensures mappings { self.new ≡ unwrap_or (step self.old (Event.Trim frame content)) self.old }
    {
        if frame as usize >= self.frames.len() || is_held(frame, self.pages.as_slice()) {
            return false;
        }
        self.frames[frame as usize] = content;
        true
    }

    // Returns what a page shows, if there is one of this number.
    pub(crate) fn shown(&self, page: u32) -> Option<u64>
        ensures { result ≡ shown self.now page }
    {
        match self.pages.get(page as usize) {
            Some(page) => Some(page.view.shown(self.frames.as_slice())),
            None => None,
        }
    }

    // Returns what the frames contain.
    pub(crate) fn frames(&self) -> &[u64]
        ensures { result.now ≡ self.now.frames }
    {
        self.frames.as_slice()
    }
}

// Pages with these contents, and nothing lent.
fn fresh_pages<A: Allocator>(alloc: A, contents: &[u64]) -> Result<Vec<Page, A>, AllocError>
    ensures { IfOk result (λ pages. pages.items ≡ map fresh contents.now) }
{
    contents
        .iter()
        .map(|content| Page::fresh(*content))
        .collect(alloc)
}

// The same numbers once more.
fn same_numbers<A: Allocator>(alloc: A, numbers: &[u64]) -> Result<Vec<u64, A>, AllocError>
    ensures { IfOk result (λ copy. copy.items ≡ numbers.now) }
{
    numbers.iter().copied().collect(alloc)
}
