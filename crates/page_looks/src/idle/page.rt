//! When a page is idle.
ghost use Rattle.std.specs.Prelude.{◌≡◌};
ghost use Rattle.page_looks.specs.Idle.{next_up_to, is_idle, is_again, is_young, glanced_by, is_hot, asks_then, met, is_read, again, anew, read, asked, asked_last, due, held};

use crate::idle::{ASKS_MOST, PageLooks, STILL};

// Returns the next number, up to `most`.
fn next_up_to(number: u8, most: u8) -> u8
    ensures { result ≡ next_up_to number most }
{
    if number < most { number + 1 } else { most }
}

impl PageLooks {
    /// Returns whether the page is idle.
    pub fn is_idle(&self) -> bool
        ensures { result ≡ is_idle self.now }
    {
        self.looks >= STILL
    }

    /// Returns whether the page is idle, and was asked about in vain most often. So it is asked about again at its turns only.
    pub fn is_again(&self) -> bool
        ensures { result ≡ is_again self.now }
    {
        self.is_idle() && self.asks >= ASKS_MOST
    }

    /// Returns whether the page may be idle soon. One that changes always isn't young.
    pub fn is_young(&self) -> bool
        ensures { result ≡ is_young self.now }
    {
        self.looks < STILL && self.asks == 0
    }

    /// Returns the number that says where a glance at page `number` looks: the fingerprint of its last read. A new page has none, so any
    /// number will do.
    pub fn glanced_by(&self, number: u32) -> u64
        ensures { result ≡ glanced_by self.now number }
    {
        if self.looks == 0 {
            u64::from(number)
        } else {
            self.fingerprint
        }
    }

    // Returns whether it was looked at, and isn't idle.
    fn is_hot(&self) -> bool
        ensures { result ≡ is_hot self.now }
    {
        self.looks > 0 && self.looks < STILL
    }

    // Returns the number of questions for a page that has changed. One that was no longer new, and not idle, comes more seldom.
    fn asks_then(&self, is_hot: bool) -> u8
        ensures { result ≡ asks_then self.now is_hot }
    {
        if is_hot {
            next_up_to(self.asks, ASKS_MOST)
        } else {
            0
        }
    }

    /// Learns that page `number` is new, or has changed. `glance`: what a glance finds by the number that `glanced_by` returned.
    pub fn met(&mut self, number: u32, glance: u16)
        ensures { self.new ≡ met self.old number glance }
    {
        *self = PageLooks {
            fingerprint: self.glanced_by(number),
            clue: glance,
            looks: 1,
            asks: self.asks_then(self.is_hot()),
        };
    }

    // Returns whether it is known what the page's fingerprint was.
    fn is_read(&self, is_over: bool) -> bool
        ensures { result ≡ is_read self.now is_over }
    {
        self.looks > if is_over { 0 } else { 1 }
    }

    // The page, once it was read with the same fingerprint.
    fn again(&self, clue: u16) -> PageLooks
        ensures { result ≡ again self.now clue }
    {
        PageLooks {
            fingerprint: self.fingerprint,
            clue,
            looks: next_up_to(self.looks, STILL),
            asks: if self.looks < STILL { 0 } else { self.asks },
        }
    }

    // The page, once it was read with another fingerprint.
    fn anew(&self, is_over: bool, fingerprint: u64, clue: u16) -> PageLooks
        ensures { result ≡ anew self.now is_over fingerprint clue }
    {
        let is_hot = self.is_read(is_over) && self.looks < STILL;
        PageLooks {
            fingerprint,
            clue,
            looks: if is_over { 1 } else { 2 },
            asks: self.asks_then(is_hot),
        }
    }

    /// Takes the page's fingerprint, which was read now. `is_over`: its memory lies over a frame. `glance`: what a glance finds by this
    /// fingerprint; a page over a frame has none.
    pub fn read(&mut self, is_over: bool, fingerprint: u64, glance: u16)
        ensures { self.new ≡ read self.old is_over fingerprint glance }
    {
        let clue = if is_over { self.clue } else { glance };
        let is_same = self.is_read(is_over) && self.fingerprint == fingerprint;
        *self = if is_same {
            self.again(clue)
        } else {
            self.anew(is_over, fingerprint, clue)
        };
    }

    /// Learns that the page was asked about in vain.
    pub fn asked(&mut self)
        ensures { self.new ≡ asked self.old }
    {
        self.asks = next_up_to(self.asks, ASKS_MOST);
    }

    /// Learns that the page can't be lent now. So it is asked about as seldom as one that was asked about in vain most often.
    pub fn asked_last(&mut self)
        ensures { self.new ≡ asked_last self.old }
    {
        self.asks = ASKS_MOST;
    }

    /// Learns that the page is to be asked about at once.
    pub fn ask_at_once(&mut self)
        ensures { self.new ≡ due self.old }
    {
        self.asks = 0;
    }

    /// Learns that the page was to be held, and whether it was. One that wasn't, since a device may have pinned it, is tried again later.
    pub fn held(&mut self, was_held: bool)
        ensures { self.new ≡ held self.old was_held }
    {
        self.looks = if was_held { 0 } else { 1 };
        self.asks = if was_held { 0 } else { ASKS_MOST };
    }
}
