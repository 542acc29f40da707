//! When a part is split, and when it is made whole.
ghost use Rattle.std.specs.Prelude.{◌≡◌, ◌<◌, ◌≤◌, true, false};
ghost use Rattle.page_looks.specs.Parts.{is_worth, is_alone, alone_then, order_of, left_then, part_then};
ghost use Rattle.page_looks.specs.declared.parts.part.PartOrder.TheVariants as PartOrder;

use crate::parts::{PART_PAGES, Part, PartConfig, PartLook, PartOrder};

// Returns whether so much of a whole part could be shared that it is worth a huge page. What isn't one loses nothing.
fn is_worth(config: &PartConfig, look: &PartLook) -> bool
    ensures { result ≡ is_worth config.now look.now }
{
    let from = if look.is_huge { config.huge_from } else { 1 };
    look.may_lend && look.has_mappings && look.shareable > 0 && look.shareable >= from
}

// Returns whether next to nothing of a split part is shared.
fn is_alone(config: &PartConfig, look: &PartLook) -> bool
    ensures { result ≡ is_alone config.now look.now }
{
    let shared = u64::from(PART_PAGES.saturating_sub(look.own));
    let from = u64::from(config.huge_from.min(PART_PAGES));
    config.huge_from > config.alone_part && shared * u64::from(config.alone_part) < from
}

impl Part {
    // Returns how many looks in a row have found next to nothing shared in it, this one with them.
    fn alone_then(&self, config: &PartConfig, look: &PartLook) -> u8
        ensures { result ≡ alone_then config.now self.now look.now }
    {
        if is_alone(config, look) {
            self.alone.saturating_add(1)
        } else {
            0
        }
    }

    // Returns what is to be done with it.
    fn order(&self, config: &PartConfig, look: &PartLook) -> PartOrder
        ensures { result ≡ order_of config.now self.now look.now }
    {
        if self.pause > 0 {
            return PartOrder::Stay;
        }
        if self.whole {
            let splits = look.is_loose && is_worth(config, look);
            return if splits {
                PartOrder::Split
            } else {
                PartOrder::Stay
            };
        }
        let may = look.may_be_huge && look.may_lend && !look.may_pin && look.is_movable;
        let is_long = self.alone_then(config, look) >= config.alone;
        if may && is_long {
            PartOrder::MakeWhole
        } else {
            PartOrder::Stay
        }
    }

    // The part once this is to be done with it.
    fn then(&self, config: &PartConfig, look: &PartLook, order: PartOrder) -> Part
        ensures { result ≡ part_then config.now self.now look.now order }
    {
        match order {
            PartOrder::Stay => self.left(config, look),
            PartOrder::Split => self.paused(config),
            PartOrder::MakeWhole => self.paused(config),
        }
    }

    // The part, if nothing is to be done with it.
    fn left(&self, config: &PartConfig, look: &PartLook) -> Part
        ensures { result ≡ left_then config.now self.now look.now }
    {
        if self.pause > 0 {
            return Part {
                pause: self.pause - 1,
                ..*self
            };
        }
        if self.whole {
            return *self;
        }
        Part {
            alone: self.alone_then(config, look),
            ..*self
        }
    }

    // The part once it is to change.
    fn paused(&self, config: &PartConfig) -> Part
        ensures { result ≡ record self.now { pause = config.now.pause; alone = 0 } }
    {
        Part {
            pause: config.pause,
            alone: 0,
            ..*self
        }
    }

    /// Returns what is to be done with the part after a look. It is split only while it is loose, and made whole only while it is movable and
    /// no device may have pinned a page of it. The caller then writes to `whole` whether it was done.
    pub fn next(&mut self, config: &PartConfig, look: &PartLook) -> PartOrder
        ensures order { result ≡ order_of config.now self.old look.now }
        ensures split { result ≡ PartOrder.Split → look.now.is_loose ≡ true }
        ensures whole { result ≡ PartOrder.MakeWhole → look.now.is_movable ≡ true }
        ensures pins { result ≡ PartOrder.MakeWhole → look.now.may_pin ≡ false }
        ensures part { self.new ≡ part_then config.now self.old look.now result }
    {
        let order = self.order(config, look);
        *self = self.then(config, look, order);
        order
    }
}
