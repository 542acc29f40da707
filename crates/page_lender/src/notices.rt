//! What is believed after a notice.
ghost use Rattle.std.specs.Prelude.{◌≡◌};
ghost use Rattle.page_lender.specs.Lender.{discarded_of, written_of};

use crate::Belief;

impl Belief {
    // The belief once a copy over the frame was found.
    pub(crate) fn written(&self) -> Belief
        ensures { result ≡ written_of self.now }
    {
        match *self {
            Belief::Private => Belief::Private,
            Belief::Chosen => Belief::Chosen,
            Belief::Copied => Belief::Copied,
            Belief::Turning(stage, target) => Belief::Turning(stage, target),
            Belief::Shown(slot, _, _) => Belief::Leaving(slot),
            Belief::Leaving(slot) => Belief::Leaving(slot),
        }
    }

    // The belief once the page was given up.
    pub(crate) fn discarded(&self) -> Belief
        ensures { result ≡ discarded_of self.now }
    {
        match *self {
            Belief::Private => Belief::Private,
            Belief::Chosen => Belief::Private,
            Belief::Copied => Belief::Copied,
            Belief::Turning(stage, target) => stage.dropped(target),
            Belief::Shown(slot, _, _) => Belief::Leaving(slot),
            Belief::Leaving(slot) => Belief::Leaving(slot),
        }
    }
}
