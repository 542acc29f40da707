//! What watches are shown.
ghost use Rattle.std.specs.Prelude.{◌≡◌};

use crate::told::Told;
use left_right::Absorb;
use std::alloc::AllocError;

/// The list of published reports, which ends with the report that is shown.
#[derive(Drop)]
pub struct Shown {
    pub told: Told,
}

impl Shown {
    /// Makes a copy.
    pub fn again(&self) -> Shown
        ensures { result ≡ self.now }
    {
        let told = self.told.again();
        Shown { told }
    }
}

/// An operation says what is shown from now on.
impl Absorb<Shown> for Shown {
    type State = Shown;

    ghost state = { λ shown. shown };

    ghost applied = { λ before next. next };

    ghost never_fails = { Unit {0} };

    fn absorb_first(&mut self, operation: &Shown, _other: &Shown) -> Result<(), AllocError> {
        *self = operation.again();
        Ok(())
    }
}
