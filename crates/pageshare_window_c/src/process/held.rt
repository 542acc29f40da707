//! What a process's handle holds.

use process_lender::ProcessLender;
use std::alloc::Global;
use std::marker::Model;

/// All windows of a process.
#[derive(Drop)]
pub struct HeldProcess {
    pub(crate) lender: ProcessLender<Global>,
}

impl Model for HeldProcess {
    ghost use Rattle.process_lender.specs.Windows.{Lender};

    ghost Value = { Lender };

    ghost view = { λ h. h.lender };
}
