//! Laws of domains, about the definitions alone. The functions' bodies are empty: the contract is all there is.
ghost use Rattle.std.specs.Prelude.{◌≡◌};
ghost use Rattle.share_domain.specs.Open.{OpenRefusesNone, OpenRefusesNothing};
ghost use Rattle.share_domain.specs.Bytes.{LeaveKeepsBytes, ReleaseKeepsBytes};
ghost use Rattle.share_domain.specs.declared.config.TheConstants.{MAX_CLIENTS, MAX_MACHINES};
ghost use Rattle.share_domain.specs.declared.number.TheConstants.{NO_FRAME, SLOTS_APART};

/// Each limit is this number.
pub fn limits_law()
    ensures machines { MAX_MACHINES ≡ 64 }
    ensures clients { MAX_CLIENTS ≡ 65536 }
    ensures slots { SLOTS_APART ≡ 4294967296 }
    ensures no_frame { NO_FRAME ≡ 4294967295 }
{}

/// *Bytes stay*: a slot may still be held after a release or a leave, by the same client and with the same frame. Then it reads
/// the bytes that it read before. [`Domain::lend`](crate::Domain::lend) has this in its contract.
pub fn bytes_law()
    ensures releases { ReleaseKeepsBytes }
    ensures leaves { LeaveKeepsBytes }
{}

/// A machine that is open refuses no page. So a page is refused only if no machine is open.
pub fn open_law()
    ensures { OpenRefusesNone }
{}

/// While a machine is open, [`Domain::lend_at_open`](crate::Domain::lend_at_open) refuses no page of a client that is in.
pub fn open_refuses_nothing_law()
    ensures { OpenRefusesNothing }
{}
