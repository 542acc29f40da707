//! How much one call does at most.
ghost use Rattle.std.specs.Prelude.{◌≡◌};
ghost use Rattle.merge_machine.specs.declared.limits.TheConstants.{MAX_ROUND};

/// The most requests of one round.
pub const MAX_ROUND: u32 = 1_024;

/// The limit is this number.
pub fn max_round_law()
    ensures { MAX_ROUND ≡ 1024 }
{}
