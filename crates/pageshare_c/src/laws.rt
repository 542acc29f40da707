//! The numbers that C reads, as lib/include/pageshare.h has them. Those of statuses are in c_surface.
ghost use Rattle.std.specs.Prelude.{◌≡◌};
ghost use Rattle.share_domain.specs.declared.number.TheConstants.{NO_FRAME, SLOTS_APART};
ghost use Rattle.pageshare_c.specs.declared.make.TheConstants.{SHA256, FOLD, WIDE_SHA256};

/// Each constant is this number.
pub fn numbers_law()
    ensures no_frame { NO_FRAME ≡ 4294967295 }
    ensures sha256 { SHA256 ≡ 0 }
    ensures fold { FOLD ≡ 1 }
    ensures wide { WIDE_SHA256 ≡ 2 }
    ensures slots_apart { SLOTS_APART ≡ 4294967296 }
{}
