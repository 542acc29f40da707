//! The numbers that C reads, as lib/include/pageshare_host.h has them.
ghost use Rattle.std.specs.Prelude.{◌≡◌, ◌^◌};
ghost use Rattle.host_messages.specs.declared.limits.TheConstants.{MAX_IN_MESSAGE, MAX_MESSAGE_BYTES, PASSING, VERSION};
ghost use Rattle.share_domain.specs.declared.number.TheConstants.{NO_FRAME};

/// Each constant is this number.
pub fn numbers_law()
    ensures most { MAX_IN_MESSAGE ≡ 128 }
    ensures longest { MAX_MESSAGE_BYTES ≡ 2056 }
    ensures version { VERSION ≡ 2 }
    ensures no_frame { NO_FRAME ≡ 4294967295 }
    ensures passing { PASSING ≡ 2 ^ 63 }
{}
