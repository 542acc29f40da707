//! The numbers of the format, as a law.
ghost use Rattle.std.specs.Prelude.{◌≡◌, ◌+◌, ◌*◌, ◌^◌};
ghost use Rattle.host_messages.specs.declared.limits.TheConstants.{ASK, HEAD_BYTES, HELLO, LEND, LOANS, MAX_IN_MESSAGE, MAX_MESSAGE_BYTES};
ghost use Rattle.host_messages.specs.declared.limits.TheConstants.{NAME_BYTES, PASSING, RELEASE, SEEN, VERSION, WANTED_BYTES, WELCOME};

/// Each number of the format is this one. The longest message is a head and as many items of 16 bytes as a message has at most.
pub fn limits_law()
    ensures version { VERSION ≡ 2 }
    ensures items { MAX_IN_MESSAGE ≡ 128 }
    ensures head { HEAD_BYTES ≡ 8 }
    ensures longest { MAX_MESSAGE_BYTES ≡ 2056 }
    ensures sum { MAX_MESSAGE_BYTES ≡ HEAD_BYTES + MAX_IN_MESSAGE * 16 }
    ensures name { NAME_BYTES ≡ 16 }
    ensures wanted { WANTED_BYTES ≡ 24 }
    ensures passing { PASSING ≡ 2 ^ 63 }
    ensures asks { (HELLO ≡ 1) × (ASK ≡ 2) × (LEND ≡ 3) × (RELEASE ≡ 4) }
    ensures answers { (WELCOME ≡ 17) × (SEEN ≡ 18) × (LOANS ≡ 19) }
{}
