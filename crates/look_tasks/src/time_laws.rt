//! What a guest's owner can rely on. The functions' bodies are empty: the contract is all there is.
ghost use Rattle.std.specs.Prelude.{◌≡◌};
ghost use Rattle.look_tasks.specs.TimeLaws.{StaysInBounds, EagerComesSooner, FoundComesInTime, MuchComesSooner, CalmComesLater, TurnsStayInBounds, LooksAreApart, PausesAreEnough};
ghost use Rattle.look_tasks.specs.declared.times.TheConstants.{ASKED_LITTLE, CALM_LOOKS, EAGER_LOOKS, FOUND_LITTLE, MUCH, MUCH_PART};

/// Whatever looks find, the next one comes within two and a quarter periods, and a millisecond after the last at least. After a new window or
/// lender so many come in a quarter of a period, and so does one after a look that found much. After a look that found more than next to
/// nothing the next comes within a period. Where looks find next to nothing for long they come to be two periods apart.
pub fn period_law()
    ensures bounds { StaysInBounds }
    ensures eager { EagerComesSooner }
    ensures much { MuchComesSooner }
    ensures found { FoundComesInTime }
    ensures calm { CalmComesLater }
{}

/// Whatever looks find, a page that nobody else has is asked about again at one look in 4 to 512.
pub fn turns_law()
    ensures { TurnsStayInBounds }
{}

/// Two looks begin as far apart as they are to, or further. There is a pause after each, and after a long calm it is as long as the look.
pub fn pause_law()
    ensures apart { LooksAreApart }
    ensures pauses { PausesAreEnough }
{}

/// What is much, and what is next to nothing; and after how many looks the time between two becomes longer, or how many come sooner.
pub fn numbers_law()
    ensures much { MUCH ≡ 256 }
    ensures much_part { MUCH_PART ≡ 128 }
    ensures found_little { FOUND_LITTLE ≡ 4 }
    ensures asked_little { ASKED_LITTLE ≡ 32 }
    ensures calm_looks { CALM_LOOKS ≡ 30 }
    ensures eager_looks { EAGER_LOOKS ≡ 8 }
{}
