//! When looks begin.
ghost use Rattle.std.specs.Prelude.{◌≡◌};
ghost use Rattle.look_tasks.specs.Times.{begun, looked, made_eager, pause_of};

use look_tasks::{LookFinds, LookTimes};

/// Begins the times of looks that are `period_ms` apart.
#[unsafe(no_mangle)]
pub extern "C" fn pageshare_window_begin_times(times: &mut LookTimes, period_ms: u32)
    ensures { times.new ≡ begun period_ms }
{
    *times = LookTimes::begin(period_ms);
}

/// Makes the next looks come sooner: there is a new window, or a new lender.
#[unsafe(no_mangle)]
pub extern "C" fn pageshare_window_be_eager(times: &mut LookTimes)
    ensures { times.new ≡ made_eager times.old }
{
    times.be_eager();
}

/// Takes what a look found, and whether there was a lender.
#[unsafe(no_mangle)]
pub extern "C" fn pageshare_window_look_ended(
    times: &mut LookTimes,
    finds: &LookFinds,
    may_lend: bool,
)
    ensures { times.new ≡ looked times.old finds.now may_lend }
{
    times.looked(finds, may_lend);
}

/// Returns how many milliseconds pass until the next look, after one that lasted so long.
#[unsafe(no_mangle)]
pub extern "C" fn pageshare_window_pause_ms(times: &LookTimes, took_ms: u64) -> u64
    ensures { result ≡ pause_of times.now took_ms }
{
    times.pause_ms(took_ms)
}
