//! What is kept of each page of a row, in a byte: where its memory is, and whether the row has given it up.
ghost use Rattle.std.specs.Prelude.{◌≡◌, ◌%◌};
ghost use Rattle.page_holds.specs.Bytes.{byte_of, byte_then, is_stuck, place_by, place_in, place_number, step_by, sticks, taking_by};
ghost use Rattle.page_holds.specs.Steps.{place_after, step_of};

use crate::{HeldPlace, HoldStep, Taking};
use page_lender::Belief;

// What is added to the byte of a page that is stuck.
const STUCK: u8 = 4;

// Returns what came of an attempt to hold a page, by its number.
pub(crate) fn taking_by(number: u8) -> Taking
    ensures { result ≡ taking_by number }
{
    match number {
        1 => Taking::Watched,
        2 => Taking::Guarded,
        3 => Taking::Aside,
        _ => Taking::Refused,
    }
}

// Returns where a page's memory is, by its number.
fn place_by(number: u8) -> HeldPlace
    ensures { result ≡ place_by number }
{
    match number {
        1 => HeldPlace::Guarded,
        2 => HeldPlace::Aside,
        3 => HeldPlace::Replaced,
        _ => HeldPlace::Free,
    }
}

// Returns the number of where a page's memory is.
fn place_number(place: HeldPlace) -> u8
    ensures { result ≡ place_number place }
{
    match place {
        HeldPlace::Free => 0,
        HeldPlace::Guarded => 1,
        HeldPlace::Aside => 2,
        HeldPlace::Replaced => 3,
    }
}

// Returns where the memory of a page is, by its byte.
pub(crate) fn place_in(byte: u8) -> HeldPlace
    ensures { result ≡ place_in byte }
{
    place_by(byte % STUCK)
}

// Returns whether a page is stuck, by its byte.
pub(crate) fn is_stuck(byte: u8) -> bool
    ensures { result ≡ is_stuck byte }
{
    byte >= STUCK
}

// Returns the byte of a page whose memory is there, and which is stuck or isn't.
pub(crate) fn byte_of(place: HeldPlace, stuck: bool) -> u8
    ensures { result ≡ byte_of place stuck }
{
    let number = place_number(place);
    if stuck { STUCK + number } else { number }
}

// Returns what is done next with a page of which this is believed, and which has this byte.
pub(crate) fn step_by(belief: Belief, byte: u8) -> HoldStep
    ensures { result ≡ step_by belief byte }
{
    if is_stuck(byte) {
        HoldStep::Over
    } else {
        place_in(byte).step(belief)
    }
}

// Returns whether a page is stuck once a step was done with it, or was refused.
pub(crate) fn sticks(step: HoldStep, is_done: bool) -> bool
    ensures { result ≡ sticks step is_done }
{
    match step {
        HoldStep::Over => false,
        HoldStep::Compare => false,
        HoldStep::CompareZeros => false,
        HoldStep::Map => false,
        HoldStep::GiveBack => false,
        HoldStep::PutBack => !is_done,
        HoldStep::EndWatch => !is_done,
    }
}

/// Returns the byte of a page with which a row of its own begins: it isn't stuck, and its memory is where it was.
pub fn again(byte: u8) -> u8
    ensures { result ≡ byte % 4 }
{
    byte % STUCK
}
