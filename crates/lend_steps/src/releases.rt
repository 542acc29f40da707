//! Which slots are released.
ghost use Rattle.std.specs.Prelude.{◌≡◌, ◌&&◌, ◌+◌, ◌<◌, ◌≤◌, ◌^◌, [], if◌then◌else◌, length, nat_eq, slice_set, true, false};
ghost use Rattle.lend_steps.specs.Lists.{Each, InTurn, Turn};
ghost use Rattle.lend_steps.specs.Releases.{Finds, FindsAt, Found, OrderedTo, ReleasedAt, ToRelease, is_hold, is_passed, is_release, may_release, released_as};
ghost use Rattle.lend_steps.specs.Lists.{Told};
ghost use Rattle.page_holds.specs.Rows.{PageChanges};
ghost use Rattle.window_pages.specs.Bytes.{known_of};
ghost use Rattle.window_pages.specs.Counted.{is_to_release};
ghost use Rattle.window_tables.specs.Facts.{facts_at, is_pinned, only_called};
ghost use Rattle.window_tables.specs.Tables.{Counted, can_note, has_parts};

use crate::tell::{NO_FACTS, tell};
use page_lender::{Order, Outcome};
use window_pages::{PartCounts, WindowFacts, WindowPage, next};
use window_tables::{PART, TableFacts, can_note, facts_of};

// Returns whether an order is to hold a page.
pub(crate) fn is_hold(order: Order) -> bool
    ensures { result ≡ is_hold order }
{
    match order {
        Order::Wait => false,
        Order::Copy => false,
        Order::Lend => false,
        Order::Hold(_) => true,
        Order::Compare(_) => false,
        Order::Map(_) => false,
        Order::LetGo(_) => false,
        Order::TakeHome(_) => false,
        Order::Release(_) => false,
    }
}

// Returns whether an order is to release a slot.
fn is_release(order: Order) -> bool
    ensures { result ≡ is_release order }
{
    match order {
        Order::Wait => false,
        Order::Copy => false,
        Order::Lend => false,
        Order::Hold(_) => false,
        Order::Compare(_) => false,
        Order::Map(_) => false,
        Order::LetGo(_) => false,
        Order::TakeHome(_) => false,
        Order::Release(_) => true,
    }
}

// Returns whether a page may be released.
fn may_release(page: &WindowPage) -> bool
    ensures { result ≡ may_release (known_of page.now) }
{
    let known = page.known();
    let has_slot = known.belief.slot().is_some();
    has_slot && !known.belief.shows() && !known.ordered && !known.belief.waits()
}

// Returns whether a page was pinned.
fn is_pinned(pins: &[u16], place: usize) -> bool
    ensures { result ≡ is_pinned pins.now place }
{
    place < pins.len() && pins[place] > 0
}

// Returns whether the page at a place is passed by.
fn is_passed(pages: &[WindowPage], pins: &[u16], place: usize) -> bool
    requires { place < length pages.now }
    ensures { result ≡ is_passed pins.now place pages.now }
{
    let may = may_release(&pages[place]);
    !may || is_pinned(pins, place)
}

// Gives a page its order. If it was to be held, that is refused first.
fn order_to(page: &mut WindowPage, part: &mut PartCounts, facts: &WindowFacts) -> Order
    ensures { OrderedTo facts.now result page.old page.new part.old part.new }
{
    let order = next(page, part, facts);
    let holds = is_hold(order);
    if !holds {
        return order;
    }
    tell(page, part, Outcome::Refused);
    next(page, part, facts)
}

// Gives a page its order, and returns whether its slot is to be released now.
fn to_release_one(page: &mut WindowPage, part: &mut PartCounts, facts: &WindowFacts) -> bool
    ensures { ToRelease facts.now result page.old page.new part.old part.new }
{
    let order = order_to(page, part, facts);
    is_release(order)
}

// The same of the page at a place.
fn to_release_there(
    pages: &mut [WindowPage],
    parts: &mut [PartCounts],
    lead: usize,
    place: usize,
    facts: &WindowFacts,
) -> bool
    requires parts { has_parts lead pages.old parts.old ≡ true }
    requires place { place < length pages.old }
    ensures { PageChanges (λ x y p q. ToRelease facts.now result x y p q) lead place pages.old pages.new parts.old parts.new }
{
    let number = (place + lead) / PART;
    let mut page = pages[place];
    let mut part = parts[number];
    let is = to_release_one(&mut page, &mut part, facts);
    pages[place] = page;
    parts[number] = part;
    is
}

// Writes a place behind so many, if this is so. Returns how many there are then.
fn put_if(is_so: bool, places: &mut [usize], count: usize, place: usize) -> usize
    requires { count < length places.old }
    ensures count { result ≡ if is_so then count + 1 else count }
    ensures places { places.new ≡ if is_so then slice_set places.old count place else places.old }
    ensures length { length places.new ≡ length places.old }
    ensures room { result ≤ length places.old }
{
    if !is_so {
        return count;
    }
    places[count] = place;
    count + 1
}

// Finds whether the page at a place is to be released, unless as many were found as there is room for.
fn find_at(
    pages: &mut [WindowPage],
    parts: &mut [PartCounts],
    lead: usize,
    table: &TableFacts,
    pins: &[u16],
    place: usize,
    places: &mut [usize],
    count: usize,
) -> usize
    requires parts { has_parts lead pages.old parts.old ≡ true }
    requires place { place < length pages.old }
    requires count { count ≤ length places.old }
    ensures found { FindsAt (facts_at table.now pins.now (only_called false) place) pins.now lead place (length places.old) count result pages.old pages.new parts.old parts.new places.old places.new }
    ensures room { result ≤ length places.old }
    ensures length { length places.new ≡ length places.old }
{
    if count >= places.len() {
        return count;
    }
    let passed = is_passed(pages, pins, place);
    if passed {
        return count;
    }
    let facts = facts_of(table, pins, &NO_FACTS, place);
    let is = to_release_there(pages, parts, lead, place, &facts);
    put_if(is, places, count, place)
}

// Finds which of so many pages from a place on are to be released.
fn to_release_each(
    pages: &mut [WindowPage],
    parts: &mut [PartCounts],
    lead: usize,
    table: &TableFacts,
    pins: &[u16],
    first: usize,
    n: usize,
    places: &mut [usize],
) -> usize
    requires parts { has_parts lead pages.old parts.old ≡ true }
    requires within { first + n ≤ length pages.old }
    ensures found { Found table.now pins.now lead first (length places.old) pages.old parts.old places.old n result pages.new parts.new places.new }
    ensures room { result ≤ length places.old }
    ensures counted { Counted lead pages.old parts.old → Counted lead pages.new parts.new }
{
    let mut count = 0;
    for step in 0..n {
        count = find_at(pages, parts, lead, table, pins, first + step, places, count);
    }
    count
}

/// Finds which of `n` pages from `first` on are to be released: their slots aren't needed, no order of them is open, and no transfer of them is under
/// way. That is their order from then on. Writes their numbers to `places`, as many as there is room for, and returns how many they are. Where these
/// pages aren't all there, or the table has more pages than its parts, there are none, and nothing changes.
pub fn to_release(
    pages: &mut [WindowPage],
    parts: &mut [PartCounts],
    lead: usize,
    table: &TableFacts,
    pins: &[u16],
    first: usize,
    n: usize,
    places: &mut [usize],
) -> usize
    ensures { Finds table.now pins.now lead first n (can_note lead first n pages.old parts.old) result pages.old pages.new parts.old parts.new places.old places.new }
{
    let can = can_note(pages, parts, lead, first, n);
    if !can {
        return 0;
    }
    to_release_each(pages, parts, lead, table, pins, first, n, places)
}

// Takes what came of the message that released slots, for the page of a number, which is there.
fn released_there(
    pages: &mut [WindowPage],
    parts: &mut [PartCounts],
    lead: usize,
    place: usize,
    outcome: Outcome,
)
    requires parts { has_parts lead pages.old parts.old ≡ true }
    requires place { place < length pages.old }
    ensures { PageChanges (λ x y p q. Told outcome x y p q) lead place pages.old pages.new parts.old parts.new }
{
    let number = (place + lead) / PART;
    let mut page = pages[place];
    let mut part = parts[number];
    tell(&mut page, &mut part, outcome);
    pages[place] = page;
    parts[number] = part;
}

// The same of the page of a number, if there is one.
fn released_at(
    pages: &mut [WindowPage],
    parts: &mut [PartCounts],
    lead: usize,
    place: usize,
    outcome: Outcome,
)
    requires parts { has_parts lead pages.old parts.old ≡ true }
    ensures { Turn (λ a x y p q. Told outcome x y p q) lead place 0 pages.old pages.new parts.old parts.new }
{
    if place < pages.len() {
        released_there(pages, parts, lead, place, outcome);
    }
}

// Returns what came of the message, as an outcome.
fn released_as(is_done: bool) -> Outcome
    ensures { result ≡ released_as is_done }
{
    if is_done {
        Outcome::Done
    } else {
        Outcome::Refused
    }
}

// The same of each page of a list.
fn released_each(
    pages: &mut [WindowPage],
    parts: &mut [PartCounts],
    lead: usize,
    numbers: &[usize],
    is_done: bool,
)
    requires parts { has_parts lead pages.old parts.old ≡ true }
    ensures pages { InTurn (ReleasedAt is_done) lead numbers.now pages.old parts.old [] (length numbers.now) pages.new parts.new [] }
    ensures counted { Counted lead pages.old parts.old → Counted lead pages.new parts.new }
{
    for n in 0..numbers.len() {
        released_at(pages, parts, lead, numbers[n], released_as(is_done));
    }
}

/// Takes what came of the message that released the slots of a list's pages: the host heard it, or it didn't. Returns false, and changes nothing, if
/// the table has more pages than its parts.
pub fn released(
    pages: &mut [WindowPage],
    parts: &mut [PartCounts],
    lead: usize,
    numbers: &[usize],
    is_done: bool,
) -> bool
    ensures { Each (ReleasedAt is_done) lead numbers.now (has_parts lead pages.old parts.old) result pages.old pages.new parts.old parts.new [] [] }
{
    let can = can_note(pages, parts, lead, 0, 0);
    if !can {
        return false;
    }
    released_each(pages, parts, lead, numbers, is_done);
    true
}
