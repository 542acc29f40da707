//! The calls of `Table`, each with a key by its number. Each change follows a search, as in the core of a machine.
ghost use Rattle.std.specs.Prelude.{◌≡◌};

use crate::keys::{hash, key};
use share_table::Table;
use std::alloc::Global;

// The most entries of a table, and the most pages that all its shared frames have.
const MOST: u32 = 1_048_576;

/// A table, and its capacity.
#[derive(Drop)]
pub struct TimedTable {
    table: Table,
    pub capacity: u32,
    ghost room: { table.capacity ≡ capacity },
}

/// Makes an empty table.
pub fn new_table(alloc: Global, capacity: u32) -> Option<TimedTable> {
    if capacity == 0 || capacity > MOST {
        return None;
    }
    let table = Table::new(alloc, capacity).ok()?;
    Some(TimedTable { table, capacity })
}

/// A call that is timed.
pub trait Call {
    /// Makes it with key number `n`, and returns whether it could be made.
    fn call(timed: &mut TimedTable, n: u32) -> bool;
}

pub struct AddShared;

impl Call for AddShared {
    fn call(timed: &mut TimedTable, n: u32) -> bool {
        let hash = hash(n);
        if timed.table.find_shared(hash).is_some()
            || timed.table.len() >= timed.capacity
            || timed.table.references() >= MOST - 1
        {
            return false;
        }
        timed.table.add_shared(hash, n % 1024);
        true
    }
}

pub struct PutHint;

impl Call for PutHint {
    fn call(timed: &mut TimedTable, n: u32) -> bool {
        let key = key(n);
        if timed.table.find_hint(key).is_some() || timed.table.len() >= timed.capacity {
            return false;
        }
        timed.table.put_hint(key, 1, n % 1024, n % 1024);
        true
    }
}

pub struct FindShared;

impl Call for FindShared {
    fn call(timed: &mut TimedTable, n: u32) -> bool {
        timed.table.find_shared(hash(n)).is_some()
    }
}

pub struct FindHint;

impl Call for FindHint {
    fn call(timed: &mut TimedTable, n: u32) -> bool {
        timed.table.find_hint(key(n)).is_some()
    }
}

pub struct Join;

impl Call for Join {
    fn call(timed: &mut TimedTable, n: u32) -> bool {
        let hash = hash(n);
        if timed.table.find_shared(hash).is_none() || timed.table.references() >= MOST {
            return false;
        }
        timed.table.join(hash);
        true
    }
}

pub struct Leave;

impl Call for Leave {
    fn call(timed: &mut TimedTable, n: u32) -> bool {
        let hash = hash(n);
        if timed.table.find_shared(hash).is_none() {
            return false;
        }
        timed.table.leave(hash);
        true
    }
}

pub struct DropHint;

impl Call for DropHint {
    fn call(timed: &mut TimedTable, n: u32) -> bool {
        let key = key(n);
        if timed.table.find_hint(key).is_none() {
            return false;
        }
        timed.table.drop_hint(key);
        true
    }
}

/// Makes a call with each of the first keys in order, and returns how often it could be made.
pub fn in_order<C: Call>(timed: &mut TimedTable, count: u32) -> u32 {
    let mut made = 0u32;
    for n in 0..count {
        if C::call(timed, n) {
            made = made.wrapping_add(1);
        }
    }
    made
}

/// Makes a call with each of the first keys in an order that jumps, and returns how often it could be made.
pub fn by_jumps<C: Call>(timed: &mut TimedTable, count: u32) -> u32 {
    let mut made = 0u32;
    let mut n = 0;
    for _step in 0..count {
        n = jump(n, count);
        if C::call(timed, n) {
            made = made.wrapping_add(1);
        }
    }
    made
}

// Returns the number after `n`, of `count` numbers, in an order that jumps.
fn jump(n: u32, count: u32) -> u32 {
    if count == 0 {
        return 0;
    }
    ((u64::from(n) + 611_953) % u64::from(count)) as u32
}
