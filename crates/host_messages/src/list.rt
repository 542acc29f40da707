//! The items of a message.
ghost use Rattle.std.specs.Prelude.{◌≡◌, ◌+◌, ◌*◌, ◌≤◌, ◌++◌, length, IfNone};
ghost use Rattle.std.specs.List.{flat_map};
ghost use Rattle.arrayvec.specs.ArrayVec.{array_vec_len};
ghost use Rattle.host_messages.specs.Reading.{items_at, count_fault};
ghost use Rattle.host_messages.specs.Spelling.{head};
ghost use Rattle.host_messages.specs.declared.limits.TheConstants.{MAX_IN_MESSAGE, MAX_MESSAGE_BYTES};

use crate::fault::MessageFault;
use crate::item::{Item, Packet, put_u32};
use crate::limits::MAX_IN_MESSAGE;
use arrayvec::ArrayVec;

/// Reads `count` items.
pub(crate) fn read_items<T: Item + Default>(
    count: usize,
    bytes: &[u8],
) -> ArrayVec<T, MAX_IN_MESSAGE>
    requires few { count ≤ MAX_IN_MESSAGE }
    requires all { length bytes.now ≡ count * T.WIDTH }
    ensures { result.items ≡ items_at T.WIDTH T.item_at count bytes.now }
{
    let mut items = ArrayVec::new();
    let mut rest = bytes;
    for _ in 0..count {
        let (first, others) = rest.split_at(T::WIDTH);
        items.push(T::read(first));
        rest = others;
    }
    items
}

/// Puts items at a packet's end.
pub(crate) fn put_items<T: Item>(packet: &mut Packet, items: &[T])
    requires { array_vec_len packet.old + length items.now * T.WIDTH ≤ MAX_MESSAGE_BYTES }
    ensures { packet.new.items ≡ packet.old.items ++ flat_map T.spelled items.now }
{
    for item in items {
        item.put(packet);
    }
}

/// Returns the fault of a message that lists `count` items of this width, if it has one.
pub(crate) fn count_fault(count: u32, width: usize, rest: &[u8]) -> Option<MessageFault>
    requires { width ≤ 16 }
    ensures fault { result ≡ count_fault width count (length rest.now) }
    ensures fits { IfNone result ((count ≤ MAX_IN_MESSAGE) × (length rest.now ≡ count * width)) }
{
    let count = count as usize;
    if count > MAX_IN_MESSAGE {
        return Some(MessageFault::Count);
    }
    if rest.len() != count * width {
        return Some(MessageFault::Length);
    }
    None
}

/// Puts a head at a packet's end.
pub(crate) fn put_head(packet: &mut Packet, kind: u32, number: u32)
    requires { array_vec_len packet.old + 8 ≤ MAX_MESSAGE_BYTES }
    ensures bytes { packet.new.items ≡ packet.old.items ++ head kind number }
    ensures len { array_vec_len packet.new ≡ array_vec_len packet.old + 8 }
{
    put_u32(packet, kind);
    put_u32(packet, number);
}
