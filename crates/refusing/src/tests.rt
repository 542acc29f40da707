use super::*;
use std::test::Fail;
use std::thread;

// Requests 1 and 2 are refused, and another thread returns the block that request 3 was granted.
#[test]
fn two_of_four_requests(rt: HostRuntime) -> Result<(), Fail> {
    let heap: &'static Refusing = Box::leak(Box::new(rt.alloc(), Refusing::new(rt.alloc(), 1, 1))?);
    let granted = Box::new(heap, 7u8)?;
    assert!(rt; !heap.has_refused());
    assert!(rt; !heap.holds_nothing());
    assert!(rt; Box::new(heap, 8u8).is_err());
    assert!(rt; heap.has_refused());
    assert!(rt; Box::new(heap, 9u8).is_err());
    let moved = Box::new(heap, 10u8)?;
    let thread = thread::spawn(&rt, move || drop(moved)).map_err(|_| "no thread")?;
    thread.join(&rt);
    assert!(rt; !heap.holds_nothing());
    assert_eq!(rt; *granted, 7);
    drop(granted);
    assert!(rt; heap.holds_nothing());
    assert_eq!(rt; heap.bytes_asked(), 4);
    heap.refuse_all();
    assert!(rt; Box::new(heap, 11u64).is_err());
    assert_eq!(rt; heap.bytes_asked(), 12);
    Ok(())
}
