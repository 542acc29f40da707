//! Refused memory.
use crate::checks::{holds, holds_at};
use crate::estimates::digests::fleets::merged::{Refusal, merge_texts};
use fleet_census::Pairs;
use refusing::Refusing;

const WEB: &[u8] = b"guest,salt,pages,sample,digest,copies
web,0,3,1,00e1000000000000000000000000000a,3
";

// There is a request for memory for each text's buffer, and six for the merge. If pairs are counted, there is one for their rows
// and one for the row that has an entry. Each is refused in turn, and nothing is held after it.
#[test]
fn each_request(rt: HostRuntime) {
    for (pairs, requests) in [(Pairs::Omitted, 8), (Pairs::Counted, 10)] {
        for first in 0..requests {
            let heap = Refusing::new(rt.alloc(), first, 0);
            let found = merge_texts(&rt, &heap, rt.alloc(), &[WEB, WEB], pairs).err();
            holds_at(&rt, first, found == Some(Refusal::OutOfMemory));
            holds(&rt, heap.holds_nothing());
        }
        let heap = Refusing::new(rt.alloc(), requests, 0);
        holds(
            &rt,
            merge_texts(&rt, &heap, rt.alloc(), &[WEB, WEB], pairs).is_ok(),
        );
    }
}
