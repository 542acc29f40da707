//! The fast hash, checked against known values.
use crate::checks::equal;
use page_digest::{FoldHash, PageHash};
use page_model::Page;

// By Python:
//     def mul(a, b): return (a * b & B) ^ (a * b >> 64)
//     def word(data, at): return int.from_bytes(data[at:at + 8], 'little')
//     def fold(salt, page, B=2**64 - 1, M=0x9e3779b97f4a7c15):
//         state = mul(0x243f6a8885a308d3 ^ (salt | salt << 32), M ^ 8) + 4096 & B
//         for at in range(0, 4096, 16): state = mul(word(page, at) ^ state, word(page, at + 8) ^ M)
//         return state
#[test]
fn known_values(rt: HostRuntime) {
    equal(&rt, fold(u32::MAX, &ends_with_one()), 0xeb91_b239_01c7_cf36);
    equal(&rt, fold(0, &counts_up()), 0xb212_5a5b_db8f_a88b);
    equal(&rt, fold(7, &counts_up()), 0x2385_921c_52a4_c8f7);
}

fn fold(salt: u32, page: &Page) -> u64 {
    FoldHash.hash(salt, page)
}

fn ends_with_one() -> Page {
    let mut page = [0; 4096];
    page[4095] = 1;
    page
}

// Makes a page in which each byte is its place modulo 251.
fn counts_up() -> Page {
    let mut page = [0; 4096];
    for i in 0..4096 {
        page[i] = (i % 251) as u8;
    }
    page
}
