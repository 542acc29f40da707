//! Eight pages hashed at once.
use crate::checks::holds;
use page_digest::{PageHash, WideSha256Hash};
use page_model::Page;

// Makes a page that begins with this byte, and then has zeros.
fn page_of(first: u8) -> Page {
    let mut page = [0; 4096];
    page[0] = first;
    page
}

// Returns the hashes of pages that begin with 0x41, 0x42 and so on.
fn hashes_of(hash: &impl PageHash, salts: [u32; 8]) -> [u64; 8] {
    let (a, b, c, d) = (page_of(0x41), page_of(0x42), page_of(0x43), page_of(0x44));
    let (e, f, g, h) = (page_of(0x45), page_of(0x46), page_of(0x47), page_of(0x48));
    hash.hash_eight(salts, [&a, &b, &c, &d, &e, &f, &g, &h])
}

// From sha256sum, with the salt's four bytes before a page whose salt isn't 0.
const KNOWN: [u64; 8] = [
    0x9aab_2ec0_0da3_0c5d,
    0x742a_92ca_b46e_d33d,
    0xe457_e36b_cac3_a7f8,
    0xdf8b_e134_b908_7efb,
    0x85e1_a45f_9f7f_a21f,
    0xe61a_2d66_ba05_d47b,
    0xe5c0_17c5_f2e0_f947,
    0xd2ac_6d6f_98ed_1fa7,
];

#[test]
fn by_eight_lanes(rt: HostRuntime) {
    holds(
        &rt,
        hashes_of(&WideSha256Hash, [0, 1, 0, 0xffff_ffff, 2, 0, 3, 1]) == KNOWN,
    );
}
