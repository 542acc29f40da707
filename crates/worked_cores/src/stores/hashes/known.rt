//! Hashes of known pages.
use crate::checks::equal;
use page_digest::{PageHash, Sha256Hash};
use page_model::Page;

fn page_of(first: u8, second: u8, last: u8) -> Page {
    let mut page = [0; 4096];
    page[0] = first;
    page[1] = second;
    page[4095] = last;
    page
}

// From sha256sum: of 4,096 zeros, of the page that begins with 0x41, and of the latter after 00000001.
#[test]
fn sha256_hashes(rt: HostRuntime) {
    let blank = page_of(0, 0, 0);
    let letter = page_of(0x41, 0, 0);
    equal(&rt, Sha256Hash.hash(0, &blank), 0xad7f_acb2_586f_c6e9);
    equal(&rt, Sha256Hash.hash(0, &letter), 0x9aab_2ec0_0da3_0c5d);
    equal(&rt, Sha256Hash.hash(1, &letter), 0x2ec9_ff62_4454_1407);
}

#[test]
fn four_sha256_hashes(rt: HostRuntime) {
    let blank = page_of(0, 0, 0);
    let letter = page_of(0x41, 0, 0);
    let hashes = Sha256Hash.hash_four([0, 1, 0, 1], &blank, &letter, &letter, &letter);
    equal(&rt, hashes[0], 0xad7f_acb2_586f_c6e9);
    equal(&rt, hashes[1], 0x2ec9_ff62_4454_1407);
    equal(&rt, hashes[2], 0x9aab_2ec0_0da3_0c5d);
    equal(&rt, hashes[3], 0x2ec9_ff62_4454_1407);
}
