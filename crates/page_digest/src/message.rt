//! The message that is hashed for a page, with SHA-256's padding: 65 blocks, whether or not a salt comes before the
//! page. All but the first and the last block are the page's own bytes and are read in place.
ghost use Rattle.std.specs.Prelude.{◌≡◌, ◌++◌, length, take, drop};
ghost use Rattle.std.specs.Int.{w32, to_be_bytes};
ghost use Rattle.sha2.specs.Sha256.{padded_message, padding};
ghost use Rattle.page_digest.specs.Hashes.{salted};

use page_model::Page;
use sha256_lanes::Padded;

// The padding after a page of 4,096 bytes: a 1 bit, and at the end the number of bits.
const PADDING: [u8; 64] = [
    0x80, 0, 0, 0, 0, 0, 0, 0, 0, 0, 0, 0, 0, 0, 0, 0, 0, 0, 0, 0, 0, 0, 0, 0, 0, 0, 0, 0, 0, 0, 0,
    0, 0, 0, 0, 0, 0, 0, 0, 0, 0, 0, 0, 0, 0, 0, 0, 0, 0, 0, 0, 0, 0, 0, 0, 0, 0, 0, 0, 0, 0, 0,
    0x80, 0,
];

// Room for a page's last four bytes, and the padding after a salt's four bytes and the page.
const SALTED_PADDING: [u8; 64] = [
    0, 0, 0, 0, 0x80, 0, 0, 0, 0, 0, 0, 0, 0, 0, 0, 0, 0, 0, 0, 0, 0, 0, 0, 0, 0, 0, 0, 0, 0, 0, 0,
    0, 0, 0, 0, 0, 0, 0, 0, 0, 0, 0, 0, 0, 0, 0, 0, 0, 0, 0, 0, 0, 0, 0, 0, 0, 0, 0, 0, 0, 0, 0,
    0x80, 0x20,
];

/// Makes a page's message under a salt.
pub(crate) fn padded(salt: u32, page: &Page) -> Padded<'_>
    ensures value { result ≡ padded_message (salted salt page.now) }
    ensures long { length result ≡ 4160 }
{
    if salt == 0 {
        return Padded::new(first_bytes(page), &page[64..], PADDING);
    }
    Padded::new(
        salt_and_first_bytes(salt, page),
        &page[60..4092],
        last_bytes(page),
    )
}

fn first_bytes(page: &Page) -> [u8; 64]
    ensures { result ≡ take 64 page.now }
{
    let mut block = [0; 64];
    block.copy_from_slice(&page[..64]);
    block
}

fn salt_and_first_bytes(salt: u32, page: &Page) -> [u8; 64]
    ensures { result ≡ to_be_bytes w32 salt ++ take 60 page.now }
{
    let mut block = [0; 64];
    block[..4].copy_from_slice(&salt.to_be_bytes());
    block[4..].copy_from_slice(&page[..60]);
    block
}

fn last_bytes(page: &Page) -> [u8; 64]
    ensures { result ≡ drop 4092 page.now ++ padding 4100 }
{
    let mut block = SALTED_PADDING;
    block[..4].copy_from_slice(&page[4092..]);
    block
}
