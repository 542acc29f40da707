//! Pages that are lent in a group, with their hashes computed together.
ghost use Rattle.std.specs.Prelude.{◌≡◌, [], ◌∷◌, Some};
ghost use Rattle.page_digest.specs.Hashes.{four_hashes};
ghost use Rattle.pageshare_c.specs.Hashed.{hash_in};
ghost use Rattle.pageshare_c.specs.InTurn.{LendsOne, LendInTurn};

use crate::answer::Answer;
use crate::hashed_core::HashedCore;
use merge_core::SaltedHash;
use page_model::Page;

/// A page that is to be lent, and its bytes.
#[repr(C)]
#[derive(Clone, Copy)]
pub struct Lending<'a> {
    pub guest: u32,
    pub ppn: u32,
    pub page: &'a Page,
}

/// Lends four pages, one after the other, with their hashes computed together where they are.
pub(crate) fn lend_together(
    core: &mut HashedCore,
    pages: &[Lending<'_>; 4],
    answers: &mut [Answer; 4],
)
    ensures { LendInTurn pages.now answers.new (Some core.old) (Some core.new) }
{
    let (a, b, c, d) = (&pages[0], &pages[1], &pages[2], &pages[3]);
    let salts = [
        core.salt(a.guest),
        core.salt(b.guest),
        core.salt(c.guest),
        core.salt(d.guest),
    ];
    let hashes = core.hash_four(salts, a.page, b.page, c.page, d.page);
    *answers = lend_four_hashed(core, a, b, c, d, salts, hashes);
}

/// Lends eight pages, one after the other, with their hashes computed together where they are.
pub(crate) fn lend_eight(core: &mut HashedCore, pages: &[Lending<'_>; 8], answers: &mut [Answer; 8])
    ensures { LendInTurn pages.now answers.new (Some core.old) (Some core.new) }
{
    let [a, b, c, d, e, f, g, h] = pages;
    let salts = salts_of(core, pages);
    let hashes = core.hash_eight(
        salts,
        [
            a.page, b.page, c.page, d.page, e.page, f.page, g.page, h.page,
        ],
    );
    let first = lend_four_hashed(
        core,
        a,
        b,
        c,
        d,
        [salts[0], salts[1], salts[2], salts[3]],
        [hashes[0], hashes[1], hashes[2], hashes[3]],
    );
    let last = lend_four_hashed(
        core,
        e,
        f,
        g,
        h,
        [salts[4], salts[5], salts[6], salts[7]],
        [hashes[4], hashes[5], hashes[6], hashes[7]],
    );
    *answers = [
        first[0], first[1], first[2], first[3], last[0], last[1], last[2], last[3],
    ];
}

/// Returns the salts of the pages' guests, 0 where there is no such guest.
fn salts_of(core: &HashedCore, pages: &[Lending<'_>; 8]) -> [u32; 8] {
    let [a, b, c, d, e, f, g, h] = pages;
    [
        core.salt(a.guest),
        core.salt(b.guest),
        core.salt(c.guest),
        core.salt(d.guest),
        core.salt(e.guest),
        core.salt(f.guest),
        core.salt(g.guest),
        core.salt(h.guest),
    ]
}

/// Lends four pages, one after the other, of which the hashes are known.
fn lend_four_hashed(
    core: &mut HashedCore,
    a: &Lending<'_>,
    b: &Lending<'_>,
    c: &Lending<'_>,
    d: &Lending<'_>,
    salts: [u32; 4],
    hashes: [u64; 4],
) -> [Answer; 4]
    requires hashes { hashes ≡ four_hashes (hash_in core.old) salts a.now.page.now b.now.page.now c.now.page.now d.now.page.now }
    ensures lends { LendInTurn (a.now ∷ b.now ∷ c.now ∷ d.now ∷ []) result (Some core.old) (Some core.new) }
    ensures hash { hash_in core.new ≡ hash_in core.old }
{
    let first = lend_hashed(core, a, salts[0], hashes[0]);
    let second = lend_hashed(core, b, salts[1], hashes[1]);
    let third = lend_hashed(core, c, salts[2], hashes[2]);
    let fourth = lend_hashed(core, d, salts[3], hashes[3]);
    [first, second, third, fourth]
}

/// Lends four pages, one after the other, each hashed by itself.
pub(crate) fn lend_each(core: &mut HashedCore, pages: &[Lending<'_>; 4], answers: &mut [Answer; 4])
    ensures { LendInTurn pages.now answers.new (Some core.old) (Some core.new) }
{
    let one = lend_one(core, &pages[0]);
    let two = lend_one(core, &pages[1]);
    let three = lend_one(core, &pages[2]);
    let four = lend_one(core, &pages[3]);
    *answers = [one, two, three, four];
}

/// Lends a page, of which a hash is known.
fn lend_hashed(core: &mut HashedCore, page: &Lending<'_>, salt: u32, hash: u64) -> Answer
    requires hash { hash ≡ hash_in core.old salt page.now.page.now }
    ensures lends { LendsOne page.now.guest page.now.ppn page.now.page.now result (Some core.old) (Some core.new) }
    ensures hash { hash_in core.new ≡ hash_in core.old }
{
    let known = Some(SaltedHash { salt, hash });
    core.lend(page.guest, page.ppn, page.page, known)
}

/// Lends a page.
fn lend_one(core: &mut HashedCore, page: &Lending<'_>) -> Answer
    ensures { LendsOne page.now.guest page.now.ppn page.now.page.now result (Some core.old) (Some core.new) }
{
    core.lend(page.guest, page.ppn, page.page, None)
}
