//! A predicted page.
ghost use Rattle.std.specs.Prelude.{◌≡◌};
ghost use Rattle.std.specs.Option.{ForSome};

use page_digest::PageHash;
use page_model::{Entry, PAGE_BYTES, Page, Request};
use std::marker::{Model, PhantomData};

/// The bytes that a page is expected to hold, its salt, and their hash once it is computed.
///
/// A contract sees a `Foreseen`.
#[derive(Drop)]
pub(crate) struct Forecast<H: PageHash> {
    salt: u32,
    bytes: Page,
    hash: Option<u64>,
    by: PhantomData<H>,
}

impl<H: PageHash> Model for Forecast<H> {
    ghost use Rattle.std.specs.Prelude.{◌≡◌};
    ghost use Rattle.std.specs.Option.{ForSome};
    ghost use Rattle.page_forecasts.specs.Forecasts.{Foreseen};

    ghost Value = { Foreseen };

    ghost view = { λ f. record { salt = f.salt; bytes = f.bytes; hash = f.hash } };

    ghost invariant = { λ f. ForSome f.hash (λ code. code ≡ H.hash_of f.salt f.bytes) };
}

impl<H: PageHash> Forecast<H> {
    ghost use Rattle.std.specs.Prelude.{List, ℕ, Option, Some, None, is_some, ◌≡◌, ◌+◌, ◌≤◌, ◌==◌, if◌then◌else◌, length, IfSome};
    ghost use Rattle.std.specs.Option.{option_map};
    ghost use Rattle.page_model.specs.Pages.{written};
    ghost use Rattle.page_model.specs.declared.limits.TheConstants.{PAGE_BYTES};
    ghost use Rattle.page_forecasts.specs.Forecasts.{Expects, expected, hash_for, hashed, left, left_by};

    /// Makes a forecast of a page of zeros, whose hash isn't computed.
    #[tactic(auto, unfolding(page_model::specs::Pages::blank))]
    pub(crate) fn new() -> Forecast<H>
        ensures { result ≡ expected 0 None }
    {
        Forecast {
            salt: 0,
            bytes: [0; PAGE_BYTES],
            hash: None,
            by: PhantomData,
        }
    }

    /// Returns the salt.
    pub(crate) fn salt(&self) -> u32
        ensures { result ≡ self.now.salt }
    {
        self.salt
    }

    /// Returns the bytes.
    pub(crate) fn bytes(&self) -> &Page
        ensures { result.now ≡ self.now.bytes }
    {
        &self.bytes
    }

    /// Predicts what page `ppn` of `guest` will contain once the requests `before` are served, and returns whether it will be
    /// mapped. The page has salt `salt` and now contains `bytes`, `None` if it is unmapped.
    pub(crate) fn foresee(
        &mut self,
        salt: u32,
        bytes: Option<&Page>,
        before: &[Entry],
        guest: u8,
        ppn: u32,
    ) -> bool
        ensures forecast { self.new ≡ expected salt (left_by before.now guest ppn (option_map (λ page. page.now) bytes.entry)) }
        ensures mapped { result ≡ is_some (left_by before.now guest ppn (option_map (λ page. page.now) bytes.entry)) }
    {
        self.begin(salt, bytes);
        self.serve_all(before, guest, ppn, bytes.is_some())
    }

    /// Starts over, with a page of these bytes, or one of zeros.
    #[tactic(auto, unfolding(page_model::specs::Pages::blank))]
    fn begin(&mut self, salt: u32, bytes: Option<&Page>)
        ensures { self.new ≡ expected salt (option_map (λ page. page.now) bytes.entry) }
    {
        self.hash = None;
        self.salt = salt;
        match bytes {
            None => self.bytes = [0; PAGE_BYTES],
            Some(bytes) => self.bytes = *bytes,
        }
    }

    /// Applies these requests to the predicted page. Returns whether it is mapped after them.
    fn serve_all(&mut self, requests: &[Entry], guest: u8, ppn: u32, is_mapped: bool) -> bool
        ensures { (salt : ℕ) (page : Option (List ℕ)) → Expects self.old salt is_mapped page
            → Expects self.new salt result (left_by requests.now guest ppn page) }
    {
        let mut is_mapped = is_mapped;
        for entry in requests {
            if entry.guest == guest {
                is_mapped = self.serve(&entry.request, ppn, is_mapped);
            }
        }
        is_mapped
    }

    /// Applies one request to the predicted page. Returns whether the page is mapped after it.
    fn serve(&mut self, request: &Request, ppn: u32, is_mapped: bool) -> bool
        ensures { (salt : ℕ) (page : Option (List ℕ)) → Expects self.old salt is_mapped page
            → Expects self.new salt result (left request.now ppn page) }
    {
        match request {
            Request::Store(store) => {
                if store.ppn() != ppn {
                    return is_mapped;
                }
                self.store(store.at() as usize, store.bytes());
                true
            }
            Request::Release(released) => {
                if *released != ppn {
                    return is_mapped;
                }
                self.begin(self.salt, None);
                false
            }
            Request::Propose(_) => is_mapped,
            Request::Load(_) => is_mapped,
            Request::Count => is_mapped,
            Request::Close => is_mapped,
        }
    }

    /// Applies a store to the predicted page.
    fn store(&mut self, at: usize, bytes: &[u8])
        requires { at + length bytes.now ≤ PAGE_BYTES }
        ensures { self.new ≡ expected self.old.salt (Some (written self.old.bytes at bytes.now)) }
    {
        self.hash = None;
        self.bytes[at..at + bytes.len()].copy_from_slice(bytes);
    }

    /// Keeps the hash of the predicted page.
    pub(crate) fn learn(&mut self, code: u64)
        requires { code ≡ H.hash_of self.old.salt self.old.bytes }
        ensures { self.new ≡ hashed H.hash_of self.old }
    {
        self.hash = Some(code);
    }

    /// Returns the hash of a page with this salt and these bytes, if that was predicted and its hash computed.
    pub(crate) fn hash_of(&self, salt: u32, bytes: &Page) -> Option<u64>
        ensures known { result ≡ hash_for salt bytes.now self.now }
        ensures right { IfSome result (λ code. code ≡ H.hash_of salt bytes.now) }
    {
        if self.salt == salt && self.bytes == *bytes {
            self.hash
        } else {
            None
        }
    }
}
