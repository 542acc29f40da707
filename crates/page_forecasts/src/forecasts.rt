//! The pages that are hashed together with a proposed one.
use crate::forecast::Forecast;
use page_digest::PageHash;
use page_model::{Entry, Page};
use std::marker::Model;

/// The most pages that are predicted: with the proposed one, as many as are hashed at once.
pub const FORECASTS: usize = 7;

/// How many of the next requests are considered. If one in 16 is a proposal, they include the proposed page and seven others.
pub const REACH: usize = 16 * (FORECASTS + 1);

/// Predicted pages, at most seven. Earlier ones stay until others replace them.
///
/// A contract sees a list of seven `Foreseen`.
#[derive(Drop)]
pub struct Forecasts<H: PageHash> {
    first: Forecast<H>,
    second: Forecast<H>,
    third: Forecast<H>,
    fourth: Forecast<H>,
    fifth: Forecast<H>,
    sixth: Forecast<H>,
    seventh: Forecast<H>,
}

impl<H: PageHash> Model for Forecasts<H> {
    ghost use Rattle.std.specs.Prelude.{List, [], ◌∷◌};
    ghost use Rattle.page_forecasts.specs.Forecasts.{Foreseen};

    ghost Value = { List Foreseen };

    ghost view = { λ f. f.first ∷ f.second ∷ f.third ∷ f.fourth ∷ f.fifth ∷ f.sixth ∷ f.seventh ∷ [] };
}

impl<H: PageHash> Forecasts<H> {
    ghost use Rattle.std.specs.Prelude.{◌≡◌, ◌<◌, ◌∷◌, ◌++◌, None, IfSome, is_some, map, take, drop, replicate, slice_set};
    ghost use Rattle.std.specs.Option.{option_map};
    ghost use Rattle.page_forecasts.specs.Forecasts.{expected, hashed, known_hash, left_by};
    ghost use Rattle.page_forecasts.specs.declared.forecasts.TheConstants.{FORECASTS};

    /// Makes seven forecasts of a page of zeros, without hashes.
    pub fn new() -> Forecasts<H>
        ensures { result ≡ replicate FORECASTS (expected 0 None) }
    {
        Forecasts {
            first: Forecast::new(),
            second: Forecast::new(),
            third: Forecast::new(),
            fourth: Forecast::new(),
            fifth: Forecast::new(),
            sixth: Forecast::new(),
            seventh: Forecast::new(),
        }
    }

    /// Predicts what page `ppn` of `guest` will contain once the requests `before` its proposal are served. Keeps that as
    /// forecast `place`, 0 to 6. The page has salt `salt` and now contains `bytes`, `None` if it is unmapped. Assumes that no
    /// store is refused a frame.
    ///
    /// Returns whether the page will be mapped then. Its hash isn't computed yet.
    pub fn foresee(
        &mut self,
        place: usize,
        salt: u32,
        bytes: Option<&Page>,
        before: &[Entry],
        guest: u8,
        ppn: u32,
    ) -> bool
        requires { place < FORECASTS }
        ensures forecast { self.new
            ≡ slice_set self.old place (expected salt (left_by before.now guest ppn (option_map (λ page. page.now) bytes.entry))) }
        ensures mapped { result ≡ is_some (left_by before.now guest ppn (option_map (λ page. page.now) bytes.entry)) }
    {
        match place {
            0 => self.first.foresee(salt, bytes, before, guest, ppn),
            1 => self.second.foresee(salt, bytes, before, guest, ppn),
            2 => self.third.foresee(salt, bytes, before, guest, ppn),
            3 => self.fourth.foresee(salt, bytes, before, guest, ppn),
            4 => self.fifth.foresee(salt, bytes, before, guest, ppn),
            5 => self.sixth.foresee(salt, bytes, before, guest, ppn),
            _ => self.seventh.foresee(salt, bytes, before, guest, ppn),
        }
    }

    /// Returns the hash of a page with this salt and these bytes, if it was predicted and its hash computed.
    pub fn hash_of(&self, salt: u32, bytes: &Page) -> Option<u64>
        ensures known { result ≡ known_hash self.now salt bytes.now }
        ensures right { IfSome result (λ code. code ≡ H.hash_of salt bytes.now) }
    {
        if let Some(code) = self.first.hash_of(salt, bytes) {
            return Some(code);
        }
        if let Some(code) = self.second.hash_of(salt, bytes) {
            return Some(code);
        }
        if let Some(code) = self.third.hash_of(salt, bytes) {
            return Some(code);
        }
        if let Some(code) = self.fourth.hash_of(salt, bytes) {
            return Some(code);
        }
        if let Some(code) = self.fifth.hash_of(salt, bytes) {
            return Some(code);
        }
        if let Some(code) = self.sixth.hash_of(salt, bytes) {
            return Some(code);
        }
        self.seventh.hash_of(salt, bytes)
    }

    /// Returns the hash of a page, computed together with the hashes of the first three foreseen pages, which are kept.
    pub fn hash_beside_three(&mut self, hash: &H, salt: u32, bytes: &Page) -> u64
        ensures page { result ≡ H.hash_of salt bytes.now }
        ensures kept { self.new ≡ map (hashed H.hash_of) (take 3 self.old) ++ drop 3 self.old }
    {
        let Forecasts {
            first,
            second,
            third,
            ..
        } = self;
        let salts = [salt, first.salt(), second.salt(), third.salt()];
        let codes = hash.hash_four(salts, bytes, first.bytes(), second.bytes(), third.bytes());
        first.learn(codes[1]);
        second.learn(codes[2]);
        third.learn(codes[3]);
        codes[0]
    }

    /// Returns the hash of a page, computed together with the hashes of all seven foreseen pages, which are kept.
    pub fn hash_beside_seven(&mut self, hash: &H, salt: u32, bytes: &Page) -> u64
        ensures page { result ≡ H.hash_of salt bytes.now }
        ensures kept { self.new ≡ map (hashed H.hash_of) self.old }
    {
        let codes = self.hash_eight(hash, salt, bytes);
        self.first.learn(codes[1]);
        self.second.learn(codes[2]);
        self.third.learn(codes[3]);
        self.fourth.learn(codes[4]);
        self.fifth.learn(codes[5]);
        self.sixth.learn(codes[6]);
        self.seventh.learn(codes[7]);
        codes[0]
    }

    /// Returns the hashes of a page and of the seven foreseen pages.
    fn hash_eight(&self, hash: &H, salt: u32, bytes: &Page) -> [u64; 8]
        ensures { result ≡ H.hash_of salt bytes.now ∷ map (λ f. H.hash_of f.salt f.bytes) self.now }
    {
        let Forecasts {
            first,
            second,
            third,
            fourth,
            fifth,
            sixth,
            seventh,
        } = self;
        hash.hash_eight(
            [
                salt,
                first.salt(),
                second.salt(),
                third.salt(),
                fourth.salt(),
                fifth.salt(),
                sixth.salt(),
                seventh.salt(),
            ],
            [
                bytes,
                first.bytes(),
                second.bytes(),
                third.bytes(),
                fourth.bytes(),
                fifth.bytes(),
                sixth.bytes(),
                seventh.bytes(),
            ],
        )
    }
}
