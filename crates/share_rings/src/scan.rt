//! The order in which a guest's pages are proposed.
ghost use Rattle.std.specs.Prelude.{◌≤◌};

use rand_core::SeedableRng;
use rand_core::utils::NextWord;
use rand_pcg::Pcg32;

// How far a scan has come.
#[derive(Debug, Drop)]
enum Order {
    // The next number is this modulo the number of pages.
    Sequential(u32),
    // The next word comes from this generator.
    Random(Pcg32),
}

/// An endless scan of a guest's pages, in order or at random.
#[derive(Debug, Drop)]
pub struct Scan {
    pages: u32,
    order: Order,
    ghost some: { 1 ≤ pages },
}

impl Scan {
    ghost use Rattle.std.specs.Prelude.{◌≡◌, ℕ, ◌+◌, ◌≤◌};
    ghost use Rattle.share_rings.specs.Numbers.{number_of, sequential_number, random_number};

    /// Makes a scan in order: number n, counted from 0, is n modulo `pages`.
    pub fn sequential(pages: u32) -> Scan
        requires { 1 ≤ pages }
        ensures { (n : ℕ) → number_of result n ≡ sequential_number pages n }
    {
        Scan {
            pages,
            order: Order::Sequential(0),
        }
    }

    /// Makes a scan at random: number n, counted from 0, is word n of the generator `Pcg32` that `seed_from_u64` makes from
    /// `seed`, modulo `pages`.
    pub fn random(seed: u64, pages: u32) -> Scan
        requires { 1 ≤ pages }
        ensures { (n : ℕ) → number_of result n ≡ random_number seed pages n }
    {
        Scan {
            pages,
            order: Order::Random(Pcg32::seed_from_u64(seed)),
        }
    }

    /// Returns the next number. What was number n + 1 before the call is number n after it.
    pub fn next(&mut self) -> u32
        ensures number { result ≡ number_of self.old 0 }
        ensures rest { (n : ℕ) → number_of self.new n ≡ number_of self.old (n + 1) }
    {
        match &mut self.order {
            Order::Sequential(at) => {
                let number = *at % self.pages;
                *at = number + 1;
                number
            }
            Order::Random(generator) => generator.next_word() % self.pages,
        }
    }
}
