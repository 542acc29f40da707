//! How contracts name the hash of a page.
ghost use Rattle.std.specs.Prelude.{ℕ, List};

/// A type that names a function of a salt and the bytes of a page, for use in contracts only.
///
/// The definitions of proposals and of replay take this function as an argument, so they hold for every
/// hash, even a weak one.
pub trait HashFunction {
    ghost hash_of: { ℕ → List ℕ → ℕ };
}
