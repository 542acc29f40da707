/// A guest: its salt, and where its pages come from. Pages have the same content only if their guests' salts are equal,
/// too.
#[derive(Drop)]
pub struct Guest<S> {
    pub salt: u32,
    pub source: S,
}
