/// The workers: how many there are, at least one, and where their threads and their memory come from.
#[derive(Drop)]
pub struct Workers<'a, R, A> {
    pub rt: &'a R,
    pub alloc: &'a A,
    pub count: u32,
}
