/// A page that others are compared with: its number among all, and whether its bytes were already read.
#[derive(Drop)]
pub(crate) struct Subject {
    pub(crate) number: u32,
    pub(crate) is_read: bool,
}
