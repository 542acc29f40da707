/// The most places.
pub const MAX_PLACES: u32 = 1 << 24;
