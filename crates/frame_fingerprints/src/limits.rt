/// The most frames: those of 64 machines with 1,048,576 each.
pub const MAX_FRAMES: u32 = 1 << 26;
