/// The greatest count of a profile.
pub const GREATEST_COUNT: u32 = 1_000_000_000;
