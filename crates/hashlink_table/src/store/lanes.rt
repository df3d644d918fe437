/// The number of slots of a group.
pub const LANES: usize = 16;
