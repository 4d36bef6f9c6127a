/// The greatest coordinate of a corner of a robot, an obstacle or a frame, in absolute value.
pub const MOST_CORNER: u32 = 1023;

/// The greatest coordinate of any point, in absolute value: that of a corner of one triangle less one of another.
pub const MOST_COORDINATE: u32 = 2046;

/// The greatest weight of a `Point`.
pub const MOST_WEIGHT: u64 = 1 << 51;

/// The greatest denominator of a `Ratio`.
pub const MOST_DENOMINATOR: u64 = 1 << 52;
