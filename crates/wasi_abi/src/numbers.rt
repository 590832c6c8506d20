//! Where numbers end.

/// Steps, lines and generations have numbers below this one.
pub const NUMBERS_END: u64 = 1 << 63;
