// The limits of quadratic polynomials.

/// The greatest magnitude of the factors of a quadratic polynomial: 2^20.
pub const MAX_FACTOR: u64 = 1 << 20;

/// The greatest magnitude of the summand of a quadratic polynomial: 2^62.
pub const MAX_SUMMAND: u64 = 1 << 62;

/// The greatest magnitude of the times of a quadratic polynomial: 2^40.
pub const MAX_TIME: u64 = 1 << 40;
