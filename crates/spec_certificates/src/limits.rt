// The limits of certificates, and of the words in them.

/// The most leaves of a certificate.
pub const MAX_CERT_LEAVES: u32 = 4_194_304;

/// The most digits of a time, in ticks. The times of an ephemeris have at most 15.
pub const MAX_TIME_DIGITS: usize = 15;

/// The most digits of a depth.
pub const MAX_DEPTH_DIGITS: usize = 2;

/// The most digits of a number of leaves.
pub const MAX_COUNT_DIGITS: usize = 8;
