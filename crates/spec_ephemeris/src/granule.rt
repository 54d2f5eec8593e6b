// A granule as it is read from an ephemeris.

use spec_text::Decimal;

/// A granule of a column: the span of time over which each component of the column is one Chebyshev series.
#[derive(Clone, Copy)]
pub struct Granule<'a> {
    /// The time at which the granule starts, in seconds or ticks of TDB since J2000, as its ephemeris counts times.
    pub start: i64,
    /// The length of the granule, in the units of its times.
    pub seconds: i64,
    /// The number of coefficients of one component.
    pub n: usize,
    /// The number of components.
    pub comps: usize,
    /// The coefficients in km, component after component, in each those of T_0, T_1 and so on.
    pub coefs: &'a [Decimal],
    /// Each of the coefficients rounded down and up, in the same order, if the column is that of a body; else none.
    pub rounded: &'a [Rounded],
}

/// A number `v` of km rounded down and up to a whole number of units of 2^-24 km: `floor(v 2^24)` and `ceil(v 2^24)`.
#[derive(Clone, Copy, PartialEq, Eq)]
pub struct Rounded {
    /// The number rounded down.
    pub lo: i64,
    /// The number rounded up.
    pub hi: i64,
}
