// The columns of generated texts.

/// The columns of JPL's DE405, in their order: the start, the coefficients of a component and the granules of a block,
/// as its header says; and the scale, which is the greatest size of a coefficient of T_0 in units of 2^31 millionths of
/// a km (2,147.483648 km).
pub const COLUMNS: [(u32, u32, u32, u32); 13] = [
    (3, 14, 4, 27_000),
    (171, 10, 2, 50_000),
    (231, 13, 2, 70_000),
    (309, 11, 1, 100_000),
    (342, 8, 1, 360_000),
    (366, 7, 1, 660_000),
    (387, 6, 1, 1_300_000),
    (405, 6, 1, 2_100_000),
    (423, 6, 1, 2_700_000),
    (441, 13, 8, 180),
    (753, 11, 2, 350),
    (819, 10, 4, 1),
    (899, 10, 4, 1),
];

/// What a coefficient depends on besides its draw.
#[derive(Clone, Copy, PartialEq, Eq)]
pub struct CoefficientShape {
    /// The scale of its column: the greatest size of a coefficient of T_0, in units of 2^31 millionths of a km.
    pub scale: u32,
    /// The degree of its Chebyshev polynomial.
    pub degree: u32,
}
