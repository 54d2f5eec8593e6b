// What the lines of a header say, before all of them are read.
use spec_text::Decimal;

/// The shape of blocks: what the lines before the constants say.
#[derive(Clone, Copy, PartialEq, Eq)]
pub struct BlockShape {
    /// The numbers of a block.
    pub ncoeff: u32,
    /// The length of a block, in seconds.
    pub block_seconds: u32,
}

/// What the lines before the columns say.
#[derive(Clone, Copy, PartialEq, Eq)]
pub struct Facts {
    /// The numbers of a block.
    pub ncoeff: u32,
    /// The length of a block, in seconds.
    pub block_seconds: u32,
    /// The mass of the Earth over that of the Moon.
    pub emrat: Decimal,
}
