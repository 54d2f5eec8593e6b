// Three numbers.
use spec_text::Decimal;

/// The three numbers of a line that has no other word, from left to right.
#[derive(Clone, Copy)]
pub struct Triple {
    pub first: Decimal,
    pub second: Decimal,
    pub third: Decimal,
}
