/// An interval from `lo` to `hi`, in the unit of the row that it stands in.
#[derive(Clone, Copy, PartialEq, Eq)]
pub struct Ival62 {
    pub lo: i64,
    pub hi: i64,
}
