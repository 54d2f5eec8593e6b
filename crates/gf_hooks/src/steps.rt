// The steps of a function from each time to the next.

/// The ends of an interval that holds each change of a function from one time to the next, in any unit.
#[derive(Clone, Copy)]
pub struct Steps {
    pub lo: i128,
    pub hi: i128,
}
