//! General lemmas on whole numbers, which know nothing of ephemerides: orders, sizes, quotients, powers, lists, tests.
//!
//! Nothing runs here. `specs/` has quotients rounded down and up, and powers. `proofs/` has the lemmas, a file for each
//! topic, which the crates above cite: `Ring` proves equations of polynomials, and `Order.lin` is linear arithmetic over
//! the integers. A file of lemmas is checked only where an answer cites it, so each has a law in `laws`: who adds a file
//! adds a law that cites it.
#![tactic(auto)]

pub mod laws;
