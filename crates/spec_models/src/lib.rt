//! What stands for intervals and numbers in place of the exact ones: bounds, which include the enclosures of a value over
//! every span within a longer one; and models, polynomials in an argument from -1 to 1, each with a bound of error. It also
//! says how far outward rounding carries the ends of an interval, since both rest on that.
//!
//! Nothing runs here. Intervals and lists of coefficients come in; what goes out are the definitions of `specs/`, worked
//! values of them, and laws: `inclusion_laws` says that the rules on intervals and on bounds keep inclusion,
//! `rounding_laws` how near the ends of each rule are to exact ones, and `model_laws` what models are made of, and what is
//! near them.
#![tactic(auto)]

pub mod inclusion_laws;
pub mod model_examples;
pub mod model_laws;
pub mod rounding_examples;
pub mod rounding_laws;
