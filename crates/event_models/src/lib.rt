//! Models of what is seen of two bodies over a span of times: at each time they cover the interval of a formula, or tell
//! its sign.
//!
//! In come the states of two bodies, a list of steps over columns, the step of a formula, and a span between whose
//! times no granule begins. Out comes a model of the formula, if one can be made, by models of columns and rules
//! (`Arithmetic`). The list says how bodies are made of columns. The caller lends `ModelRooms`. No call allocates.
#![tactic(auto)]

mod by_steps;
mod filling;
mod filling_slopes;
mod function_model;
mod granule_row;
mod granules;
mod kept_rows;
mod length_factors;
mod lines;
mod multiples;
mod rooms;
mod row_room;
mod rows;
mod spans;
mod starts;
mod sums;
mod times;
mod values;

pub use by_steps::model_over;
pub use function_model::{FunctionModel, Told, is_wide_enough};
pub use spans::ModelRooms;
