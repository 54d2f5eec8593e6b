//! What an ephemeris says: the types and definitions that contracts cite, worked values of them, and their laws. A header
//! and the numbers of blocks come in; what goes out is what a header must be, which granule a column has at a time and
//! where its borders are, and the exact position and velocity that the numbers give there.
//!
//! The source is JPL's ASCII form of its development ephemerides (DE): GROUP 1050 of a header is the table of columns,
//! GROUP 1070 the blocks, and a position is JPL's sum of `c_k T_k(x)` over the granule that holds the time.
#![tactic(auto)]

mod body;
mod examples;
mod granule;
mod header;
mod laws;
mod limits;

pub use body::Body;
pub use examples::{
    arguments_run_from_end_to_end_of_a_block, blocks_are_up_to_64_days_long,
    blocks_have_3_to_4096_numbers, borders_of_de405_are_8_or_16_days_apart,
    coefficients_are_below_2_36_km, columns_end_where_the_next_begin,
    columns_without_coefficients_are_absent, headers_meet_or_break_the_rules,
    mass_ratios_are_from_1_to_1000, milliseconds_multiply_times,
    nearer_and_earlier_times_are_preferred, positions_on_a_line, positions_on_a_parabola,
    two_blocks_have_one_border, velocities_of_a_line_and_a_parabola,
};
pub use granule::{Granule, Rounded};
pub use header::{Column, Columns, Header};
pub use laws::{
    a_time_has_one_granule, ephemerides_in_ticks_are_checked, granule_at_computes_the_granule,
    nearest_border_computes_the_nearest_border, one_border_is_nearest, ticks_keep_positions,
};
pub use limits::{
    BODY_COLUMNS, DAY, FIRST_PLACE, FIRST_TICK, FIRST_TIME, GREATEST_MASS_RATIO, LAST_TICK,
    LAST_TIME, LONGEST_BLOCK, LONGEST_TICKS, MAX_BLOCKS, MAX_COEFFICIENTS, MAX_COLUMNS,
    MAX_NUMBERS, MAX_TICK, MIN_MASS_RATIO, MIN_NUMBERS, NUTATIONS, READ_COLUMNS, SHORTEST_BLOCK,
};
