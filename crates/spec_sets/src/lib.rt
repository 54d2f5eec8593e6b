//! Sets of times: spans in order of which no two touch, and what the leaves of a span tell of a condition at each of
//! its times, with their laws. Leaves and signs come in; sets of sure and of possible times go out.
#![tactic(auto)]

mod examples;
mod laws;

pub use examples::{
    a_fall_is_known_at_its_end, four_leaves_make_sure_and_possible_times,
    four_leaves_tell_signs_of_each_time, known_signs_are_sure_or_impossible,
    runs_of_times_are_as_long_as_possible, signs_combine_as_three_truth_values,
};
pub use laws::{
    combined_signs_tell, known_signs_combine_to_known_signs, known_signs_give_one_set,
    leaves_tell_of_each_time, rightly_marked_leaves_tell, runs_have_their_times,
    signs_at_single_times_tell, spans_are_determined_by_their_times, true_signs_give_sets,
};
