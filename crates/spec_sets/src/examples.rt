// Worked values of sets, by computation. The calls do nothing when they run.
ghost use Rattle.std.specs.Prelude.{◌≡◌, ◌∷◌, [], int_le, int_lt, ◌||◌, false, pos, true};
ghost use Rattle.spec_intervals.specs.declared.signs.Sign.TheVariants.{No, Open, Yes};
ghost use Rattle.spec_sets.specs.Examples.{falling_leaves, falling_point, four_leaves, point};
ghost use Rattle.spec_sets.specs.Pairs.{possible_spans, sure_spans};
ghost use Rattle.spec_sets.specs.Signs.{both, either, is_possible, is_sure, opposite, sign_of_leaves};
ghost use Rattle.spec_sets.specs.Spans.{spans_of};

/// Works out the longest runs of times at which a test holds: from 0 to 6 for `t ≤ 2 or 4 ≤ t` two spans, for a test
/// that always holds from 3 to 6 the whole, and for one that never holds none. Adjacent times are in one span.
pub fn runs_of_times_are_as_long_as_possible()
    ensures two { spans_of (λ t. int_le t (pos 2) || int_le (pos 4) t) (pos 0) (pos 6)
        ≡ (pos 0, pos 2) ∷ (pos 4, pos 6) ∷ [] }
    ensures all { spans_of (λ t. int_le t (pos 6)) (pos 3) (pos 6) ≡ (pos 3, pos 6) ∷ [] }
    ensures none { spans_of (λ t. int_lt t (pos 0)) (pos 0) (pos 6) ≡ [] }
{}

/// Works out the signs that four leaves over the times 0 to 10 tell of a condition that fails up to 4 and holds from 5
/// on. A clear leaf has the sign of its end; a leaf with a rise, from 3 to 6, is known at its end alone; an undecided
/// one never.
pub fn four_leaves_tell_signs_of_each_time()
    ensures first { sign_of_leaves point (pos 0) four_leaves (pos 0) ≡ No }
    ensures clear { sign_of_leaves point (pos 0) four_leaves (pos 2) ≡ No }
    ensures before { sign_of_leaves point (pos 0) four_leaves (pos 5) ≡ Open }
    ensures turn { sign_of_leaves point (pos 0) four_leaves (pos 6) ≡ Yes }
    ensures after { sign_of_leaves point (pos 0) four_leaves (pos 7) ≡ Yes }
    ensures open { sign_of_leaves point (pos 0) four_leaves (pos 9) ≡ Open }
{}

/// Works out the signs that two leaves tell of a condition that holds up to 4 and fails from 5 on: the clear leaf up to
/// 3 tells `Yes`; the leaf with the fall, up to 6, is open before its end, and tells `No` there.
pub fn a_fall_is_known_at_its_end()
    ensures clear { sign_of_leaves falling_point (pos 0) falling_leaves (pos 2) ≡ Yes }
    ensures before { sign_of_leaves falling_point (pos 0) falling_leaves (pos 5) ≡ Open }
    ensures turn { sign_of_leaves falling_point (pos 0) falling_leaves (pos 6) ≡ No }
{}

/// Works out how signs combine, with `Open` for unknown: the opposite of an open sign is open; `either` is `Yes` if one
/// sign is, and `both` is `No` if one sign is, whatever the other. Else an open sign leaves them open.
pub fn signs_combine_as_three_truth_values()
    ensures opposite_yes { opposite Yes ≡ No }
    ensures opposite_no { opposite No ≡ Yes }
    ensures opposite_open { opposite Open ≡ Open }
    ensures either_first { either Yes Open ≡ Yes }
    ensures either_second { either Open Yes ≡ Yes }
    ensures either_open { either No Open ≡ Open }
    ensures either_open_again { either Open No ≡ Open }
    ensures both_first { both No Open ≡ No }
    ensures both_second { both Open No ≡ No }
    ensures both_open { both Yes Open ≡ Open }
    ensures both_open_again { both Open Yes ≡ Open }
{}

/// Works out which signs make a time sure or possible: sure only `Yes`, possible all but `No`. So `Open` is possible
/// and not sure.
pub fn known_signs_are_sure_or_impossible()
    ensures sure { is_sure Yes ≡ true }
    ensures not_sure { is_sure No ≡ false }
    ensures open_is_not_sure { is_sure Open ≡ false }
    ensures possible { is_possible Yes ≡ true }
    ensures not_possible { is_possible No ≡ false }
    ensures open_is_possible { is_possible Open ≡ true }
{}

/// Works out the sets that four leaves make over the times 0 to 10, of which 0 to 3 fails, 4 and 5 are open, 6 to 8
/// hold and 9 and 10 are open: the sure times are 6 to 8, the possible ones 4 to 10.
pub fn four_leaves_make_sure_and_possible_times()
    ensures sure { sure_spans (sign_of_leaves point (pos 0) four_leaves) (pos 0) (pos 10)
        ≡ (pos 6, pos 8) ∷ [] }
    ensures possible { possible_spans (sign_of_leaves point (pos 0) four_leaves) (pos 0) (pos 10)
        ≡ (pos 4, pos 10) ∷ [] }
{}
