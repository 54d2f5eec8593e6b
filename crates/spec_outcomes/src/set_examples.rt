// Worked signs of relations. The calls do nothing when they run.
ghost use Rattle.std.specs.Prelude.{◌≡◌};
ghost use Rattle.spec_intervals.specs.declared.signs.Sign.TheVariants.{No, Open, Yes};
ghost use Rattle.spec_requests.specs.declared.request.Relation.TheVariants.{AtLeast, Less, Outside, Within};
ghost use Rattle.spec_outcomes.specs.Sets.{relation_sign};

/// Works out whether a relation holds at a time, from whether the value is at least the first and at least the second
/// reference: `Within` is at least the first and below the second, `Outside` is below the first or at least the second.
pub fn relations_compare_with_one_reference_or_two()
    ensures at_least { relation_sign AtLeast Yes Yes ≡ Yes }
    ensures less { relation_sign Less No No ≡ Yes }
    ensures between { relation_sign Within Yes No ≡ Yes }
    ensures not_between { relation_sign Within Yes Yes ≡ No }
    ensures above { relation_sign Outside Yes Yes ≡ Yes }
    ensures below { relation_sign Outside No No ≡ Yes }
    ensures not_outside { relation_sign Outside Yes No ≡ No }
{}

/// Works out whether a relation holds at a time at which it is open whether the value is at least the first reference:
/// the second may still decide `Within` and `Outside`; otherwise the relation is open.
pub fn the_second_reference_may_decide_open_times()
    ensures less { relation_sign Less Open Open ≡ Open }
    ensures within { relation_sign Within Open Yes ≡ No }
    ensures not_within { relation_sign Within Open No ≡ Open }
    ensures outside { relation_sign Outside Open Yes ≡ Yes }
    ensures not_outside { relation_sign Outside Open No ≡ Open }
{}
