// Worked values of the functions and the conditions of each kind, by computation, in scenes of whole km.

ghost use Rattle.std.specs.Prelude.{◌≡◌, ◌∷◌, [], pos, neg_ℤ, false};
ghost use Rattle.spec_ephemeris.specs.Examples.{whole};
ghost use Rattle.spec_expressions.specs.Term.{position, leaf, sum, product};
ghost use Rattle.spec_kinds.specs.Examples.{three_fifths};
ghost use Rattle.spec_kinds.specs.declared.kind.Kind.TheVariants as K;
ghost use Rattle.spec_kinds.specs.Kinds.{kind_conditions};
ghost use Rattle.spec_kinds.specs.Shadows.{farther, larger};
ghost use Rattle.spec_meanings.specs.Examples.{at, worth, function_worth, at_rest, moving, inside, within};

/// Works out the functions of eight kinds of events in one scene, in km and seconds: the target is at (1, 2, 2) and
/// moves by (1, 0, 1) a second, the second body is at (2, 3, 6) and moves by (0, 1, -1).
pub fn eight_functions_are_worked_out_in_a_moving_scene()
    ensures coordinate { function_worth K.Coord (whole (pos 5)) (whole (pos 0)) moving
        ≡ neg_ℤ (pos 4) }
    ensures radius { function_worth K.Radius (whole (pos 2)) (whole (pos 0)) moving ≡ pos 5 }
    ensures apsis { function_worth K.Apsis (whole (pos 0)) (whole (pos 0)) moving ≡ pos 3 }
    ensures conjunction { function_worth K.Conj (whole (pos 0)) (whole (pos 0)) moving
        ≡ neg_ℤ (pos 1) }
    ensures opposition { function_worth K.Oppo (whole (pos 0)) (whole (pos 0)) moving
        ≡ neg_ℤ (pos 1) }
    ensures station { function_worth K.Station (whole (pos 0)) (whole (pos 0)) moving
        ≡ neg_ℤ (pos 2) }
    ensures separation { function_worth K.Sep three_fifths (whole (pos 0)) moving ≡ pos 24124 }
    ensures separation_extreme { function_worth K.SepExt (whole (pos 0)) (whole (pos 0)) moving
        ≡ pos 1128 }
{}

/// Works out the functions and conditions of occultations by a sphere of radius 2 km that is 3 km away, of one of
/// radius 5 km that is 7 km away. It is no farther (40 is at least 0), and its disc is not the larger (-29).
pub fn occultations_are_worked_out_in_a_moving_scene()
    ensures any { function_worth K.Any (whole (pos 2)) (whole (pos 5)) moving ≡ pos 780 }
    ensures full { function_worth K.Full (whole (pos 2)) (whole (pos 5)) moving ≡ neg_ℤ (pos 20) }
    ensures annular { function_worth K.Annular (whole (pos 2)) (whole (pos 5)) moving
        ≡ neg_ℤ (pos 20) }
    ensures farther { worth farther moving ≡ pos 40 }
    ensures larger { worth (larger (whole (pos 2)) (whole (pos 5))) moving ≡ neg_ℤ (pos 29) }
{}

/// Works out occultations whose discs touch from inside, at which the function is 0. For `full` a sphere of radius 15
/// is in front of one of 25 and its disc is larger; for `annular` one of 25 is in front of one of 45 and its disc is
/// smaller.
pub fn functions_are_0_where_discs_touch()
    ensures full { function_worth K.Full (whole (pos 15)) (whole (pos 25)) inside ≡ pos 0 }
    ensures full_larger { worth (larger (whole (pos 15)) (whole (pos 25))) inside ≡ pos 560000 }
    ensures annular { function_worth K.Annular (whole (pos 25)) (whole (pos 45)) within ≡ pos 0 }
    ensures annular_farther { worth farther within ≡ pos 1400 }
    ensures annular_larger { worth (larger (whole (pos 25)) (whole (pos 45))) within
        ≡ neg_ℤ (pos 5040000) }
{}

/// Works out the condition of an opposition: the dot product of both places in the plane of x and y is below 0. For (3,
/// 4, 7) and (-6, -8, 1) it is -50.
pub fn oppositions_need_a_plane_dot_product_below_0()
    ensures condition { kind_conditions K.Oppo (whole (pos 0)) (whole (pos 0)) ≡ record {
      term = sum (product (leaf (position 0 0)) (leaf (position 1 0)))
          (product (leaf (position 0 1)) (leaf (position 1 1)));
      at_least = false;
    } ∷ [] }
    ensures value { worth (sum (product (leaf (position 0 0)) (leaf (position 1 0)))
        (product (leaf (position 0 1)) (leaf (position 1 1))))
        (at_rest (at (pos 3) (pos 4) (pos 7)) (at (neg_ℤ (pos 6)) (neg_ℤ (pos 8)) (pos 1)))
        ≡ neg_ℤ (pos 50) }
{}
