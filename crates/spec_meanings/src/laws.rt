// Laws of what the kinds of events mean. Each is the contract of a function that does nothing.

ghost use Rattle.std.specs.Prelude.{◌≡◌, [], ℕ, ◌*◌, ◌^◌, ◌<◌, ◌≤◌, ℤ, pos, ◌+ℤ◌, ◌-ℤ◌, ◌*ℤ◌, ◌≤ℤ◌, ◌<ℤ◌, ◌↔◌, unsigned_abs};
ghost use Rattle.spec_text.specs.declared.decimals.Decimal.{Decimal};
ghost use Rattle.spec_intervals.specs.Fraction.{Fraction, IsFraction};
ghost use Rattle.spec_chebyshev.specs.Polynomials.{cleared_t};
ghost use Rattle.spec_ephemeris.specs.Series.{Series, position};
ghost use Rattle.spec_ephemeris.specs.Velocity.{cleared_slope, velocity};
ghost use Rattle.spec_expressions.specs.Term.{Leaf, IsLeaf, exact_of};
ghost use Rattle.spec_bodies.specs.declared.factor.Factor.{Factor};
ghost use Rattle.spec_bodies.specs.declared.frame.Frame.TheVariants.{Ecl};
ghost use Rattle.spec_bodies.specs.Coordinates.{Coordinate, in_frame};
ghost use Rattle.spec_bodies.specs.Meanings.{factor};
ghost use Rattle.spec_bodies.specs.Views.{View, Fits, exact_state};
ghost use Rattle.spec_events.specs.Functions.{IsNotNegative};
ghost use Rattle.spec_kinds.specs.declared.kind.Kind.TheVariants as K;
ghost use Rattle.spec_kinds.specs.Kinds.{kind_function, kind_conditions};
ghost use Rattle.spec_meanings.specs.Ratios.{IsRatio};
ghost use Rattle.spec_meanings.specs.Space.{Triple, along, dot, square, plane_dot, plane_cross, quarter_turned, AreInHalfPlane, AreInOppositeHalfPlanes};
ghost use Rattle.spec_meanings.specs.Scenes.{Scene, Shows, IsLong, IsCosineOf, HasScene};
ghost use Rattle.spec_meanings.specs.Angles.{IsFrom, IsNoFarther, IsNoSmaller, IsSmaller, AreWithin};
ghost use Rattle.spec_meanings.specs.Rays.{IsSphere, SomeRayMeetsBoth, Covers};
ghost use Rattle.spec_meanings.specs.Polynomials.{dot_change, half_square_change, separation_change};
ghost use Rattle.spec_meanings.specs.Derivatives.{IsDerivative, IsVelocity, squares_product, half_change, IsRate, placed, moved};
ghost use Rattle.spec_meanings.specs.Events.{Is0, Hold};
ghost use Rattle.spec_meanings.specs.Frames.{coordinate_value, obliquity_cosine, obliquity_sine, squares};

/// States that a fraction that is equal to n / d, with d above 0, is at least 0, below 0 or 0 exactly if n is.
pub fn ratios_have_signs()
    ensures not_negative { (r : Fraction) (n : ℤ) (d : ℕ) → IsRatio r n d
        → (pos 0 ≤ℤ r.numerator) ↔ (pos 0 ≤ℤ n) }
    ensures negative { (r : Fraction) (n : ℤ) (d : ℕ) → IsRatio r n d
        → (r.numerator <ℤ pos 0) ↔ (n <ℤ pos 0) }
    ensures nought { (r : Fraction) (n : ℤ) (d : ℕ) → IsRatio r n d
        → (r.numerator ≡ pos 0) ↔ (n ≡ pos 0) }
{}

/// States that the function of a conjunction is 0 and its condition holds exactly if both bodies lie in one half plane
/// through the z axis, and that the function is at least 0 exactly on one side of the target's meridian.
pub fn conjunctions_are_in_one_half_plane()
    ensures meet { (exact : Leaf → ℤ → Fraction) (t : ℤ) (s : Scene) → Shows exact t s
        → (axis : ℕ) (one other : Decimal)
        → (Is0 exact (kind_function K.Conj axis one other) t
        × Hold exact (kind_conditions K.Conj one other) t) ↔ AreInHalfPlane s.target s.second }
    ensures side { (exact : Leaf → ℤ → Fraction) (t : ℤ) (s : Scene) → Shows exact t s
        → (axis : ℕ) (one other : Decimal)
        → IsNotNegative (exact_of exact (kind_function K.Conj axis one other)) t
        ↔ (pos 0 ≤ℤ plane_dot (quarter_turned s.target) s.second) }
{}

/// States that the function of an opposition is 0 and its condition holds exactly if both bodies lie in opposite half
/// planes through the z axis and off it, and that the function has the sign that it has for conjunctions.
pub fn oppositions_are_in_opposite_half_planes()
    ensures meet { (exact : Leaf → ℤ → Fraction) (t : ℤ) (s : Scene) → Shows exact t s
        → (axis : ℕ) (one other : Decimal)
        → (Is0 exact (kind_function K.Oppo axis one other) t
        × Hold exact (kind_conditions K.Oppo one other) t)
        ↔ AreInOppositeHalfPlanes s.target s.second }
    ensures side { (exact : Leaf → ℤ → Fraction) (t : ℤ) (s : Scene) → Shows exact t s
        → (axis : ℕ) (one other : Decimal)
        → IsNotNegative (exact_of exact (kind_function K.Oppo axis one other)) t
        ↔ (pos 0 ≤ℤ plane_dot (quarter_turned s.target) s.second) }
{}

/// States that the function of `coord` is at least 0 exactly if the coordinate is at least its value, and that of
/// `radius` exactly if the distance is at least the value's magnitude.
pub fn coordinates_and_distances_are_compared()
    ensures coordinate { (exact : Leaf → ℤ → Fraction) (t : ℤ) (s : Scene) → Shows exact t s
        → (axis : ℕ) (one other : Decimal) (n : ℤ) → axis < 3 → IsLong s one n
        → IsNotNegative (exact_of exact (kind_function K.Coord axis one other)) t
        ↔ (n ≤ℤ along s.target axis) }
    ensures radius { (exact : Leaf → ℤ → Fraction) (t : ℤ) (s : Scene) → Shows exact t s
        → (axis : ℕ) (one other : Decimal) (n : ℤ) → IsLong s one n
        → IsNotNegative (exact_of exact (kind_function K.Radius axis one other)) t
        ↔ IsFrom s.target n }
{}

/// States that the function of `sep` is at least 0 exactly if the angle between both bodies is at most the angle of the
/// given cosine c / d, which may have either sign.
pub fn separations_are_compared()
    ensures { (exact : Leaf → ℤ → Fraction) (t : ℤ) (s : Scene) → Shows exact t s
        → (axis : ℕ) (one other : Decimal) (c : ℤ) (d : ℕ) → IsCosineOf one c d
        → IsNotNegative (exact_of exact (kind_function K.Sep axis one other)) t
        ↔ AreWithin s.target s.second c d }
{}

/// States that the conditions of an occultation hold exactly if the target is no farther than the second body and, for
/// `full`, its disc is no smaller, or, for `annular`, its disc is smaller.
pub fn conditions_of_occultations_compare_discs()
    ensures any { (exact : Leaf → ℤ → Fraction) (t : ℤ) (s : Scene) → Shows exact t s
        → (front back : Decimal)
        → Hold exact (kind_conditions K.Any front back) t ↔ IsNoFarther s.target s.second }
    ensures full { (exact : Leaf → ℤ → Fraction) (t : ℤ) (s : Scene) → Shows exact t s
        → (front back : Decimal) (r q : ℤ) → IsLong s front r → IsLong s back q
        → Hold exact (kind_conditions K.Full front back) t
        ↔ (IsNoFarther s.target s.second × IsNoSmaller s.target r s.second q) }
    ensures annular { (exact : Leaf → ℤ → Fraction) (t : ℤ) (s : Scene) → Shows exact t s
        → (front back : Decimal) (r q : ℤ) → IsLong s front r → IsLong s back q
        → Hold exact (kind_conditions K.Annular front back) t
        ↔ (IsNoFarther s.target s.second × IsSmaller s.target r s.second q) }
{}

/// States that six kinds have no condition, so that each turn of their function is an event: `coord`, `radius`,
/// `apsis`, `station`, `sep` and `sepext`.
pub fn six_kinds_have_no_conditions()
    ensures coordinate { (one other : Decimal) → kind_conditions K.Coord one other ≡ [] }
    ensures radius { (one other : Decimal) → kind_conditions K.Radius one other ≡ [] }
    ensures apsis { (one other : Decimal) → kind_conditions K.Apsis one other ≡ [] }
    ensures station { (one other : Decimal) → kind_conditions K.Station one other ≡ [] }
    ensures separation { (one other : Decimal) → kind_conditions K.Sep one other ≡ [] }
    ensures separation_extreme { (one other : Decimal) → kind_conditions K.SepExt one other ≡ [] }
{}

/// States that the function of `any` is at least 0 exactly if some ray from the observer meets both spheres. The
/// observer has to be outside both.
pub fn any_occultation_is_a_common_ray()
    ensures { (exact : Leaf → ℤ → Fraction) (t : ℤ) (s : Scene) → Shows exact t s
        → (axis : ℕ) (front back : Decimal) (r q : ℤ) → IsLong s front r → IsLong s back q
        → IsSphere s.target r → IsSphere s.second q
        → IsNotNegative (exact_of exact (kind_function K.Any axis front back)) t
        ↔ SomeRayMeetsBoth s.target r s.second q }
{}

/// States that the function of `full` is at least 0 and the target's disc no smaller exactly if each ray from the
/// observer that meets the second body meets the target. The observer has to be outside both spheres.
pub fn full_occultations_cover_the_second_body()
    ensures { (exact : Leaf → ℤ → Fraction) (t : ℤ) (s : Scene) → Shows exact t s
        → (axis : ℕ) (front back : Decimal) (r q : ℤ) → IsLong s front r → IsLong s back q
        → IsSphere s.target r → IsSphere s.second q
        → (IsNotNegative (exact_of exact (kind_function K.Full axis front back)) t
        × IsNoSmaller s.target r s.second q) ↔ Covers s.target r s.second q }
{}

/// States that the function of `annular` is at least 0 and the second body's disc no smaller exactly if each ray from
/// the observer that meets the target meets the second body. The observer has to be outside both spheres.
pub fn annular_occultations_lie_within_the_second_body()
    ensures { (exact : Leaf → ℤ → Fraction) (t : ℤ) (s : Scene) → Shows exact t s
        → (axis : ℕ) (front back : Decimal) (r q : ℤ) → IsLong s front r → IsLong s back q
        → IsSphere s.target r → IsSphere s.second q
        → (IsNotNegative (exact_of exact (kind_function K.Annular axis front back)) t
        × IsNoSmaller s.second q s.target r) ↔ Covers s.second q s.target r }
{}

/// States how ecliptic coordinates come from equatorial ones: x stays, and y and z are turned by the obliquity. Its
/// cosine and sine are decimals, so lengths in that plane, squared, grow by c^2 + s^2, which is 1 within 10^-15.
pub fn ecliptic_coordinates_are_turned()
    ensures first { (column : ℕ → ℕ → ℤ → Fraction) (ratio : Decimal) (own : ℕ → Coordinate)
        (t : ℤ) → coordinate_value column (factor ratio) (in_frame Ecl own 0) t
        ≡ coordinate_value column (factor ratio) (own 0) t }
    ensures turned { (column : ℕ → ℕ → ℤ → Fraction) (ratio : Decimal) (own : ℕ → Coordinate)
        (t y z : ℤ) (d : ℕ)
        → IsRatio (coordinate_value column (factor ratio) (own 1) t) y d
        → IsRatio (coordinate_value column (factor ratio) (own 2) t) z d
        → IsRatio (coordinate_value column (factor ratio) (in_frame Ecl own 1) t)
        (obliquity_cosine *ℤ y +ℤ obliquity_sine *ℤ z) (10 ^ 15 * d)
        × IsRatio (coordinate_value column (factor ratio) (in_frame Ecl own 2) t)
        (obliquity_cosine *ℤ z -ℤ obliquity_sine *ℤ y) (10 ^ 15 * d) }
    ensures lengths { (y z : ℤ)
        → squares (obliquity_cosine *ℤ y +ℤ obliquity_sine *ℤ z)
        (obliquity_cosine *ℤ z -ℤ obliquity_sine *ℤ y)
        ≡ squares obliquity_cosine obliquity_sine *ℤ squares y z }
    ensures near_1 { unsigned_abs (squares obliquity_cosine obliquity_sine -ℤ pos (10 ^ 30))
        ≤ 10 ^ 15 }
{}

/// States that a function of whole numbers has at most one derivative, which is what it changes by for each h, over h,
/// up to a multiple of h. That of a Chebyshev polynomial, cleared of fractions, is the one that velocities are made of.
pub fn derivatives_are_unique()
    ensures one { (f g g' : ℤ → ℤ) → IsDerivative f g → IsDerivative f g' → (t : ℤ) → g t ≡ g' t }
    ensures chebyshev { (l : ℤ) (k : ℕ)
        → IsDerivative (λ u. cleared_t u l k) (λ u. cleared_slope u l k) }
{}

/// States that within a granule the exact velocity is the derivative of the exact position, both over one denominator.
/// The velocity of every coordinate of a body seen from an observer is the derivative of that coordinate in the same
/// way, as long as each column stays in one granule.
pub fn velocities_are_derivatives()
    ensures derivative { (s : Series)
        → IsDerivative (λ t. (position s t).numerator) (λ t. (velocity s t).numerator) }
    ensures denominator { (s : Series) (t : ℤ)
        → (velocity s t).denominator ≡ (position s t).denominator }
    ensures coordinates { (series : ℕ → ℕ → Series) (factors : Factor → Fraction) (c : Coordinate)
        → IsRate (placed series factors c) (moved series factors c) }
{}

/// States derivatives of products of moving places: of the square of a distance, which is twice the function of
/// `apsis`; of the cross product with a place that stands still, as in `station`; of a dot product; and of the product
/// of two squares.
pub fn products_of_moving_places_have_derivatives()
    ensures distance { (a a' : ℤ → Triple) → IsVelocity a a'
        → IsDerivative (λ t. square (a t)) (λ t. pos 2 *ℤ dot (a t) (a' t)) }
    ensures longitude { (o : Triple) (a a' : ℤ → Triple) → IsVelocity a a'
        → IsDerivative (λ t. plane_cross o (a t)) (λ t. plane_cross o (a' t)) }
    ensures dot { (a a' b b' : ℤ → Triple) → IsVelocity a a' → IsVelocity b b'
        → IsDerivative (λ t. dot (a t) (b t)) (λ t. dot (a' t) (b t) +ℤ dot (a t) (b' t)) }
    ensures squares { (a a' b b' : ℤ → Triple) → IsVelocity a a' → IsVelocity b b'
        → IsDerivative (squares_product a b) (λ t. pos 2 *ℤ half_change a a' b b' t) }
{}

/// States that the function N of `sepext` tells how the cosine of the angle changes. With D the dot product of both
/// places and A and B their squares, the squared cosine has the derivative 2 D N / (A B)^2; if D is 0, N is D' A B.
pub fn cosines_change_by_the_function_of_sepext()
    ensures square { (s : Scene) → (pos 2 *ℤ (dot s.target s.second *ℤ dot_change s))
        *ℤ (square s.target *ℤ square s.second)
        -ℤ (dot s.target s.second *ℤ dot s.target s.second) *ℤ (pos 2 *ℤ half_square_change s)
        ≡ (pos 2 *ℤ dot s.target s.second) *ℤ separation_change s }
    ensures right_angle { (s : Scene) → dot s.target s.second ≡ pos 0
        → separation_change s ≡ dot_change s *ℤ (square s.target *ℤ square s.second) }
{}

/// States that the exact values of the functions of `apsis`, `station` and `sepext` are the polynomials of a scene by
/// which distance, longitude and angle change.
pub fn functions_of_changes_are_polynomials_of_scenes()
    ensures apsis { (exact : Leaf → ℤ → Fraction) (t : ℤ) (s : Scene) → Shows exact t s
        → (axis : ℕ) (one other : Decimal)
        → IsRatio (exact_of exact (kind_function K.Apsis axis one other) t)
        (dot s.target s.target_velocity) (s.unit * s.unit) }
    ensures station { (exact : Leaf → ℤ → Fraction) (t : ℤ) (s : Scene) → Shows exact t s
        → (axis : ℕ) (one other : Decimal)
        → IsRatio (exact_of exact (kind_function K.Station axis one other) t)
        (plane_cross s.target s.target_velocity) (s.unit * s.unit) }
    ensures separation { (exact : Leaf → ℤ → Fraction) (t : ℤ) (s : Scene) → Shows exact t s
        → (axis : ℕ) (one other : Decimal)
        → IsRatio (exact_of exact (kind_function K.SepExt axis one other) t) (separation_change s)
        ((s.unit * s.unit) * ((s.unit * s.unit) * (s.unit * s.unit))) }
{}

/// States that some scene of whole numbers shows the exact coordinates at a time, together with two given lengths, if
/// these coordinates are fractions. They are in each checked view at each time that fits it.
pub fn scenes_exist()
    ensures some { (exact : Leaf → ℤ → Fraction) (t : ℤ)
        → ((l : Leaf) → IsLeaf l → IsFraction (exact l t)) → (one other : Decimal)
        → HasScene exact t one other }
    ensures views { (v : View) (a b t : ℤ) → Fits v a b → a ≤ℤ t → t ≤ℤ b → (one other : Decimal)
        → HasScene (exact_state v) t one other }
{}
