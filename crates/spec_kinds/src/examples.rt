// Worked values of each definition, by computation. The calls do nothing when they run.

ghost use Rattle.std.specs.Prelude.{◌≡◌, ◌∷◌, [], None, Some, pos, neg_ℤ, ◌^◌, true};
ghost use Rattle.spec_ephemeris.specs.declared.body.Body.TheVariants.{Mercury, Venus, Moon, Sun, Earth, Ssb};
ghost use Rattle.spec_ephemeris.specs.Examples.{whole};
ghost use Rattle.spec_expressions.specs.Term.{position, velocity, leaf, length, sum, difference, product};
ghost use Rattle.spec_bodies.specs.Examples.{moving_moon};
ghost use Rattle.spec_kinds.specs.declared.fault.EventFault.TheVariants.{BodyAbsent, SameBody, ReferenceRange};
ghost use Rattle.spec_kinds.specs.declared.kind.Kind.TheVariants as K;
ghost use Rattle.spec_kinds.specs.Kinds.{function_of, conditions_of};
ghost use Rattle.spec_kinds.specs.Faults.{fault_of};
ghost use Rattle.spec_kinds.specs.Examples.{of_one, of_two, three_fifths, places, IsZeroAt};

/// Works out terms of three kinds of events. The function of `coord` is the coordinate less its value, here 5 km, and
/// that of `station` the plane cross product of position and velocity. A conjunction has one condition: the plane dot
/// product is at least 0.
pub fn functions_of_kinds_are_terms_of_coordinates()
    ensures coordinate { function_of (of_one K.Coord Mercury Ssb (whole (pos 5)))
        ≡ difference (leaf (position 0 0)) (length (whole (pos 5))) }
    ensures station { function_of (of_one K.Station Mercury Earth (whole (pos 0)))
        ≡ difference (product (leaf (position 0 0)) (leaf (velocity 0 1)))
        (product (leaf (position 0 1)) (leaf (velocity 0 0))) }
    ensures conjunction { conditions_of
        (of_two K.Conj Mercury Sun Earth (whole (pos 0)) (whole (pos 0))) ≡ record {
          term = sum (product (leaf (position 0 0)) (leaf (position 1 0)))
              (product (leaf (position 0 1)) (leaf (position 1 1)));
          at_least = true;
        } ∷ [] }
{}

/// Works out places, in km, at which a kind's function is exactly 0. For `sep`, (3, 4, 0) and (5, 0, 0) are seen at an
/// angle of cosine 0.6. A sphere of radius 15 at (25, 0, 0) touches one of 25 from outside (`any`, at (33, 56, 0)) and
/// from inside (`full`).
pub fn functions_are_0_at_their_events()
    ensures separation { IsZeroAt K.Sep three_fifths (whole (pos 0))
        (places (pos 3) (pos 4) (pos 5) (pos 0)) }
    ensures outside { IsZeroAt K.Any (whole (pos 15)) (whole (pos 25))
        (places (pos 25) (pos 0) (pos 33) (pos 56)) }
    ensures inside { IsZeroAt K.Full (whole (pos 15)) (whole (pos 25))
        (places (pos 25) (pos 0) (pos 63) (pos 16)) }
{}

/// Works out which fault of an ask is reported if several apply: an absent body, here Venus, before a body that is
/// named twice, and that before a negative distance. A coordinate may have a negative value, so that ask has no fault.
pub fn first_faults_are_reported()
    ensures absent { fault_of moving_moon (of_one K.Radius Venus Venus (whole (neg_ℤ (pos 1))))
        ≡ Some BodyAbsent }
    ensures same { fault_of moving_moon (of_one K.Radius Sun Sun (whole (neg_ℤ (pos 1))))
        ≡ Some SameBody }
    ensures negative { fault_of moving_moon (of_one K.Radius Sun Ssb (whole (neg_ℤ (pos 1))))
        ≡ Some ReferenceRange }
    ensures none { fault_of moving_moon (of_one K.Coord Sun Ssb (whole (neg_ℤ (pos 1)))) ≡ None }
{}

/// Works out that a number of 2^36 km is a fault only for a kind that uses it, as a radius of `any`, not for `apsis` or
/// as second number of `sep`, whose cosine may be 1. The Earth needs the columns of the Earth-Moon barycentre and of
/// the Moon alone.
pub fn only_numbers_in_use_have_faults()
    ensures earth { fault_of moving_moon (of_one K.Apsis Moon Earth (whole (pos (2 ^ 36)))) ≡ None }
    ensures cosine { fault_of moving_moon
        (of_two K.Sep Moon Sun Earth (whole (pos 1)) (whole (pos (2 ^ 36)))) ≡ None }
    ensures radius { fault_of moving_moon
        (of_two K.Any Moon Sun Earth (whole (pos 1)) (whole (pos (2 ^ 36)))) ≡ Some ReferenceRange }
{}
