// Laws of the definition of a generated text. Each is the contract of a function that does nothing.
ghost use Rattle.std.specs.Prelude.{◌≡◌, ◌<◌, ◌≤◌, [], ◌∷◌, None, Ok, map, ℕ};
ghost use Rattle.spec_generated.specs.Coefficients.{IsTermAt, ScaledColumn, place_of, scaled_columns, term_at};
ghost use Rattle.spec_ephemeris.specs.Ephemeris.{IsEphemeris};
ghost use Rattle.spec_ephemeris.specs.Examples.{de405};
ghost use Rattle.spec_files.specs.Outcome.{first_fault, outcome};
ghost use Rattle.spec_generated.specs.Generated.{generated_ephemeris, generated_text};
ghost use Rattle.spec_generated.specs.declared.limits.TheConstants.{MAX_GENERATED};

/// States that a generated text of 1 to 40 blocks and any seed has no fault, and, as the one file of a run, is accepted
/// as the checked ephemeris with DE405's header and that many blocks, from Julian date 2451536.5 on.
pub fn generated_texts_are_accepted()
    ensures no_fault { (blocks seed : ℕ) → 0 < blocks → blocks ≤ MAX_GENERATED
        → first_fault (generated_text blocks seed ∷ []) ≡ None }
    ensures accepted { (blocks seed : ℕ) → 0 < blocks → blocks ≤ MAX_GENERATED
        → outcome (generated_text blocks seed ∷ []) ≡ Ok (generated_ephemeris blocks seed) }
    ensures checked { (blocks seed : ℕ) → 0 < blocks → blocks ≤ MAX_GENERATED
        → IsEphemeris (generated_ephemeris blocks seed) }
{}

/// States that the generated columns are those of DE405's header, and that at the place of a block that holds the
/// coefficient of T_k of a column a generated coefficient has the column's scale and the degree k.
#[tactic(auto, using(crate::proofs::Terms::term_place))]
pub fn places_hold_coefficients_of_their_column()
    ensures columns { map (λ c. c.column) scaled_columns ≡ de405.columns }
    ensures terms { (number granule axis k : ℕ) (c : ScaledColumn)
        → IsTermAt number c granule axis k
        → term_at (place_of number c.column granule axis k)
        ≡ record { scale = c.scale; degree = k } }
{}
