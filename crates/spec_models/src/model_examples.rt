// Worked values of the definitions of models. The calls do nothing when they run.

ghost use Rattle.std.specs.Prelude.{◌≡◌, pos, [], ◌∷◌};
ghost use Rattle.spec_numbers.specs.Numbers.{minus};
ghost use Rattle.spec_models.specs.Models.{at, convolved, sizes, slope, curvature, derivative, model, raised, cut};

/// Works out the value of a polynomial: `3 + x + 5 x^2` at x = 1/2 is 19/4, so times 2^2, as it is cleared of
/// fractions, 19.
pub fn a_polynomial_is_19_over_4_at_one_half()
    ensures { at (pos 1) (pos 2) 2 (pos 3 ∷ pos 1 ∷ pos 5 ∷ []) ≡ pos 19 }
{}

/// Works out the product of two polynomials: `(1 + 2 x) (3 - 4 x)` is `3 + 2 x - 8 x^2`. Lists of coefficients begin
/// with the constant one.
pub fn coefficients_of_a_product_are_convolved()
    ensures { convolved (pos 1 ∷ pos 2 ∷ []) (pos 3 ∷ minus 4 ∷ [])
        ≡ pos 3 ∷ pos 2 ∷ minus 8 ∷ [] }
{}

/// Works out bounds of `3 - 4 x + 5 x^2` from -1 to 1: it is at most 12 in magnitude, and changes by at most 14 if x
/// changes by 1. Its derivative `-4 + 10 x` changes by at most 10.
pub fn a_polynomial_is_at_most_12()
    ensures sizes { sizes (pos 3 ∷ minus 4 ∷ pos 5 ∷ []) ≡ 12 }
    ensures slope { slope (pos 3 ∷ minus 4 ∷ pos 5 ∷ []) ≡ 14 }
    ensures curvature { curvature (pos 3 ∷ minus 4 ∷ pos 5 ∷ []) ≡ 10 }
    ensures derivative { derivative (pos 3 ∷ minus 4 ∷ pos 5 ∷ []) ≡ minus 4 ∷ pos 10 ∷ [] }
{}

/// Works out two changes of the model `7 - 3 x + x^2` with the error 2. Raised to units of 4 it is `1 - x` with the
/// error 4; cut to two coefficients it is `7 - 3 x` with the error 3.
pub fn a_raised_or_cut_model_has_a_greater_error()
    ensures raised { raised 2 (model (pos 7 ∷ minus 3 ∷ pos 1 ∷ []) 2 (pos 0))
        ≡ model (pos 1 ∷ minus 1 ∷ pos 0 ∷ []) 4 (pos 2) }
    ensures cut { cut 2 (model (pos 7 ∷ minus 3 ∷ pos 1 ∷ []) 2 (pos 0))
        ≡ model (pos 7 ∷ minus 3 ∷ []) 3 (pos 0) }
{}
