// Worked values of each definition, by computation. The calls do nothing when they run.

ghost use Rattle.std.specs.Prelude.{◌≡◌, length};
ghost use Rattle.spec_expressions.specs.Term.{leaf, position, velocity, product as product_of};
ghost use Rattle.spec_bodies.specs.declared.factor.Factor.TheVariants.{MoonShare, Cosine, Sine};
ghost use Rattle.spec_bodies.specs.declared.quantity.Quantity.TheVariants.{Position, Velocity};
ghost use Rattle.spec_steps.specs.ColumnTerms.{column, zero_term, scaled, sum, difference, product, of_leaf, of_term};
ghost use Rattle.spec_steps.specs.declared.steps.Step.TheVariants.{Scaled, Sum};
ghost use Rattle.spec_steps.specs.Steps.{AreSteps, IsStep, term_at, terms_of};
ghost use Rattle.spec_steps.specs.Examples.{from_the_earth, from_the_moon, earth_steps};

/// Works out coordinates as terms of columns. The Earth from the Moon is minus column 10. The Sun from the Earth is
/// column 11 less column 3 less the Moon's share of 10. Mars along the ecliptic's y is a sum over the axes y and z of
/// columns 4, 3 and 10.
pub fn coordinates_are_terms_of_columns()
    ensures earth_from_the_moon { of_leaf from_the_moon (position 0 0)
        ≡ difference zero_term (column Position 10 0) }
    ensures sun_from_the_earth { of_leaf from_the_earth (velocity 0 0)
        ≡ difference (column Velocity 11 0)
        (difference (column Velocity 3 0) (scaled MoonShare (column Velocity 10 0))) }
    ensures mars_from_the_earth { of_leaf from_the_earth (position 1 1)
        ≡ sum
        (scaled Cosine (difference (column Position 4 1)
        (difference (column Position 3 1) (scaled MoonShare (column Position 10 1)))))
        (scaled Sine (difference (column Position 4 2)
        (difference (column Position 3 2) (scaled MoonShare (column Position 10 2))))) }
{}

/// Works out a formula as a term of columns: the product of a position and a velocity of the Earth from the Moon is the
/// product of both terms, each minus column 10.
pub fn products_are_products_of_terms()
    ensures { of_term from_the_moon (product_of (leaf (position 0 2)) (leaf (velocity 0 2)))
        ≡ product (difference zero_term (column Position 10 2))
        (difference zero_term (column Velocity 10 2)) }
{}

/// Works out a list of four steps that makes the Earth's x: column 3, column 10, the Moon's share of it, and the
/// difference. The list is well made, and its last step stands for the term of the Earth.
pub fn four_steps_make_the_earth()
    ensures made { AreSteps earth_steps }
    ensures count { length earth_steps ≡ 4 }
    ensures earth { term_at (terms_of earth_steps) 3
        ≡ difference (column Position 3 0) (scaled MoonShare (column Position 10 0)) }
{}

/// Works out that step 1 of a list may have neither itself nor step 2 as an operand: operands are made before the step.
pub fn operands_that_are_not_earlier_are_refused()
    ensures own { IsStep 1 (Sum 0 1) → ⊥ }
    ensures later { IsStep 1 (Scaled Sine 2) → ⊥ }
{}
