// Worked examples of the definitions, for the seed 7.
ghost use Rattle.std.specs.Prelude.{◌≡◌, codes, neg_ℤ, pos};
ghost use Rattle.spec_text.specs.Examples.{decimal};
ghost use Rattle.spec_generated.specs.Blocks.{record_line, row};
ghost use Rattle.spec_generated.specs.Coefficients.{millionths, term_at};
ghost use Rattle.spec_generated.specs.Draws.{draws_upto, drawn, state_after};
ghost use Rattle.spec_generated.specs.Words.{block_number, block_word};

/// Works out how coefficients are drawn from the seed 7. A draw is the upper 32 bits of the state after it, and one
/// below 2^31 makes a coefficient below 0. In a block, places 3 to 170 hold Mercury's coefficients, of degrees 0 to 13,
/// and places from 171 on those of Venus.
#[tactic(auto, unfolding(crate::specs::Draws::state_after, crate::specs::Coefficients::term_at))]
pub fn coefficients_are_drawn()
    ensures state { state_after 7 2 ≡ 17628806926561717905 }
    ensures first { drawn (state_after 7 (draws_upto 3)) ≡ 2118330556 }
    ensures mercury { term_at 3 ≡ record { scale = 27000; degree = 0 } }
    ensures last_degree { term_at 170 ≡ record { scale = 27000; degree = 13 } }
    ensures venus { term_at 171 ≡ record { scale = 50000; degree = 0 } }
    ensures last_place { term_at 1018 ≡ record { scale = 1; degree = 9 } }
    ensures below_zero { millionths (record { scale = 27000; degree = 1 }) 0
        ≡ neg_ℤ (pos 14495514624000) }
    ensures towards_zero { millionths (record { scale = 3; degree = 16 }) 2147483647 ≡ pos 0 }
{}

/// Works out lines of the text that the seed 7 makes: the first block's record line, its first row with both dates and
/// a coefficient, its fourth row, and the zero after its last number at place 1,019. Two numbers are given as decimals
/// too.
#[tactic(auto, unfolding(crate::specs::Draws::state_after, crate::specs::Coefficients::term_at, crate::specs::Words::block_word, crate::specs::Words::block_number))]
pub fn lines_of_seed_seven_are_in_jpl_form()
    ensures record_line { record_line 0 ≡ codes "1 1018" }
    ensures dates { row (block_word 7 0) 1
        ≡ codes "0.245153650000000000D+07 0.245156850000000000D+07 -0.000000787133484000D+12" }
    ensures coefficients { row (block_word 7 0) 4
        ≡ codes "0.000013210039001250D+12 0.000002946762885375D+12 -0.000000411769533656D+12" }
    ensures zero { block_word 7 0 1019 ≡ codes "0.000000000000000000D+00" }
    ensures date { block_number 7 1 1 ≡ decimal (pos 245156850000000000) (neg_ℤ (pos 11)) }
    ensures number { block_number 7 0 3 ≡ decimal (neg_ℤ (pos 787133484000)) (neg_ℤ (pos 6)) }
{}
