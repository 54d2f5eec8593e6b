// Worked values of each definition, by computation.

ghost use Rattle.std.specs.Prelude.{◌≡◌, ◌^◌, pos};
ghost use Rattle.spec_numbers.specs.Numbers.{minus};
ghost use Rattle.spec_chebyshev.specs.Polynomials.{cleared_t, cleared_u};
ghost use Rattle.spec_chebyshev.specs.Differences.{difference_t, difference_u};
ghost use Rattle.spec_chebyshev.specs.Rows.{ends, r_size, t_row, u_row, q_row, r_row, argument_of};
ghost use Rattle.spec_chebyshev.specs.Examples.{exactly, half, minus_one_to_one};

/// Works out Chebyshev polynomials at x = 1/2, each times 2^k for degree k: T_3 = 4 x^3 - 3 x is -1, U_2 = 4 x^2 - 1 is
/// 0 and U_3 = 8 x^3 - 4 x is -1, so that -8, 0 and -8 stand here.
pub fn polynomials_at_one_half_are_minus_1_or_0()
    ensures t_3 { cleared_t (pos 1) (pos 2) 3 ≡ minus 8 }
    ensures u_2 { cleared_u (pos 1) (pos 2) 2 ≡ pos 0 }
    ensures u_3 { cleared_u (pos 1) (pos 2) 3 ≡ minus 8 }
{}

/// Works out divided differences from x = 1/2 to 1, where T_3 goes from -1 to 1 and U_2 from 0 to 3: over the distance
/// 1/2 they are 4 and 6. Times l^2 and l, with l = 2, they are 16 and 12.
pub fn divided_differences_of_t_3_and_u_2_are_4_and_6()
    ensures t_3 { difference_t (pos 2) (pos 1) (pos 2) 3 ≡ pos 16 }
    ensures u_2 { difference_u (pos 2) (pos 1) (pos 2) 2 ≡ pos 12 }
{}

/// Works out the greatest magnitude of R_3, the divided difference of U_3, from -1 to 1: it is 3 * 4 * 5 / 3 = 20.
pub fn the_divided_difference_of_u_3_is_at_most_20()
    ensures three { r_size 3 ≡ 20 }
{}

/// Works out intervals of arguments in units of 2^-60. In a span of 4 seconds, second 3 has u = 2 and l = 4, so its
/// argument is exactly 1/2. From -1/3 to 1/3 both ends are rounded outward.
pub fn arguments_are_rounded_outward()
    ensures half { argument_of (pos 2) (pos 2) (pos 4) ≡ half }
    ensures minus_third_to_third { argument_of (minus 1) (pos 1) (pos 3)
        ≡ ends (minus 384307168202282326) (pos 384307168202282326) }
{}

/// Works out the row of T at the argument 1/2: T_0 to T_3 are 1, 1/2, -1/2 and -1, each as a whole number of units of
/// 2^-60.
pub fn the_row_of_t_at_one_half_is_exact()
    ensures t_0 { t_row half 0 ≡ exactly (pos (2 ^ 60)) }
    ensures t_1 { t_row half 1 ≡ half }
    ensures t_2 { t_row half 2 ≡ exactly (minus (2 ^ 59)) }
    ensures t_3 { t_row half 3 ≡ exactly (minus (2 ^ 60)) }
{}

/// Works out entries of the other rows at the argument 1/2: U_1 = 1 and U_2 = 0 in units of 2^-50, Q_2 = 2 in units of
/// 2^-46 and R_2 = 4 in units of 2^-44. Q and R are the divided differences of T and U.
pub fn the_rows_of_u_q_and_r_at_one_half_are_exact()
    ensures u_1 { u_row half 1 ≡ exactly (pos (2 ^ 50)) }
    ensures u_2 { u_row half 2 ≡ exactly (pos 0) }
    ensures q_2 { q_row half 2 ≡ exactly (pos (2 ^ 47)) }
    ensures r_2 { r_row half 2 ≡ exactly (pos (2 ^ 46)) }
{}

/// Works out that entries of rows are cut to the values that the polynomials can have: over all arguments from -1 to 1,
/// T_2 is cut to [-1, 1], and U_2 to [-3, 3].
pub fn entries_are_cut_to_their_sizes()
    ensures t_2 { t_row minus_one_to_one 2 ≡ minus_one_to_one }
    ensures u_2 { u_row minus_one_to_one 2 ≡ ends (minus 3377699720527872) (pos 3377699720527872) }
{}
