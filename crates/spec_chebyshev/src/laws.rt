// What the Chebyshev polynomials obey, in whole numbers: each law is the contract of a function with nothing to do.
// At x = u / l the polynomials of degree k are `cleared_t u l k` and `cleared_u u l k` over l^k.

ghost use Rattle.std.specs.Prelude.{◌≡◌, ℕ, suc, ◌*◌, ◌^◌, ◌<◌, ℤ, pos, neg_ℤ, ◌+ℤ◌, ◌-ℤ◌, ◌*ℤ◌, ◌≤ℤ◌, ◌<ℤ◌};
ghost use Rattle.spec_chebyshev.specs.Polynomials.{cleared_t, cleared_u};
ghost use Rattle.spec_numbers.specs.Numbers.{power};
ghost use Rattle.spec_chebyshev.specs.Differences.{difference_t, difference_u, weighted_sum, t_weight, u_weight, IsArgument, Within};
ghost use Rattle.spec_chebyshev.specs.declared.ends.Ival62.{Ival62};
ghost use Rattle.spec_chebyshev.specs.Rows.{t_size, u_size, q_size, r_size, t_unit, u_unit, q_unit, r_unit, t_row, u_row, q_row, r_row, argument_of, HoldsIn, EndsWithin, IsArguments};

/// States the recurrence `P_(k+2) = 2 x P_(k+1) - P_k` of the Chebyshev polynomials of the first kind, T, and of the
/// second, U, at every argument x = u / l. Both sides are multiplied by l^(k+2), so that no fraction stands here.
pub fn polynomials_obey_the_recurrence()
    ensures first_kind { (u l : ℤ) (k : ℕ) → cleared_t u l (suc (suc k))
        ≡ pos 2 *ℤ u *ℤ cleared_t u l (suc k) -ℤ l *ℤ l *ℤ cleared_t u l k }
    ensures second_kind { (u l : ℤ) (k : ℕ) → cleared_u u l (suc (suc k))
        ≡ pos 2 *ℤ u *ℤ cleared_u u l (suc k) -ℤ l *ℤ l *ℤ cleared_u u l k }
{}

/// States `T_k^2 + (1 - x^2) U_(k-1)^2 = 1`, cleared of fractions, for every degree k above 0. At x = cos a these are
/// the squares of cos k a and of sin k a.
pub fn the_two_kinds_lie_on_a_circle()
    ensures { (u l : ℤ) (k : ℕ) → cleared_t u l (suc k) *ℤ cleared_t u l (suc k)
        +ℤ (l *ℤ l -ℤ u *ℤ u) *ℤ (cleared_u u l k *ℤ cleared_u u l k) ≡ power (l *ℤ l) (suc k) }
{}

/// States `U_k = T_k + x U_(k-1)` for every degree k above 0, cleared of fractions. So the polynomials of the second
/// kind can be computed from those of the first.
pub fn the_second_kind_comes_from_the_first()
    ensures { (u l : ℤ) (k : ℕ)
        → cleared_u u l (suc k) ≡ cleared_t u l (suc k) +ℤ u *ℤ cleared_u u l k }
{}

/// States that at every argument from -1 to 1 `T_k` is at most 1 in magnitude, and `U_k` at most `k + 1`.
pub fn polynomials_are_bounded()
    ensures first_kind { (u l : ℤ) (k : ℕ) → IsArgument u l
        → Within (cleared_t u l k) (pos (t_size k) *ℤ power l k) }
    ensures second_kind { (u l : ℤ) (k : ℕ) → IsArgument u l
        → Within (cleared_u u l k) (pos (u_size k) *ℤ power l k) }
{}

/// States what the divided differences Q and R are: `T_k(x') - T_k(x) = (x' - x) Q_k` and
/// `U_k(x') - U_k(x) = (x' - x) R_k` for all arguments x = u / l and x' = a / l, cleared of fractions.
pub fn divided_differences_divide_differences()
    ensures first_kind { (a u l : ℤ) (k : ℕ)
        → cleared_t a l k ≡ cleared_t u l k +ℤ (a -ℤ u) *ℤ difference_t a u l k }
    ensures second_kind { (a u l : ℤ) (k : ℕ)
        → cleared_u a l k ≡ cleared_u u l k +ℤ (a -ℤ u) *ℤ difference_u a u l k }
{}

/// States `Q_(k+2) = 2 x Q_(k+1) + 2 T_(k+1)(x') - Q_k` for the divided differences Q of T, and the same recurrence
/// with U in place of T for those of U, cleared of fractions.
pub fn divided_differences_obey_a_recurrence()
    ensures first_kind { (a u l : ℤ) (k : ℕ) → difference_t a u l (suc (suc k))
        ≡ pos 2 *ℤ u *ℤ difference_t a u l (suc k)
        +ℤ pos 2 *ℤ cleared_t a l (suc k) -ℤ l *ℤ l *ℤ difference_t a u l k }
    ensures second_kind { (a u l : ℤ) (k : ℕ) → difference_u a u l (suc (suc k))
        ≡ pos 2 *ℤ u *ℤ difference_u a u l (suc k)
        +ℤ pos 2 *ℤ cleared_u a l (suc k) -ℤ l *ℤ l *ℤ difference_u a u l k }
{}

/// States the divided differences as sums. `Q_k` is `U_(k-1)(x)` and twice the sum of `T_j(x') U_(k-1-j)(x)` over j
/// from 1 to k - 1; `R_k` is twice the sum of `U_j(x') U_(k-1-j)(x)` over j from 0 to k - 1.
pub fn divided_differences_are_sums_of_products()
    ensures first_kind { (a u l : ℤ) (k : ℕ)
        → difference_t a u l k ≡ weighted_sum (t_weight a l) u l k 0 }
    ensures second_kind { (a u l : ℤ) (k : ℕ)
        → difference_u a u l k ≡ weighted_sum (u_weight a l) u l k 0 }
{}

/// States that with both arguments from -1 to 1 the divided difference `Q_k` of T is at most `k^2` in magnitude, and
/// `R_k` of U at most `k (k+1) (k+2) / 3`.
pub fn divided_differences_are_bounded()
    ensures first_kind { (a u l : ℤ) (k : ℕ) → IsArgument a l → IsArgument u l
        → Within (l *ℤ difference_t a u l k) (pos (q_size k) *ℤ power l k) }
    ensures second_kind { (a u l : ℤ) (k : ℕ) → IsArgument a l → IsArgument u l
        → Within (l *ℤ difference_u a u l k) (pos (r_size k) *ℤ power l k) }
{}

/// States that over one second, in which the numerator u of the argument grows by 2, a Chebyshev polynomial of either
/// kind changes by 2 times its divided difference from u to u + 2.
pub fn one_second_adds_two_divided_differences()
    ensures first_kind { (u l : ℤ) (k : ℕ)
        → cleared_t (u +ℤ pos 2) l k ≡ cleared_t u l k +ℤ pos 2 *ℤ difference_t (u +ℤ pos 2) u l k }
    ensures second_kind { (u l : ℤ) (k : ℕ)
        → cleared_u (u +ℤ pos 2) l k ≡ cleared_u u l k +ℤ pos 2 *ℤ difference_u (u +ℤ pos 2) u l k }
{}

/// States that the interval of arguments from ua / l to ub / l, in units of 2^-60, holds u / l for each u from ua to
/// ub, and that it lies between -1 and 1 if both ends do.
pub fn intervals_of_arguments_hold_each_argument()
    ensures holds { (ua ub u l : ℤ) → pos 0 <ℤ l → ua ≤ℤ u → u ≤ℤ ub
        → HoldsIn 60 (argument_of ua ub l) u l }
    ensures unit { (ua ub l : ℤ) → pos 0 <ℤ l → neg_ℤ l ≤ℤ ua → ua ≤ℤ ub → ub ≤ℤ l
        → IsArguments (argument_of ua ub l) }
{}

/// States that entry k of each row, made of an interval `x` of arguments, holds the exact value at every argument that
/// `x` holds: of T_k and U_k in the rows `t` and `u`, and of the divided differences Q_k and R_k between any two such
/// arguments in `q` and `r`.
pub fn rows_hold_the_polynomials()
    ensures t { (x : Ival62) (u l : ℤ) → IsArgument u l → HoldsIn 60 x u l → (k : ℕ)
        → HoldsIn t_unit (t_row x k) (cleared_t u l k) (power l k) }
    ensures u { (x : Ival62) (u l : ℤ) → IsArgument u l → HoldsIn 60 x u l → (k : ℕ)
        → HoldsIn u_unit (u_row x k) (cleared_u u l k) (power l k) }
    ensures q { (x : Ival62) (a u l : ℤ) → IsArgument a l → IsArgument u l → HoldsIn 60 x a l
        → HoldsIn 60 x u l → (k : ℕ)
        → HoldsIn q_unit (q_row x k) (l *ℤ difference_t a u l k) (power l k) }
    ensures r { (x : Ival62) (a u l : ℤ) → IsArgument a l → IsArgument u l → HoldsIn 60 x a l
        → HoldsIn 60 x u l → (k : ℕ)
        → HoldsIn r_unit (r_row x k) (l *ℤ difference_u a u l k) (power l k) }
{}

/// States that both ends of entry k of each row are at most the greatest magnitude that the exact value has, in the
/// row's unit: 1 for T_k, k + 1 for U_k, `k^2` for Q_k and `k (k+1) (k+2) / 3` for R_k.
pub fn rows_stay_within_their_sizes()
    ensures t { (x : Ival62) → IsArguments x → (k : ℕ)
        → EndsWithin (t_size k * 2 ^ t_unit) (t_row x k) }
    ensures u { (x : Ival62) → IsArguments x → (k : ℕ)
        → EndsWithin (u_size k * 2 ^ u_unit) (u_row x k) }
    ensures q { (x : Ival62) → IsArguments x → (k : ℕ)
        → EndsWithin (q_size k * 2 ^ q_unit) (q_row x k) }
    ensures r { (x : Ival62) → IsArguments x → (k : ℕ)
        → EndsWithin (r_size k * 2 ^ r_unit) (r_row x k) }
{}

/// States that in every entry of each of the four rows the low end is at most the high end, if the interval of
/// arguments lies between -1 and 1.
pub fn rows_have_ends_in_order()
    ensures t { (x : Ival62) → IsArguments x → (k : ℕ) → (t_row x k).lo ≤ℤ (t_row x k).hi }
    ensures u { (x : Ival62) → IsArguments x → (k : ℕ) → (u_row x k).lo ≤ℤ (u_row x k).hi }
    ensures q { (x : Ival62) → IsArguments x → (k : ℕ) → (q_row x k).lo ≤ℤ (q_row x k).hi }
    ensures r { (x : Ival62) → IsArguments x → (k : ℕ) → (r_row x k).lo ≤ℤ (r_row x k).hi }
{}

/// States that the entries of degree below 32 of each row have ends of at most 2^60 in magnitude, so that they fit 64
/// bits. For T this holds at every degree.
pub fn first_entries_fit()
    ensures t { (x : Ival62) → IsArguments x → (k : ℕ) → EndsWithin (2 ^ 60) (t_row x k) }
    ensures u { (x : Ival62) → IsArguments x → (k : ℕ) → k < 32 → EndsWithin (2 ^ 60) (u_row x k) }
    ensures q { (x : Ival62) → IsArguments x → (k : ℕ) → k < 32 → EndsWithin (2 ^ 60) (q_row x k) }
    ensures r { (x : Ival62) → IsArguments x → (k : ℕ) → k < 32 → EndsWithin (2 ^ 60) (r_row x k) }
{}
