// The four bases.

ghost use Rattle.std.specs.Prelude.{◌≡◌, ℕ, ◌<◌, ◌≤◌, ◌*ℤ◌, ℤ};
ghost use Rattle.spec_chebyshev.specs.Polynomials.{cleared_t, cleared_u};
ghost use Rattle.spec_numbers.specs.Numbers.{power};
ghost use Rattle.spec_chebyshev.specs.Differences.{difference_t, difference_u, IsArgument};
ghost use Rattle.spec_chebyshev.specs.Rows.{t_row, u_row, q_row, r_row, t_unit, u_unit, q_unit, r_unit, entry, HoldsIn, IsArguments};

use crate::rows::{Row, fill_t, fill_tq, fill_u, fill_ur};
use spec_chebyshev::Ival62;

/// The rows of one interval of arguments, of up to 32 coefficients; entry `k` belongs to degree `k`.
///
/// `t` has the polynomials of the first kind in units of 2^-60, `u` those of the second kind in units of 2^-50. `q` and
/// `r` have the divided differences of `t` and of `u` between any two arguments of the interval, in units of 2^-46 and
/// 2^-44.
#[derive(Drop)]
pub struct Basis {
    pub t: Row,
    pub u: Row,
    pub q: Row,
    pub r: Row,
}

/// Writes the first `n` entries of `out.t`, the Chebyshev polynomials of the first kind over the arguments `x`, in
/// units of 2^-60: `T_0` is 1, `T_1` is `x`, and `T_(k+1)` is `2 x T_k - T_(k-1)`, cut to 1 in magnitude. Other
/// entries and rows stay.
pub fn basis_t(x: Ival62, n: usize, out: &mut Basis)
    requires n_in { n ≤ 32 }
    requires x_in { IsArguments x }
    ensures row { (k : ℕ) → k < n → entry out.new.t k ≡ t_row x k }
    ensures rest { (k : ℕ) → n ≤ k → entry out.new.t k ≡ entry out.old.t k }
    ensures u_same { out.new.u ≡ out.old.u }
    ensures q_same { out.new.q ≡ out.old.q }
    ensures r_same { out.new.r ≡ out.old.r }
    ensures holds { (u l : ℤ) → IsArgument u l → HoldsIn 60 x u l → (k : ℕ) → k < n
        → HoldsIn t_unit (entry out.new.t k) (cleared_t u l k) (power l k) }
{
    fill_t(x, n, &mut out.t);
}

/// Writes the first `n` entries of `out.u`, the Chebyshev polynomials of the second kind over the arguments `x`, in
/// units of 2^-50: `U_0` is 1, `U_1` is `2 x`, and `U_(k+1)` is `2 x U_k - U_(k-1)`, cut to `k + 2` in magnitude.
/// Other entries and rows stay.
pub fn basis_u(x: Ival62, n: usize, out: &mut Basis)
    requires n_in { n ≤ 32 }
    requires x_in { IsArguments x }
    ensures row { (k : ℕ) → k < n → entry out.new.u k ≡ u_row x k }
    ensures rest { (k : ℕ) → n ≤ k → entry out.new.u k ≡ entry out.old.u k }
    ensures t_same { out.new.t ≡ out.old.t }
    ensures q_same { out.new.q ≡ out.old.q }
    ensures r_same { out.new.r ≡ out.old.r }
    ensures holds { (u l : ℤ) → IsArgument u l → HoldsIn 60 x u l → (k : ℕ) → k < n
        → HoldsIn u_unit (entry out.new.u k) (cleared_u u l k) (power l k) }
{
    fill_u(x, n, &mut out.u);
}

/// Writes the first `n` entries of `out.q`, the divided differences of T over the arguments `x`, in units of 2^-46:
/// `Q_0` is 0, `Q_1` is 1, and `Q_(k+1)` is `2 x Q_k + 2 T_k - Q_(k-1)`, cut to `(k + 1)^2` in magnitude. The `T_k`
/// are computed beside, in a copy of `out.t`; other entries and rows stay.
pub fn basis_q(x: Ival62, n: usize, out: &mut Basis)
    requires n_in { n ≤ 32 }
    requires x_in { IsArguments x }
    ensures row { (k : ℕ) → k < n → entry out.new.q k ≡ q_row x k }
    ensures rest { (k : ℕ) → n ≤ k → entry out.new.q k ≡ entry out.old.q k }
    ensures t_same { out.new.t ≡ out.old.t }
    ensures u_same { out.new.u ≡ out.old.u }
    ensures r_same { out.new.r ≡ out.old.r }
    ensures holds { (a u l : ℤ) → IsArgument a l → IsArgument u l → HoldsIn 60 x a l
        → HoldsIn 60 x u l → (k : ℕ) → k < n
        → HoldsIn q_unit (entry out.new.q k) (l *ℤ difference_t a u l k) (power l k) }
{
    let mut t = out.t;
    fill_tq(x, n, &mut t, &mut out.q);
}

/// Writes the first `n` entries of `out.r`, the divided differences of U over the arguments `x`, in units of 2^-44:
/// `R_0` is 0, `R_1` is 2, and `R_(k+1)` is `2 x R_k + 2 U_k - R_(k-1)`, cut to `(k + 1) (k + 2) (k + 3) / 3` in
/// magnitude. The `U_k` are computed beside, in a copy of `out.u`; other entries and rows stay.
pub fn basis_r(x: Ival62, n: usize, out: &mut Basis)
    requires n_in { n ≤ 32 }
    requires x_in { IsArguments x }
    ensures row { (k : ℕ) → k < n → entry out.new.r k ≡ r_row x k }
    ensures rest { (k : ℕ) → n ≤ k → entry out.new.r k ≡ entry out.old.r k }
    ensures t_same { out.new.t ≡ out.old.t }
    ensures u_same { out.new.u ≡ out.old.u }
    ensures q_same { out.new.q ≡ out.old.q }
    ensures holds { (a u l : ℤ) → IsArgument a l → IsArgument u l → HoldsIn 60 x a l
        → HoldsIn 60 x u l → (k : ℕ) → k < n
        → HoldsIn r_unit (entry out.new.r k) (l *ℤ difference_u a u l k) (power l k) }
{
    let mut u = out.u;
    fill_ur(x, n, &mut u, &mut out.r);
}
