// The recurrences of the four rows, and one entry of a row from the two before it.

ghost use Rattle.std.specs.Prelude.{◌≡◌, ℕ, ◌-◌, ◌<◌, ◌≤◌, ◌*◌, ◌^◌};
ghost use Rattle.spec_chebyshev.specs.Rows.{ends, t_row, u_row, q_row, r_row, t_size, u_size, q_size, r_size, t_unit, u_unit, q_unit, r_unit, nothing, shifted, EndsWithin, IsArguments};
ghost use Rattle.spec_chebyshev.specs.declared.ends.Ival62.{Ival62};
ghost use Rattle.cheby_laws.specs.Recurrences.{IsRecurrence};
ghost use Rattle.cheby_laws.specs.Rules.{IsRecurrence-t, IsRecurrence-u, IsRecurrence-q, IsRecurrence-r};

use crate::steps::{entry_in_coarser_unit, next_entry};
use spec_chebyshev::Ival62;

/// The number 1 in units of 2^-60, as the row of T counts.
const T_ONE: i64 = 1_152_921_504_606_846_976;

/// The number 1 in units of 2^-50, as the row of U counts.
const U_ONE: i64 = 1_125_899_906_842_624;

/// The number 1 in units of 2^-46, as the row of Q counts.
const Q_ONE: i64 = 70_368_744_177_664;

/// The number 1 in units of 2^-44, as the row of R counts.
const R_ONE: i64 = 17_592_186_044_416;

/// The interval of 0 alone, in any unit.
const NOTHING: Ival62 = Ival62 { lo: 0, hi: 0 };

/// A row whose entry `k` is `2 x e_(k-1) + extra - e_(k-2)`, rounded outward and cut to its greatest magnitude.
/// `extra` is made of entry `k - 1` of a row beside it.
pub(crate) trait Recurrence {
    /// The entries over an interval of arguments.
    ghost entries: { Ival62 → ℕ → Ival62 };

    /// The entries of the row beside it, which is the row itself if nothing is added.
    ghost beside: { Ival62 → ℕ → Ival62 };

    /// The summand that an entry of the row beside gives.
    ghost extra: { Ival62 → Ival62 };

    /// The greatest magnitude of entry `k`.
    ghost limit: { ℕ → ℕ };

    // Returns entry 0 of the row, which is the same for all arguments.
    fn first_entry() -> Ival62
        ensures { (x : Ival62) → result ≡ entries x 0 };

    // Returns entry 1 of the row, over the arguments `x`.
    fn second_entry(x: Ival62) -> Ival62
        requires { IsArguments x }
        ensures { result ≡ entries x 1 };

    // Returns what is added to the next entry of the row: a multiple of an entry `e` of the row beside it, in the
    // unit of this row.
    fn summand(e: Ival62) -> Ival62
        requires { EndsWithin (2 ^ 60) e }
        ensures { result ≡ extra e };

    // Returns the greatest magnitude of entry `k`, in the unit of the row, to which the entry is cut.
    fn limit(k: usize) -> u64
        requires { k < 32 }
        ensures { result ≡ limit k };

    ghost rule: { IsRecurrence entries beside extra limit };
}

/// `T`: `T_0` is 1, `T_1` is `x`, in units of 2^-60.
pub(crate) struct FirstKind;

#[tactic(auto, unfolding(spec_chebyshev::specs::Rows::t_row))]
impl Recurrence for FirstKind {
    ghost entries = { t_row };

    ghost beside = { t_row };

    ghost extra = { λ e. nothing };

    ghost limit = { λ k. t_size k * 2 ^ t_unit };

    ghost rule = { IsRecurrence-t };

    // Returns T_0, which is 1, in units of 2^-60.
    #[inline(always)]
    fn first_entry() -> Ival62 {
        interval_of_number(T_ONE)
    }

    // Returns T_1, which is the argument itself, in units of 2^-60.
    #[inline(always)]
    fn second_entry(x: Ival62) -> Ival62 {
        x
    }

    // Returns 0: to the next entry of the row of T nothing is added.
    #[inline(always)]
    fn summand(_e: Ival62) -> Ival62 {
        NOTHING
    }

    // Returns 1 in units of 2^-60: for arguments from -1 to 1 no T_k is greater in magnitude.
    #[inline(always)]
    fn limit(_k: usize) -> u64 {
        T_ONE as u64
    }
}

/// `U`: `U_0` is 1, `U_1` is `2 x`, in units of 2^-50.
pub(crate) struct SecondKind;

#[tactic(auto, unfolding(spec_chebyshev::specs::Rows::u_row))]
impl Recurrence for SecondKind {
    ghost entries = { u_row };

    ghost beside = { u_row };

    ghost extra = { λ e. nothing };

    ghost limit = { λ k. u_size k * 2 ^ u_unit };

    ghost rule = { IsRecurrence-u };

    // Returns U_0, which is 1, in units of 2^-50.
    #[inline(always)]
    fn first_entry() -> Ival62 {
        interval_of_number(U_ONE)
    }

    // Returns U_1, which is 2 x, in units of 2^-50. These are 2^10 units of an argument, so 2 x takes a shift by 9.
    #[inline(always)]
    fn second_entry(x: Ival62) -> Ival62 {
        entry_in_coarser_unit(x, 9)
    }

    // Returns 0: to the next entry of the row of U nothing is added.
    #[inline(always)]
    fn summand(_e: Ival62) -> Ival62 {
        NOTHING
    }

    // Returns k + 1 in units of 2^-50: for arguments from -1 to 1 U_k is no greater in magnitude.
    #[inline(always)]
    fn limit(k: usize) -> u64 {
        (k as u64 + 1) * U_ONE as u64
    }
}

/// `Q`, the divided differences of `T`: `Q_0` is 0, `Q_1` is 1, and `2 T_(k-1)` is added, in units of 2^-46.
pub(crate) struct FirstDifferences;

#[tactic(auto, unfolding(spec_chebyshev::specs::Rows::q_row))]
impl Recurrence for FirstDifferences {
    ghost entries = { q_row };

    ghost beside = { t_row };

    ghost extra = { shifted 13 };

    ghost limit = { λ k. q_size k * 2 ^ q_unit };

    ghost rule = { IsRecurrence-q };

    // Returns Q_0, the divided difference of T_0, which is 0.
    #[inline(always)]
    fn first_entry() -> Ival62 {
        NOTHING
    }

    // Returns Q_1, the divided difference of T_1, which is 1, in units of 2^-46.
    #[inline(always)]
    fn second_entry(_x: Ival62) -> Ival62 {
        interval_of_number(Q_ONE)
    }

    // Returns 2 T_(k-1), which is added to Q_k, in units of 2^-46. T_(k-1) comes in units of 2^-60, so twice it takes a
    // shift by 13.
    #[inline(always)]
    fn summand(e: Ival62) -> Ival62 {
        entry_in_coarser_unit(e, 13)
    }

    // Returns k^2 in units of 2^-46: for arguments from -1 to 1 Q_k is no greater in magnitude.
    #[inline(always)]
    fn limit(k: usize) -> u64 {
        (k * k) as u64 * Q_ONE as u64
    }
}

/// `R`, the divided differences of `U`: `R_0` is 0, `R_1` is 2, and `2 U_(k-1)` is added, in units of 2^-44.
pub(crate) struct SecondDifferences;

#[tactic(auto, unfolding(spec_chebyshev::specs::Rows::r_row))]
impl Recurrence for SecondDifferences {
    ghost entries = { r_row };

    ghost beside = { u_row };

    ghost extra = { shifted 5 };

    ghost limit = { λ k. r_size k * 2 ^ r_unit };

    ghost rule = { IsRecurrence-r };

    // Returns R_0, the divided difference of U_0, which is 0.
    #[inline(always)]
    fn first_entry() -> Ival62 {
        NOTHING
    }

    // Returns R_1, the divided difference of U_1, which is 2, in units of 2^-44.
    #[inline(always)]
    fn second_entry(_x: Ival62) -> Ival62 {
        interval_of_number(2 * R_ONE)
    }

    // Returns 2 U_(k-1), which is added to R_k, in units of 2^-44. U_(k-1) comes in units of 2^-50, so twice it takes a
    // shift by 5.
    #[inline(always)]
    fn summand(e: Ival62) -> Ival62 {
        entry_in_coarser_unit(e, 5)
    }

    // Returns k (k + 1) (k + 2) / 3 in units of 2^-44: for arguments from -1 to 1 R_k is no greater in magnitude.
    #[inline(always)]
    fn limit(k: usize) -> u64 {
        (k * (k + 1) * (k + 2) / 3) as u64 * R_ONE as u64
    }
}

/// Returns entry `k` of a row over the arguments `x`, from its entries `k - 1` (`last`) and `k - 2` (`before`), and
/// from entry `k - 1` of the row beside it (`beside`).
#[inline(always)]
pub(crate) fn next_entry_of_row<R: Recurrence>(
    x: Ival62,
    k: usize,
    beside: Ival62,
    last: Ival62,
    before: Ival62,
) -> Ival62
    requires k_from { 2 ≤ k }
    requires k_in { k < 32 }
    requires x_in { IsArguments x }
    requires beside_is { beside ≡ R.beside x (k - 1) }
    requires last_is { last ≡ R.entries x (k - 1) }
    requires before_is { before ≡ R.entries x (k - 2) }
    ensures { result ≡ R.entries x k }
{
    next_entry(x, last, R::summand(beside), before, R::limit(k))
}

/// Returns the interval that holds one number alone.
#[inline(always)]
fn interval_of_number(z: i64) -> Ival62
    ensures { result ≡ ends z z }
{
    Ival62 { lo: z, hi: z }
}
