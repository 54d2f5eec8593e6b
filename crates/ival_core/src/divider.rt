// Division of many numbers by one: a quotient is guessed by a multiplication and checked.

ghost use Rattle.std.specs.Prelude.{◌≡◌, ◌≤◌, ◌<◌, ◌+◌, ◌*◌, ◌^◌, ◌/◌, ◌%◌, ◌≤ℤ◌, ℕ, pos, unsigned_abs};
ghost use Rattle.spec_numbers.specs.Numbers.{floor_div, ceil_div};

use std::marker::Model;

/// A divisor of at least 1, a number of seconds, by which many numbers are divided. A quotient is guessed by a
/// multiplication with a kept inverse, and checked.
#[derive(Drop)]
pub struct Divider {
    seconds: u64,
    /// The seconds, their first bit moved to the front.
    front: u64,
    /// How far they are moved.
    shift: u32,
    /// `floor((2^128 - 1) / front) - 2^64`.
    inverse: u64,
}

impl Model for Divider {
    ghost use Rattle.std.specs.Prelude.{ℕ, ◌≤◌};

    ghost Value = { ℕ };

    ghost view = { λ a. a.seconds };

    ghost invariant = { λ a. 1 ≤ a.seconds };
}

/// A quotient of 64 bits, rounded down, and its rest.
#[derive(Clone, Copy)]
struct Division {
    quotient: u64,
    rest: u64,
}

/// A quotient of up to 128 bits, rounded down, and its rest.
#[derive(Clone, Copy)]
struct Whole {
    quotient: u128,
    rest: u64,
}

/// Returns the upper 64 bits of a number of 128 bits.
#[inline(always)]
fn high_half(x: u128) -> u64
    ensures { result ≡ x / 2 ^ 64 }
{
    (x >> 64) as u64
}

/// Returns the lower 64 bits of a number of 128 bits.
#[inline(always)]
fn low_half(x: u128) -> u64
    ensures { result ≡ x % 2 ^ 64 }
{
    (x % (1 << 64)) as u64
}

/// Returns the number of 128 bits whose upper and lower 64 bits are these.
#[inline(always)]
fn join_halves(high: u64, low: u64) -> u128
    ensures { result ≡ high * 2 ^ 64 + low }
{
    (high as u128) * (1 << 64) + low as u128
}

/// Returns the quotient, rounded down, and the rest of a number below `seconds * 2^64`, by a slow division of 128
/// bits. The call is not inlined, since the fast path seldom needs it.
#[inline(never)]
fn divide_in_128_bits(x: u128, seconds: u64) -> Division
    requires positive { 1 ≤ seconds }
    requires size { x < seconds * 2 ^ 64 }
    ensures parts { result.quotient * seconds + result.rest ≡ x }
    ensures less { result.rest < seconds }
{
    let d = seconds as u128;
    Division {
        quotient: (x / d) as u64,
        rest: (x % d) as u64,
    }
}

/// Returns the quotient by the seconds, rounded down, and the rest of a number below `seconds * 2^64`. If the guess
/// is that quotient, which one multiplication shows, no division is made.
#[inline(always)]
fn divide_by_guess(x: u128, guess: u64, seconds: u64) -> Division
    requires positive { 1 ≤ seconds }
    requires size { x < seconds * 2 ^ 64 }
    ensures parts { result.quotient * seconds + result.rest ≡ x }
    ensures less { result.rest < seconds }
{
    let product = guess as u128 * seconds as u128;
    if product <= x && x - product < seconds as u128 {
        Division {
            quotient: guess,
            rest: (x - product) as u64,
        }
    } else {
        divide_in_128_bits(x, seconds)
    }
}

/// Returns `z / d` rounded down, for the divisor `d` of which the magnitude of `z` has this quotient and this rest.
#[inline(always)]
pub(crate) fn floor_quotient(z: i128, quotient: u128, rest: u128) -> i128
    requires { quotient < 2 ^ 127 }
    ensures { (d : ℕ) → quotient * d + rest ≡ unsigned_abs z → rest < d → result ≡ floor_div z d }
{
    if z >= 0 {
        quotient as i128
    } else if rest == 0 {
        -(quotient as i128)
    } else {
        -(quotient as i128) - 1
    }
}

/// Returns `z / d` rounded up, for the divisor `d` of which the magnitude of `z` has this quotient and this rest.
#[inline(always)]
pub(crate) fn ceil_quotient(z: i128, quotient: u128, rest: u128) -> i128
    requires size { quotient < 2 ^ 127 }
    requires spare { 1 ≤ rest → quotient < 2 ^ 126 }
    ensures { (d : ℕ) → quotient * d + rest ≡ unsigned_abs z → rest < d → result ≡ ceil_div z d }
{
    if z < 0 {
        -(quotient as i128)
    } else if rest == 0 {
        quotient as i128
    } else {
        quotient as i128 + 1
    }
}

impl Divider {
    /// Makes the divider by a number of seconds, at least 1, and computes its inverse.
    pub fn of(seconds: i64) -> Divider
        requires { pos 1 ≤ℤ seconds }
        ensures { result ≡ unsigned_abs seconds }
    {
        let seconds = seconds as u64;
        let shift = seconds.leading_zeros();
        let front = seconds << shift.min(63);
        let inverse = low_half(u128::MAX / front.max(1) as u128);
        Divider {
            seconds,
            front,
            shift,
            inverse,
        }
    }

    /// Returns a guess of the quotient of a number below `seconds * 2^64`, by a multiplication with the kept inverse
    /// (Moeller and Granlund, "Improved division by invariant integers"). The contract says nothing of the guess,
    /// since `divide_by_guess` tests it; `% 64` changes nothing and spares a check of the shift.
    #[inline(always)]
    fn guess_quotient(&self, x: u128) -> u64 {
        let y = x << (self.shift % 64);
        let high = high_half(y);
        let estimate = (self.inverse as u128 * high as u128).wrapping_add(y);
        let guess = high_half(estimate).wrapping_add(1);
        let rest = low_half(y).wrapping_sub(guess.wrapping_mul(self.front));
        if rest > low_half(estimate) {
            guess.wrapping_sub(1)
        } else if rest >= self.front {
            guess.wrapping_add(1)
        } else {
            guess
        }
    }

    /// Returns the quotient by the seconds, rounded down, and the rest of a number below `seconds * 2^64`. The bound
    /// keeps the quotient within 64 bits.
    #[inline(always)]
    fn divide_short(&self, x: u128) -> Division
        requires { x < self.now * 2 ^ 64 }
        ensures parts { result.quotient * self.now + result.rest ≡ x }
        ensures less { result.rest < self.now }
    {
        divide_by_guess(x, self.guess_quotient(x), self.seconds)
    }

    /// Returns the quotient by the seconds, rounded down, and the rest of any number of 128 bits. One division with a
    /// quotient of 64 bits is enough if the upper half is below the seconds; else there are two.
    #[inline(always)]
    fn divide(&self, x: u128) -> Whole
        ensures parts { result.quotient * self.now + result.rest ≡ x }
        ensures less { result.rest < self.now }
        ensures bound { result.quotient ≤ x }
    {
        let (high, low) = (high_half(x), low_half(x));
        if high < self.seconds {
            let part = self.divide_short(x);
            Whole {
                quotient: part.quotient as u128,
                rest: part.rest,
            }
        } else {
            let first = self.divide_short(high as u128);
            let second = self.divide_short(join_halves(first.rest, low));
            Whole {
                quotient: join_halves(first.quotient, second.quotient),
                rest: second.rest,
            }
        }
    }

    /// Returns `z / seconds`, rounded down to a whole number. `z` is below 2^127 in magnitude, and so is the result.
    #[inline(always)]
    pub fn down(&self, z: i128) -> i128
        requires { unsigned_abs z < 2 ^ 127 }
        ensures equals { result ≡ floor_div z self.now }
        ensures bound { unsigned_abs result < 2 ^ 127 }
        ensures positive { 1 ≤ self.now }
    {
        let whole = self.divide(z.unsigned_abs());
        floor_quotient(z, whole.quotient, u128::from(whole.rest))
    }

    /// Returns `z / seconds`, rounded up to a whole number. `z` is below 2^127 in magnitude, and so is the result.
    #[inline(always)]
    pub fn up(&self, z: i128) -> i128
        requires { unsigned_abs z < 2 ^ 127 }
        ensures equals { result ≡ ceil_div z self.now }
        ensures bound { unsigned_abs result < 2 ^ 127 }
        ensures positive { 1 ≤ self.now }
    {
        let whole = self.divide(z.unsigned_abs());
        ceil_quotient(z, whole.quotient, u128::from(whole.rest))
    }

    /// Returns `z / seconds` rounded down and rounded up, by one division. `z` is below 2^127 in magnitude, and so
    /// are both results.
    #[inline(always)]
    pub fn floor_and_ceil(&self, z: i128) -> (i128, i128)
        requires { unsigned_abs z < 2 ^ 127 }
        ensures low { result.0 ≡ floor_div z self.now }
        ensures high { result.1 ≡ ceil_div z self.now }
        ensures low_bound { unsigned_abs result.0 < 2 ^ 127 }
        ensures high_bound { unsigned_abs result.1 < 2 ^ 127 }
        ensures positive { 1 ≤ self.now }
    {
        let whole = self.divide(z.unsigned_abs());
        let low = floor_quotient(z, whole.quotient, u128::from(whole.rest));
        let high = ceil_quotient(z, whole.quotient, u128::from(whole.rest));
        (low, high)
    }
}
