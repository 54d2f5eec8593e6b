// A law for each file of lemmas, so that each file is checked. Each is the contract of a function that does nothing.

ghost use Rattle.std.specs.Prelude.{◌≡◌, ℕ, ◌+◌, ◌*◌, ◌^◌, ◌<◌, ◌≤◌, ℤ, pos, ◌+ℤ◌, ◌*ℤ◌, ◌≤ℤ◌, ◌<ℤ◌, unsigned_abs, Bool, true, ◌&&◌, List, take, slice_get};
ghost use Rattle.spec_numbers.specs.Numbers.{floor_div, ceil_div, power};

/// States that the factors of a product may be reordered: two integers, an integer and two natural numbers (embedded by
/// `pos`), or three natural numbers, which may be regrouped too.
pub fn factors_may_be_reordered()
    ensures commute { (a b : ℤ) → a *ℤ b ≡ b *ℤ a }
    ensures scales { (z : ℤ) (m n : ℕ) → z *ℤ pos m *ℤ pos n ≡ z *ℤ pos n *ℤ pos m }
    ensures naturals { (m n k : ℕ) → m * (n * k) ≡ m * k * n }
{}

/// States that `a ≤ b` gives `a c ≤ b c` for integers if the factor `c` is at least 0, and that `a c ≤ b c` gives
/// `a ≤ b` back if `c` is above 0.
pub fn factors_keep_orders()
    ensures multiplied { (a b c : ℤ) → pos 0 ≤ℤ c → a ≤ℤ b → (a *ℤ c) ≤ℤ (b *ℤ c) }
    ensures divided { (a b : ℤ) (c : ℕ) → 0 < c → (a *ℤ pos c) ≤ℤ (b *ℤ pos c) → a ≤ℤ b }
{}

/// States what rounding an integer quotient `z / d` with `d` above 0 means. `floor_div z d` is the greatest integer
/// that times `d` is at most `z`, and `ceil_div z d` is the least that times `d` is at least `z`.
pub fn quotients_are_rounded_down_or_up()
    ensures below { (z : ℤ) (d : ℕ) → 0 < d → (floor_div z d *ℤ pos d) ≤ℤ z }
    ensures next { (z : ℤ) (d : ℕ) → 0 < d → z <ℤ (floor_div z d *ℤ pos d +ℤ pos d) }
    ensures above { (z : ℤ) (d : ℕ) → 0 < d → z ≤ℤ (ceil_div z d *ℤ pos d) }
    ensures before { (z : ℤ) (d : ℕ) → 0 < d → (ceil_div z d *ℤ pos d) <ℤ (z +ℤ pos d) }
{}

/// States that an integer `m` is at most `x y` for every `x` in `[a, b]` and `y` in `[c, d]` if it is at most each of
/// the four products of ends `a c`, `a d`, `b c` and `b d`. So the least of the four is a low end of all products.
pub fn corner_products_bound_all_products()
    ensures { (m a b c d x y : ℤ) → a ≤ℤ x → x ≤ℤ b → c ≤ℤ y → y ≤ℤ d → m ≤ℤ (a *ℤ c)
        → m ≤ℤ (a *ℤ d) → m ≤ℤ (b *ℤ c) → m ≤ℤ (b *ℤ d) → m ≤ℤ (x *ℤ y) }
{}

/// States that the magnitude of an integer times a natural number is the magnitude of the integer times that number.
pub fn magnitudes_multiply()
    ensures { (z : ℤ) (n : ℕ) → unsigned_abs (z *ℤ pos n) ≡ unsigned_abs z * n }
{}

/// States that `power`, which raises integers, gives on a natural number `a` the same `a^k` as the power of natural
/// numbers.
pub fn integer_powers_of_naturals_are_natural_powers()
    ensures { (a k : ℕ) → power (pos a) k ≡ pos (a ^ k) }
{}

/// States two facts about lists and tests. Item `i` of the first `n` items of a list is item `i` of the list, for each
/// `i` below `n`; and if `a && b` is true, then `b` is true.
pub fn prefixes_keep_items_and_ands_imply_operands()
    ensures front { (xs : List ℕ) (n i : ℕ) → i < n → slice_get (take n xs) i ≡ slice_get xs i }
    ensures second { (a b : Bool) → (a && b) ≡ true → b ≡ true }
{}
