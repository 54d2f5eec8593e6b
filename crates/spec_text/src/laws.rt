// Laws of decimals, days, lines and tokens. Each is the contract of a function that does nothing.
ghost use Rattle.std.specs.Prelude.{◌≡◌, ◌*◌, ◌<◌, ◌≤◌, false, true, List, [], ◌∷◌, ◌++◌, ◌^◌, length, All, IfOk, Ok, Result, Some, ℕ};
ghost use Rattle.std.specs.Str.Lines.{strip_carriage_return};
ghost use Rattle.spec_text.specs.Bytes.{line_feed};
ghost use Rattle.spec_text.specs.Days.{seconds_within};
ghost use Rattle.spec_text.specs.Lines.{is_line_feed, is_separator, lines, numbered_from, text_lines, tokens};
ghost use Rattle.spec_text.specs.Printed.{AreLines, IsPlain, joined_lines};
ghost use Rattle.spec_text.specs.Reading.{IsWithinBounds, Reads, reading, whole_of};
ghost use Rattle.spec_text.specs.declared.decimals.Decimal.{Decimal};
ghost use Rattle.spec_text.specs.declared.decimals.NumberFault.{NumberFault};
ghost use Rattle.spec_text.specs.declared.limits.TheConstants.{DAY_SECONDS};

/// States that every word either is a decimal or has a fault, and in one way only: the answer that `reading` computes
/// is true of the word, and no other is.
#[tactic(auto, using(crate::proofs::Answering::one_answer, crate::proofs::Answering::reads_reading))]
pub fn every_word_has_one_answer()
    ensures one { (word : List ℕ) (a b : Result Decimal NumberFault)
        → Reads word a → Reads word b → a ≡ b }
    ensures computed { (word : List ℕ) → Reads word (reading word) }
{}

/// States that every decimal that is read from a word has a `mant` below 10^18 in magnitude and an `exp` from -139 to
/// 99.
pub fn decimals_are_bounded()
    ensures { (word : List ℕ) (d : Decimal) → Reads word (Ok d) → IsWithinBounds d }
{}

/// States that every whole number that is read from a word is below 10^9.
#[tactic(auto, using(crate::proofs::Wholes::whole_bound))]
pub fn whole_numbers_are_bounded()
    ensures { (word : List ℕ) (n : ℕ) → whole_of word ≡ Some n → n < 10 ^ 9 }
{}

/// States that a number of days that is accepted as at most `most` days has at most `86,400 * most` seconds.
#[tactic(auto, using(crate::proofs::Spans::seconds_few))]
pub fn days_are_bounded()
    ensures { (most : ℕ) (days : Decimal)
        → IfOk (seconds_within most days) (λ seconds. seconds ≤ DAY_SECONDS * most) }
{}

/// States how a text is cut into lines. The empty text has none; bytes up to the first line feed are the first line,
/// without a carriage return at their end; bytes without a line feed, if there are some, are one last line.
#[tactic(auto, using(crate::proofs::LineLemmas::first_line, crate::proofs::LineLemmas::last_line))]
pub fn lines_end_at_line_feeds()
    ensures none { lines [] ≡ [] }
    ensures first { (line rest : List ℕ) → All (λ b. is_line_feed b ≡ false) line
        → lines (line ++ line_feed ∷ rest) ≡ strip_carriage_return line ∷ lines rest }
    ensures last { (line : List ℕ) → All (λ b. is_line_feed b ≡ false) line → 0 < length line
        → lines line ≡ strip_carriage_return line ∷ [] }
{}

/// States how a line is cut into tokens. The empty line has none; a blank or tab at the front is skipped; bytes up to
/// the next blank or tab, or up to the line's end, are one token.
#[tactic(auto, using(crate::proofs::TokenLemmas::skip_one, crate::proofs::TokenLemmas::first_token, crate::proofs::TokenLemmas::last_token))]
pub fn tokens_end_at_separators()
    ensures none { tokens [] ≡ [] }
    ensures skipped { (b : ℕ) (rest : List ℕ) → is_separator b ≡ true
        → tokens (b ∷ rest) ≡ tokens rest }
    ensures first { (word : List ℕ) (b : ℕ) (rest : List ℕ)
        → All (λ b. is_separator b ≡ false) word → 0 < length word → is_separator b ≡ true
        → tokens (word ++ b ∷ rest) ≡ word ∷ tokens rest }
    ensures last { (word : List ℕ) → All (λ b. is_separator b ≡ false) word → 0 < length word
        → tokens word ≡ word ∷ [] }
{}

/// States that lines that are written one after another, with a line feed after each, are read back as the same lines,
/// numbered from 1. None of them is blank, so none is skipped.
#[tactic(auto, using(crate::proofs::Printed::lines_joined, crate::proofs::Printed::text_lines_are))]
pub fn joined_lines_are_read_back()
    ensures lines { (ls : List (List ℕ)) → AreLines ls → lines (joined_lines ls) ≡ ls }
    ensures counted { (ls : List (List ℕ)) → AreLines ls
        → text_lines (joined_lines ls) ≡ numbered_from 1 ls }
{}

/// States that a word that is read as a decimal is plain: at most 40 bytes, each with a code above that of the blank,
/// 32.
pub fn decimals_are_plain()
    ensures { (word : List ℕ) (d : Decimal) → reading word ≡ Ok d → IsPlain word }
{}
