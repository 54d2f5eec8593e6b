// Laws of neighbouring spans. Each is the contract of a function that does nothing.
ghost use Rattle.std.specs.Prelude.{◌≡◌, ◌⊎◌, ◌++◌, ◌<ℤ◌, ◌+ℤ◌, Contains, IsTrue, List, pos, ℕ, ℤ};
ghost use Rattle.spec_ephemeris.specs.Ephemeris.{Ephemeris, IsBorder, IsEphemeris};
ghost use Rattle.spec_ephemeris.specs.Header.{has_column};
ghost use Rattle.spec_bodies.specs.Views.{columns_of};
ghost use Rattle.spec_trees.specs.declared.cuts.CutRule.{CutRule};
ghost use Rattle.spec_trees.specs.declared.tree.Leaf.{Leaf};
ghost use Rattle.spec_trees.specs.Tree.{AreLeaves, Covers};
ghost use Rattle.spec_trees.specs.Windows.{windows};
ghost use Rattle.spec_events.specs.Events.{AreWindows};
ghost use Rattle.spec_searches.specs.Search.{IsSearch, Search, events};
ghost use Rattle.spec_searches.specs.Found.{IsLeftUndecided, IsSpan, leaves_of, rules, windows_of};
ghost use Rattle.spec_spans.specs.Joins.{AreDecided, joined};
ghost use Rattle.spec_spans.specs.Pieces.{AreSeams, leaves_of_pieces};
ghost use Rattle.spec_spans.specs.Seams.{IsBlockBorder, IsSeam};
ghost use Rattle.spec_spans.specs.Searches.{AreBlocksUpTo, limited, over_blocks};

/// States that the windows of a span are those of its two parts, joined, if it is cut at a border of a column in use or
/// one tick before it. This holds for every width, depth and cut rule, also for undecided windows.
pub fn spans_meet_at_borders()
    ensures { (s : Search) (first last time : ℤ) → IsSearch s → IsSpan s first last
        → IsSeam s first last time
        → windows_of s first last ≡ joined (windows_of s first time) (windows_of s time last) }
{}

/// States that the leaves of a span are those of its pieces, one after another, with their depths and marks, if it is
/// cut at borders of columns in use or one tick before them, and that a search over some of the blocks has the leaves
/// that it has over all.
pub fn leaves_meet_at_borders()
    ensures pieces { (s : Search) (first last : ℤ) (times : List ℤ) → IsSearch s → IsSpan s first last
        → AreSeams s first times last → leaves_of s first last ≡ leaves_of_pieces s first times last }
    ensures over_some_blocks { (s : Search) (skipped count : ℕ) (first last : ℤ) → IsSearch s
        → IsSearch (over_blocks skipped count s)
        → AreBlocksUpTo s.view.ephemeris skipped count last
        → IsSpan (over_blocks skipped count s) first last
        → leaves_of (over_blocks skipped count s) first last ≡ leaves_of s first last }
{}

/// States that the windows of two spans that meet at a time, joined or side by side, hold the events of both spans as
/// the windows of each do. The undecided leaves are those of both.
pub fn windows_of_neighbouring_spans_keep_their_promises()
    ensures joined { (s : Search) (first time last : ℤ) → IsSearch s → IsSpan s first time
        → IsSpan s time last
        → AreWindows (events s)
        (IsLeftUndecided s (leaves_of s first time ++ leaves_of s time last)) first last
        (joined (windows_of s first time) (windows_of s time last)) }
    ensures side_by_side { (s : Search) (first time last : ℤ) → IsSearch s
        → IsSpan s first time → IsSpan s time last
        → AreWindows (events s)
        (IsLeftUndecided s (leaves_of s first time ++ leaves_of s time last)) first last
        (windows_of s first time ++ windows_of s time last) }
{}

/// States that a time at which a block other than the first starts is a border of every column that is present, and
/// that if a column is in use this time and the tick before it are times at which a span may be cut.
pub fn borders_of_blocks_are_borders_of_columns()
    ensures of_columns { (e : Ephemeris) (number : ℕ) (time : ℤ) → IsEphemeris e
        → IsTrue (has_column e.header number) → IsBlockBorder e time → IsBorder e number time }
    ensures seams { (s : Search) (number : ℕ) (first last border time : ℤ) → IsSearch s
        → Contains (columns_of s.view) number → IsBlockBorder s.view.ephemeris border
        → (time ≡ border) ⊎ (time +ℤ pos 1 ≡ border) → first <ℤ time → time <ℤ last
        → IsSeam s first last time }
{}

/// States that if the width is one tick and nothing is left undecided, a span has one list of windows: the same from
/// any leaves that cover it, from its parts if it is cut at any time, and with any greatest depth and cut rule.
pub fn decided_windows_of_one_tick_are_unique()
    ensures leaves { (s : Search) (first last : ℤ) (ls ms : List Leaf) → IsSearch s → s.width ≡ 1
        → Covers first ls last → AreLeaves (rules s) ls → AreDecided (windows ls)
        → Covers first ms last → AreLeaves (rules s) ms → AreDecided (windows ms)
        → windows ls ≡ windows ms }
    ensures parts { (s : Search) (first time last : ℤ) → IsSearch s → s.width ≡ 1
        → IsSpan s first time → IsSpan s time last
        → AreDecided (windows_of s first last) → AreDecided (windows_of s first time)
        → AreDecided (windows_of s time last)
        → windows_of s first last ≡ windows_of s first time ++ windows_of s time last }
    ensures limits { (s : Search) (depth : ℕ) (rule : CutRule) (first last : ℤ) → IsSearch s
        → s.width ≡ 1 → IsSpan s first last → AreDecided (windows_of s first last)
        → AreDecided (windows_of (limited depth rule s) first last)
        → windows_of s first last ≡ windows_of (limited depth rule s) first last }
{}

/// States that a search over some of the blocks finds the same windows as over all, in every span that ends before
/// these blocks end, or with the last block. A time at a border is read from the block that begins there, which is why
/// that block has to be there.
pub fn searches_over_some_blocks_find_the_same()
    ensures { (s : Search) (skipped count : ℕ) (first last : ℤ) → IsSearch s
        → IsSearch (over_blocks skipped count s)
        → AreBlocksUpTo s.view.ephemeris skipped count last
        → IsSpan (over_blocks skipped count s) first last
        → windows_of (over_blocks skipped count s) first last ≡ windows_of s first last }
{}
