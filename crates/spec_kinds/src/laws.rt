// Laws of asks. Each is the contract of a function that does nothing.

ghost use Rattle.std.specs.Prelude.{◌≡◌, ◌≢◌, ◌↔◌, ◌<◌, ℕ, ◌∷◌, All, IsTrue, None, length};
ghost use Rattle.spec_text.specs.declared.decimals.Decimal.{Decimal};
ghost use Rattle.spec_intervals.specs.Interval.{IsDistance, IsCosine};
ghost use Rattle.spec_trees.specs.declared.cuts.CutRule.{CutRule};
ghost use Rattle.spec_ephemeris.specs.declared.body.Body.{Body};
ghost use Rattle.spec_ephemeris.specs.declared.body.Body.TheVariants.{Ssb};
ghost use Rattle.spec_ephemeris.specs.Ephemeris.{Ephemeris, IsEphemeris};
ghost use Rattle.spec_bodies.specs.Views.{HasBody, IsView};
ghost use Rattle.spec_searches.specs.Event.{AreFormulas};
ghost use Rattle.spec_searches.specs.Search.{IsSearch};
ghost use Rattle.spec_kinds.specs.declared.ask.Ask.{Ask};
ghost use Rattle.spec_kinds.specs.Asks.{IsAsk, targets_of};
ghost use Rattle.spec_kinds.specs.Faults.{fault_of, has_body, is_same, is_distance, is_cosine};
ghost use Rattle.spec_kinds.specs.Kinds.{event_of};
ghost use Rattle.spec_kinds.specs.Table.{place, row_of, rows};
ghost use Rattle.spec_kinds.specs.declared.kind.Kind.{Kind};
ghost use Rattle.spec_kinds.specs.Searches.{view_of_ask, search_of};

/// States that the function and the conditions of an ask without a fault are formulas, whose sizes and constants are
/// within the limits for evaluation.
pub fn events_are_formulas()
    ensures { (e : Ephemeris) (ask : Ask) → IsAsk ask → fault_of e ask ≡ None
        → AreFormulas (event_of ask) }
{}

/// States that the targets and the observer of an ask without a fault are in the ephemeris, that no target is the
/// observer or the barycentre of the solar system, and that they make a checked view of the ephemeris.
pub fn targets_without_fault_can_be_observed()
    ensures present { (e : Ephemeris) (ask : Ask) → fault_of e ask ≡ None
        → All (HasBody e) (ask.observer ∷ targets_of ask) }
    ensures bodies { (ask : Ask) → IsAsk ask → All (λ target. target ≢ Ssb) (targets_of ask) }
    ensures apart { (e : Ephemeris) (ask : Ask) → fault_of e ask ≡ None
        → All (λ target. target ≢ ask.observer) (targets_of ask) }
    ensures view { (e : Ephemeris) (ask : Ask) → IsEphemeris e → 0 < e.blocks
        → fault_of e ask ≡ None → IsView (view_of_ask e ask) }
{}

/// States that an ask without a fault makes a valid search over a checked ephemeris with at least one block, for each
/// width above 0, each greatest depth and each cut rule.
pub fn asks_mean_searches()
    ensures { (e : Ephemeris) (ask : Ask) (width depth : ℕ) (cut : CutRule)
        → IsEphemeris e → 0 < e.blocks → IsAsk ask → fault_of e ask ≡ None
        → 0 < width → IsSearch (search_of e ask width depth cut) }
{}

/// States that the four tests behind faults decide what they are named for: whether an ephemeris has a body's columns,
/// whether two bodies are one, whether a number is a length below 2^36 km, and whether one is a cosine.
pub fn tests_decide_what_they_are_named_for()
    ensures body { (e : Ephemeris) (body : Body) → IsTrue (has_body e body) ↔ HasBody e body }
    ensures same { (one other : Body) → IsTrue (is_same one other) ↔ (one ≡ other) }
    ensures distance { (d : Decimal) → IsTrue (is_distance d) ↔ IsDistance d.mant d.exp }
    ensures cosine { (d : Decimal) → IsTrue (is_cosine d) ↔ IsCosine d.mant d.exp }
{}

/// States that each kind of event has its own row in the table of kinds: its place is within the table, and the row
/// there is of this kind.
pub fn kinds_have_rows()
    ensures there { (kind : Kind) → place kind < length rows }
    ensures own { (kind : Kind) → (row_of kind).kind ≡ kind }
{}
