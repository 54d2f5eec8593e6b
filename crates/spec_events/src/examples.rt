// Worked values of events, by computation. The calls do nothing when they run.
ghost use Rattle.std.specs.Prelude.{pos, ◌≤ℤ◌};
ghost use Rattle.spec_trees.specs.declared.tree.Turn.TheVariants.{Rise, Fall};
ghost use Rattle.spec_events.specs.declared.dir.Dir.TheVariants as D;
ghost use Rattle.spec_events.specs.Events.{Always, IsTurn, IsEvent, IsWantedTurn};

/// Works out turns of conditions: `3 ≤ t` becomes true at time 3, which is a rise, and does not turn at 4; `t ≤ 3`
/// becomes false at time 4, which is a fall.
pub fn conditions_turn_when_their_truth_changes()
    ensures rises { IsTurn (λ t. pos 3 ≤ℤ t) Rise (pos 3) }
    ensures stays { IsEvent (IsTurn (λ t. pos 3 ≤ℤ t)) (pos 4) → ⊥ }
    ensures falls { IsTurn (λ t. t ≤ℤ pos 3) Fall (pos 4) }
{}

/// Works out events of the condition `3 ≤ t`, which rises at 3: the rise is an event if rises or all turns are wanted.
/// It is none if falls are wanted, or if a guard, here `4 ≤ t`, does not hold at 3.
pub fn turns_are_events_if_wanted_and_guarded()
    ensures rise { IsWantedTurn (λ t. pos 3 ≤ℤ t) D.Rise Always Rise (pos 3) }
    ensures any { IsWantedTurn (λ t. pos 3 ≤ℤ t) D.Any Always Rise (pos 3) }
    ensures unwanted { IsEvent (IsWantedTurn (λ t. pos 3 ≤ℤ t) D.Fall Always) (pos 3) → ⊥ }
    ensures guarded { IsEvent (IsWantedTurn (λ t. pos 3 ≤ℤ t) D.Any (λ t. pos 4 ≤ℤ t)) (pos 3) → ⊥ }
{}
