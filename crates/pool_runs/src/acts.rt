// Laws of the acts of all seats, put in one order. The calls do nothing when they run.
ghost use Rattle.std.specs.Prelude.{◌≡◌, ◌≤◌, ℕ, List, Some, length, map, slice_get};
ghost use Rattle.spec_trees.specs.declared.tree.Node.{Node};
ghost use Rattle.spec_trees.specs.Tree.{Rules};
ghost use Rattle.span_ledger.specs.declared.desk.SpanLedger.{SpanLedger};
ghost use Rattle.steal_pool.specs.Seats.{Seat};
ghost use Rattle.steal_pool.specs.Pools.{AllBegin};
ghost use Rattle.steal_pool.specs.Histories.{RunHistory};
ghost use Rattle.pool_core.specs.States.{Holding, State, Runs, opening};
ghost use Rattle.pool_core.specs.Interleaved.{Event, entered_in, step_of};
ghost use Rattle.pool_runs.specs.Seated.{AreInterleaved, ShowsSeat};

/// States that the acts of seats that begin, in whatever one order of all of them in which each deque is first in, first
/// out, are a run of the model. The state that it leads to has in each hand and on each local stack what the seat has, and
/// on each deque what the seat put there less what was taken.
pub fn seats_take_steps_of_the_model()
    ensures { (t : Rules) (ledger : SpanLedger) (root : Node) (ss qs : List Seat)
        (events : List Event) → 1 ≤ length ss → AllBegin ledger root ss → AreInterleaved t ss qs events
        → (s : State) × Runs t (opening root (length qs)) (map step_of events) s × (s.entered ≡ entered_in events)
        × ((k : ℕ) (q : Seat) (x : Holding) → slice_get qs k ≡ Some q → slice_get s.workers k ≡ Some x
        → ShowsSeat k events q x) }
{}

/// States the same of whole runs, as `run` of `steal_pool` says what its seats did: in whatever one order of all their acts
/// each deque is first in, first out, the acts of its workers are a run of the model from the opening state on.
pub fn runs_take_steps_of_the_model()
    ensures { (t : Rules) (root : Node) (workers limit : ℕ) (h : RunHistory t root workers limit)
        (events : List Event) → 1 ≤ workers → AreInterleaved t h.come.0 h.worked events
        → (s : State) × Runs t (opening root (length h.worked)) (map step_of events) s × (s.entered ≡ entered_in events)
        × ((k : ℕ) (q : Seat) (x : Holding) → slice_get h.worked k ≡ Some q → slice_get s.workers k ≡ Some x
        → ShowsSeat k events q x) }
{}
