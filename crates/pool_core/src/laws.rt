// Laws of every run of the pool, whoever takes the steps and in whatever order. The calls do nothing when they run.
ghost use Rattle.std.specs.Prelude.{◌≡◌, ◌≤◌, ℕ, ◌+◌, ◌-◌, ◌*◌, ◌⊎◌, List, ◌∷◌, ◌++◌, length, map};
ghost use Rattle.spec_trees.specs.declared.tree.Node.{Node};
ghost use Rattle.spec_trees.specs.Tree.{Rules, IsSound, IsValid, leaf_count, leaves};
ghost use Rattle.spec_pool.specs.Accounts.{Account};
ghost use Rattle.spec_trees.specs.Order.{in_order};
ghost use Rattle.pool_core.specs.declared.step.Step.{Step};
ghost use Rattle.pool_core.specs.States.{State, Steps, Runs, opening};
ghost use Rattle.pool_core.specs.Accounted.{Accounts, Accounted, AllAccounted, AreAccounts, AllBalance};
ghost use Rattle.pool_core.specs.Tiling.{Conserves, todo, IsDone};
ghost use Rattle.pool_core.specs.Interleaved.{AreApart, Event, Interleaves, IsAtRest, Shows, entered_in, step_of};

/// States that the nodes that workers hold and those of the entered leaves, in order of time, follow one another over
/// the root without gap or overlap, and that their leaves together are the root's. Both hold in the opening state,
/// where the first worker holds the root, and after each run of accepted steps.
pub fn every_run_tiles_the_root()
    ensures opening { (t : Rules) (root : Node) (workers : ℕ)
        → IsValid t root → Conserves t root (opening root workers) }
    ensures runs { (t : Rules) (root : Node) (s : State) (xs : List Step) (s' : State)
        → IsSound t → Conserves t root s → Runs t s xs s' → Conserves t root s' }
{}

/// States that each accepted step lowers `todo`, the number of steps that are left, by exactly one. That number is 0
/// exactly if no worker holds a node.
pub fn each_step_lowers_todo_by_one()
    ensures runs { (t : Rules) (root : Node) (s : State) (xs : List Step) (s' : State)
        → IsSound t → Conserves t root s → Runs t s xs s' → todo t s' + length xs ≡ todo t s }
    ensures done { (t : Rules) (s : State) → IsDone s → todo t s ≡ 0 }
    ensures zero { (t : Rules) (root : Node) (s : State)
        → IsSound t → Conserves t root s → todo t s ≡ 0 → IsDone s }
{}

/// States that a pool in which some worker holds a node accepts at least one step. So no run gets stuck before its end.
pub fn some_step_is_accepted()
    ensures { (t : Rules) (s : State) → IsDone s ⊎ ((x : Step) × (s' : State) × Steps t s x s') }
{}

/// States that once no worker holds a node, the entered leaves are all leaves of the root: in order of time the two
/// lists are equal.
pub fn a_done_pool_has_entered_all_leaves()
    ensures { (t : Rules) (root : Node) (s : State)
        → IsSound t → IsValid t root → Conserves t root s → IsDone s
        → in_order s.entered ≡ leaves t root }
{}

/// States that each accepted step changes accounts, which fit the state before it, to accounts that fit the state
/// after it. An account lists what a worker took and put, or what went on a deque and off it. `Accounted` says which
/// account a step changes: that of its worker, and that of at most one deque.
pub fn each_step_is_accounted_for()
    ensures { (t : Rules) (s : State) (x : Step) (s' : State) (c : Accounts)
        → Steps t s x s' → AreAccounts s c → (d : Accounts) × Accounted t x c d × AreAccounts s' d }
{}

/// States that accounts balance over each run of accepted steps, for each worker and each deque. The leaves of what a
/// worker had or took are those that it entered, put on its deque or still has. The nodes put on a deque are, in order,
/// those taken from it and then those still there.
pub fn every_run_balances_accounts()
    ensures { (t : Rules) (root : Node) (s : State) (xs : List Step) (s' : State) (c : Accounts)
        → IsSound t → Conserves t root s → AreAccounts s c → Runs t s xs s'
        → (d : Accounts) × AllAccounted t xs c d × AreAccounts s' d × AllBalance t c d }
{}

/// States that the workers' acts, in whatever one order of all of them, are a run of the model from its opening state: each
/// act is accepted as the step of its name, one after the other. The premise is no more than this: the acts of each worker, in
/// that order, are a history of its account, and at each moment what was taken from a deque is a beginning of what was put
/// on it. The state that the run leads to has the hands and the local stacks of the accounts, on each deque what was put
/// there less what was taken, and the entered leaves in the order of the list.
pub fn every_interleaving_is_a_run()
    ensures { (t : Rules) (root : Node) (events : List Event) (accounts : List Account)
        → Interleaves t root events accounts
        → (s : State) × Runs t (opening root (length accounts)) (map step_of events) s × Shows events accounts s }
{}

/// States that each run of the model from its opening state is made of such acts of its workers. So `Interleaves` asks for
/// no more than runs keep.
pub fn every_run_is_an_interleaving()
    ensures { (t : Rules) (root : Node) (workers : ℕ) (xs : List Step) (s : State)
        → 1 ≤ workers → Runs t (opening root workers) xs s
        → (events : List Event) × (accounts : List Account) × (map step_of events ≡ xs)
        × (length accounts ≡ workers) × Interleaves t root events accounts × Shows events accounts s }
{}

/// States that the model's laws hold of the workers' acts in whatever one order of all of them. What the accounts and the
/// deques have and what is entered tiles the root: each second is in exactly one place. Each act lowers the number of acts
/// that are left by one, so there are at most 3n - 2 of them for a root of n leaves. Once no account and no deque has a
/// node, there were exactly so many, and the entered leaves, put in order of time, are those of the root.
pub fn every_interleaving_keeps_the_laws()
    ensures laws { (t : Rules) (root : Node) (events : List Event) (accounts : List Account)
        → IsSound t → IsValid t root → Interleaves t root events accounts
        → (s : State) × Shows events accounts s × Conserves t root s
        × (todo t s + length events ≡ 3 * leaf_count t root - 2) }
    ensures all { (t : Rules) (root : Node) (events : List Event) (accounts : List Account)
        → IsSound t → IsValid t root → Interleaves t root events accounts → IsAtRest events accounts
        → (in_order (entered_in events) ≡ leaves t root) × (length events ≡ 3 * leaf_count t root - 2) }
{}

/// States that two neighbouring acts of different workers on different deques may change places: the list is then still
/// one that leads the workers to the same accounts. So it does not matter that nobody knows in which order such acts
/// were done.
pub fn acts_on_different_deques_may_change_places()
    ensures { (t : Rules) (root : Node) (front : List Event) (d e : Event) (back : List Event)
        (accounts : List Account) → AreApart d e → Interleaves t root (front ++ d ∷ e ∷ back) accounts
        → Interleaves t root (front ++ e ∷ d ∷ back) accounts }
{}
