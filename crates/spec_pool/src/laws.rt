// A law of pieces of work. It is the contract of a function that does nothing.
ghost use Rattle.spec_trees.specs.Tree.{Rules};
ghost use Rattle.spec_pool.specs.Accounts.{Account, Balances};

/// States that doing nothing balances, and that two pieces of work that balance one after the other balance as one. A
/// piece balances if the leaves below the nodes that a worker had and took are those that it entered, put on its deque
/// and still has.
pub fn pieces_of_work_add_up()
    ensures nothing { (t : Rules) (a : Account) → Balances t a a }
    ensures both { (t : Rules) (a b c : Account)
        → Balances t a b → Balances t b c → Balances t a c }
{}
