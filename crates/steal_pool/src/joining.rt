// The joining of all stealers into the owners of their deques.
ghost use Rattle.std.specs.Prelude.{◌≡◌, ◌<◌, ◌+◌, [], MatchOption, IsTrue, IsFalse, length};
ghost use Rattle.std.specs.List.{AllByRecursion};
ghost use Rattle.steal_pool.specs.Pools.{AreLinked};
ghost use Rattle.steal_pool.specs.Stealers.{GivesStealer, HasNoStealer, HasNoStealerAt, NoStealerBefore, Joined, JoinsLast, joined};

use crate::seat::PoolSeat;
use crate::stealer::Stealer;
use crate::view::Naming;
use gf_edges::Gate;
use halving::Judge;

impl<'p, N: Naming, J: Judge, G: Gate> PoolSeat<'p, N, J, G> {
    // Removes the last stealer of the seat's list and returns it, or returns none if the seat has no stealer.
    fn give_stealer(&mut self) -> Option<Stealer<N>>
        ensures { MatchOption result ((self.old.worker.stealers ≡ []) × (self.new ≡ self.old))
            (λ e. GivesStealer e self.old self.new) }
    {
        self.worker.give_stealer()
    }

    // Joins a stealer on this seat's deque into the seat, which made it: the nodes that the stealer took count from
    // now on as taken by the seat.
    fn join_stealer(&mut self, stealer: Stealer<N>)
        requires ours { stealer.deque ≡ self.old.worker.own.deque }
        requires made { 0 < self.old.worker.own.view.made }
        ensures joined { self.new ≡ joined self.old stealer }
    {
        self.worker.join_stealer(stealer);
    }
}

// Takes the last stealer of seat `i` away, and joins it into the seat whose deque it is on. Returns false, and changes
// nothing, if seat `i` has no stealer.
fn join_last_stealer<'p, N: Naming, J: Judge, G: Gate>(
    seats: &mut [PoolSeat<'p, N, J, G>],
    i: usize,
) -> bool
    requires inside { i < length seats.old }
    requires linked { AreLinked seats.old }
    ensures joins { IsTrue result → JoinsLast i seats.old seats.new }
    ensures none { IsFalse result → HasNoStealerAt i seats.old × (seats.new ≡ seats.old) }
{
    match seats[i].give_stealer() {
        Some(stealer) => {
            let owner = stealer.owner_number() as usize;
            seats[owner].join_stealer(stealer);
            true
        }
        None => false,
    }
}

// Takes every stealer of seat `i` away, and joins each into the seat whose deque it is on. The nodes that all seats
// together have taken are the same before and after, as multisets.
fn join_stealers_of_seat<'p, N: Naming, J: Judge, G: Gate>(
    seats: &mut [PoolSeat<'p, N, J, G>],
    i: usize,
)
    requires inside { i < length seats.old }
    requires linked { AreLinked seats.old }
    requires before { NoStealerBefore i seats.old }
    ensures linked { AreLinked seats.new }
    ensures joined { Joined seats.old seats.new }
    ensures before { NoStealerBefore (i + 1) seats.new }
{
    while join_last_stealer(seats, i) {}
}

/// Joins every stealer of all seats into the seat whose deque it is on. No seat has a stealer afterwards, so that each
/// owner alone knows all that was taken from its deque.
pub fn join_all_stealers<'p, N: Naming, J: Judge, G: Gate>(seats: &mut [PoolSeat<'p, N, J, G>])
    requires linked { AreLinked seats.old }
    ensures linked { AreLinked seats.new }
    ensures joined { Joined seats.old seats.new }
    ensures none { AllByRecursion HasNoStealer seats.new }
{
    for i in 0..seats.len() {
        join_stealers_of_seat(seats, i);
    }
}
