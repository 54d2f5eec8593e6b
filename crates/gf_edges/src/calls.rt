// The calls of an object in memory, of which listed ones fail.
ghost use Rattle.std.specs.Prelude.{◌≡◌, ◌↔◌, IsErr, OnErr, OnOk};
ghost use Rattle.gf_edges.specs.Edges.{raised};
ghost use Rattle.gf_edges.specs.States.{IsToFail, RisesWhere};

use crate::Failed;

/// The number of calls so far, which of them fail, and the number of faults. Calls are numbered from 1, and both
/// counts stay at their last value.
#[derive(Drop)]
pub(crate) struct Calls {
    pub(crate) failing: Vec<u64>,
    pub(crate) made: u64,
    pub(crate) faults: u64,
}

impl Calls {
    /// Makes the counts of calls and of faults of an object in memory, both 0, with the numbers of the calls that are
    /// to fail, counted from 1.
    pub(crate) fn new(failing: Vec<u64>) -> Self
        ensures failing { result.failing ≡ failing }
        ensures made { result.made ≡ 0 }
        ensures faults { result.faults ≡ 0 }
    {
        Calls {
            failing,
            made: 0,
            faults: 0,
        }
    }

    /// Counts a call, at its start. If the call's number is listed as failing, counts a fault too and fails; the caller
    /// then passes the failure on. A count stays at 2^64 - 1 once it is there.
    pub(crate) fn count_call(&mut self) -> Result<(), Failed>
        ensures fails { IsErr result ↔ IsToFail self.old.failing.items self.old.made }
        ensures made { self.new.made ≡ raised self.old.made }
        ensures faults { RisesWhere (IsErr result) self.old.faults self.new.faults }
        ensures listed { OnErr result (IsToFail self.old.failing.items self.old.made) }
        ensures other { OnOk result (IsToFail self.old.failing.items self.old.made → ⊥) }
        ensures counts { RisesWhere (IsToFail self.old.failing.items self.old.made)
            self.old.faults self.new.faults }
        ensures failing { self.new.failing ≡ self.old.failing }
    {
        self.made = self.made.saturating_add(1);
        if self.failing.contains(&self.made) {
            self.count_fault();
            return Err(Failed);
        }
        Ok(())
    }

    /// Counts a fault. Neither wraps: a count of 2^64 - 1 stays.
    pub(crate) fn count_fault(&mut self)
        ensures faults { self.new.faults ≡ raised self.old.faults }
        ensures made { self.new.made ≡ self.old.made }
        ensures failing { self.new.failing ≡ self.old.failing }
    {
        self.faults = self.faults.saturating_add(1);
    }
}
