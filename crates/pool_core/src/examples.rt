// Worked values of the definitions, proved by computation. The calls do nothing when they run.
ghost use Rattle.std.specs.Prelude.{◌≡◌, pos, map, ◌∷◌, []};
ghost use Rattle.spec_trees.specs.Tree.{leaves};
ghost use Rattle.pool_core.specs.States.{opening};
ghost use Rattle.pool_core.specs.Tiling.{todo};
ghost use Rattle.pool_core.specs.Examples.{crossing, four_hundred};

/// States the leaves and the steps of one small tree. The root is from second 1339000 to 1339400, and a node that holds
/// second 1339200 is halved until it is no wider than 50 seconds. It has four leaves, which start at 1339000, 1339100,
/// 1339150 and 1339200, and a pool of two workers takes ten steps to enter them.
pub fn four_leaves_take_ten_steps()
    ensures leaves { map (λ l. l.node.a) (leaves crossing four_hundred)
        ≡ pos 1339000 ∷ pos 1339100 ∷ pos 1339150 ∷ pos 1339200 ∷ [] }
    ensures todo { todo crossing (opening four_hundred 2) ≡ 10 }
{}
