// Laws of sets of coordinates, with a worked value. The calls do nothing when they run.

ghost use Rattle.std.specs.Prelude.{◌≡◌, ◌↔◌, IsTrue, true};
ghost use Rattle.spec_expressions.specs.declared.vectors.Vector.TheVariants.{Position, Velocity};
ghost use Rattle.spec_expressions.specs.Term.{Leaf, IsLeaf, Term, HasLeaves};
ghost use Rattle.spec_expressions.specs.Vectors.{dot};
ghost use Rattle.event_expr.specs.Leaves.{Names, no_axes, axes_of, has_leaf, leaves_of};

/// States that a coordinate is in the set of a term if the term names it, and only then.
pub fn sets_have_what_is_named()
    ensures { (e : Term) → HasLeaves e → (l : Leaf) → IsLeaf l
        → IsTrue (has_leaf (leaves_of e) l) ↔ Names e l }
{}

/// States that target 0's position dot target 1's velocity names all axes of both, and none of target 1's position.
pub fn dot_products_name_their_vectors()
    ensures position { axes_of (leaves_of (dot (Position 0) (Velocity 1))) (Position 0)
        ≡ record { x = true; y = true; z = true } }
    ensures velocity { axes_of (leaves_of (dot (Position 0) (Velocity 1))) (Velocity 1)
        ≡ record { x = true; y = true; z = true } }
    ensures others { axes_of (leaves_of (dot (Position 0) (Velocity 1))) (Position 1) ≡ no_axes }
{}
