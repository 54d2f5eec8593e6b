// Laws of lists of steps. Each is the contract of a function that does nothing.

ghost use Rattle.std.specs.Prelude.{◌≡◌, ◌<◌, ◌++◌, ◌∷◌, [], ℕ, List, length, slice_index_or};
ghost use Rattle.spec_steps.specs.declared.sights.Sight.{Sight};
ghost use Rattle.spec_steps.specs.declared.steps.Step.{Step};
ghost use Rattle.spec_steps.specs.Parts.{IsPart};
ghost use Rattle.spec_steps.specs.Steps.{AreParts, AreSteps, IsStep, IsStepOf, step_term, term_at, terms_of};

/// States that a list of steps stands for as many terms as it has steps, and that in a well made list each step stands
/// for its term, made of the terms of earlier steps.
pub fn steps_stand_for_terms()
    ensures count { (ss : List Step) → length (terms_of ss) ≡ length ss }
    ensures each { (ss : List Step) → AreSteps ss → (k : ℕ) → k < length ss → (d : Step)
        → IsStepOf (terms_of ss) k (slice_index_or ss k d) }
{}

/// States that a well made list stays so with one step more whose operands are earlier, that the terms of its steps
/// stay, that the last term is the new step's, and that all may be listed if the new one may.
pub fn one_step_more()
    ensures made { (ss : List Step) (s : Step) → AreSteps ss → IsStep (length ss) s
        → AreSteps (ss ++ s ∷ []) }
    ensures kept { (ss : List Step) (s : Step) (k : ℕ) → k < length ss
        → term_at (terms_of (ss ++ s ∷ [])) k ≡ term_at (terms_of ss) k }
    ensures last { (ss : List Step) (s : Step)
        → term_at (terms_of (ss ++ s ∷ [])) (length ss) ≡ step_term (terms_of ss) s }
    ensures parts { (sight : Sight) (ss : List Step) (s : Step) → AreParts sight (terms_of ss)
        → IsPart sight (step_term (terms_of ss) s) → AreParts sight (terms_of (ss ++ s ∷ [])) }
{}
