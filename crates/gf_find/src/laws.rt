// Laws of every run, proved for readers of the contract. The calls do nothing when they run.
ghost use Rattle.std.specs.Prelude.{◌≡◌, ◌⊎◌, Option, ℕ};
ghost use Rattle.spec_requests.specs.declared.request.Request.{Request};
ghost use Rattle.gf_edges.specs.Edges.{Files, Rose};
ghost use Rattle.spec_outcomes.specs.Outcomes.{Outcome};
ghost use Rattle.gf_find.specs.Outcomes.{Ask, HaveOutcome, Words, with_workers};
ghost use Rattle.gf_find.specs.Reported.{KnowsFiles};

/// States that words and files have only one outcome, a text or a cause of refusal, unless the shelf failed. The files
/// have to be known only if one is opened.
pub fn a_run_has_one_outcome()
    ensures { (words : Words) (files : Option Files) (before now : ℕ) (outcome other : Outcome)
        → KnowsFiles words files → HaveOutcome words files before now outcome
        → HaveOutcome words files before now other → Rose before now ⊎ (outcome ≡ other) }
{}

/// States that words that differ only in the number of workers have the same outcome.
pub fn the_number_of_workers_changes_no_byte()
    ensures { (words others : Words) (files : Option Files) (before now count : ℕ)
        (request : Request) (outcome : Outcome)
        → Ask words request → Ask others (with_workers count request)
        → HaveOutcome words files before now outcome
        → HaveOutcome others files before now outcome }
{}
