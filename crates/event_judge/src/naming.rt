// The search of which things are remembered.
use std::marker::Brand;

/// A name for the search of which things are remembered. A call of a program picks it.
pub trait Naming {
    ghost use Rattle.spec_searches.specs.Search.{Search};

    ghost search: { Search };
}

impl Naming for Brand {
    ghost use Rattle.event_judge.specs.Named.{no_search};

    ghost search = { no_search };
}
