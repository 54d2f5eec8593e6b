// The judge of the nodes of a search.
ghost use Rattle.std.specs.Prelude.{◌≡◌};
ghost use Rattle.spec_trees.specs.Tree.{IsSound};
ghost use Rattle.spec_searches.specs.Found.{rules};

use crate::event_search::EventSearch;
use gf_hooks::Cutter;

/// A judge of a search's nodes by enclosures of the event's function and conditions, and the cutter of those it splits.
#[derive(Drop)]
pub struct EventJudge<'e> {
    pub search: EventSearch<'e>,
    pub cutter: Cutter,
    ghost same_rule: { cutter.rule ≡ search.cut },
    ghost sound: { IsSound (rules search) },
}
