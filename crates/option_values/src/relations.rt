// The relations of sets: which kinds of events have sets, which relations a kind has, and the names of both.
ghost use Rattle.std.specs.Prelude.{◌≡◌, Some};
ghost use Rattle.spec_requests.specs.Names.{relation_of};
ghost use Rattle.spec_requests.specs.Options.{has_relation, has_sets, is_to_two, relation_for, set_kind_of, use_of_ref2};

use crate::forms::{self, value_named};
use spec_kinds::{Kind, Use};
use spec_requests::{RELATIONS, Relation};

// Tells whether sets can be made of a kind of event, as of each that has neither a condition beside its function nor
// radii.
fn has_sets(kind: Kind) -> bool
    ensures { result ≡ has_sets kind }
{
    match kind {
        Kind::Conj => false,
        Kind::Oppo => false,
        _ => !kind.takes_radii(),
    }
}

// Tells whether a relation compares with two references, as `within` and `outside` do.
fn has_two_references(relation: Relation) -> bool
    ensures { result ≡ is_to_two relation }
{
    matches!(relation, Relation::Within | Relation::Outside)
}

// Tells whether sets of a kind of event can have a relation. One that compares with two references needs a kind that
// has a reference value.
fn has_relation(kind: Kind, relation: Relation) -> bool
    ensures { result ≡ has_relation kind relation }
{
    !has_two_references(relation) || !kind.reference().is_unused()
}

/// Returns the use that a relation has for the second reference, the option `ref2`: it is needed, or not used.
pub fn use_of_ref2(relation: Relation) -> Use
    ensures { result ≡ use_of_ref2 (Some relation) }
{
    if has_two_references(relation) {
        Use::Needed
    } else {
        Use::Unused
    }
}

/// Returns the kind of event of this name if sets can be made of it, else none.
pub(crate) fn set_kind_named(word: &str) -> Option<Kind>
    ensures { result ≡ set_kind_of word.now }
{
    match forms::kind_named(word) {
        Some(kind) if has_sets(kind) => Some(kind),
        _ => None,
    }
}

// Returns the relation of this name, for any kind of event, or none for any other word.
fn relation_named(word: &str) -> Option<Relation>
    ensures { result ≡ relation_of word.now }
{
    value_named(&RELATIONS, word)
}

/// Returns the relation of this name if sets of the kind of event can have it, else none.
pub(crate) fn relation_of_kind(kind: Kind, word: &str) -> Option<Relation>
    ensures { result ≡ relation_for kind word.now }
{
    match relation_named(word) {
        Some(relation) if has_relation(kind, relation) => Some(relation),
        _ => None,
    }
}
