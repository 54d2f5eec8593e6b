// What is found of a search.
use spec_trees::Leaf;
use still_judge::StillList;

/// The leaves that are found of a search, and the still spans by which they were found.
#[derive(Drop)]
pub(crate) struct Found {
    pub leaves: Vec<Leaf>,
    pub stills: StillList,
}
