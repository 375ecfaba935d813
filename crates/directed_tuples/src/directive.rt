// Directives.
use program_meaning::CollectedPlace;
use symbols::Listed;
use syntax_tree::TheoryName;

/// A directive at a relevant instance, with its tuples.
#[derive(Debug, PartialEq, Eq, Drop)]
pub struct Directive {
    pub name: TheoryName,
    pub places: Listed<CollectedPlace>,
}
