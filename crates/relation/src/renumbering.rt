//! Renumbering: what is said of events does not hang on their numbers.
ghost use Rattle.relation.specs.Renumberings.{Renumbered};

/// A one-to-one renumbering of the events carries every operator and every check along.
pub fn law_of_renumbering()
    ensures { Renumbered }
{}
