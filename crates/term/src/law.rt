//! What holds of kinds and recursion, in rules and relations.
ghost use Rattle.term.specs.Laws.{LeastIsLowest, RulesOfKinds, DeniedNames};

/// The place that is computed for some places is the lowest of them.
pub fn law_of_least()
    ensures { LeastIsLowest }
{}

/// A term whose names are all known has no fault exactly where the rules give it a kind, and then it has that one.
pub fn law_of_kinds()
    ensures { RulesOfKinds }
{}

/// A name of a group is at fault in a term of it exactly where it stands under `~` or right of `\`, at any depth.
pub fn law_of_denial()
    ensures { DeniedNames }
{}
