//! What is promised of the grammar.
ghost use Rattle.sentence.specs.Laws.{OneTree, TextOrRefused, NotBoth, OnePlace, SameSorts, StarRule, MachineTold, MachineTells, MachineBegins};

/// Sorts are written by one sentence at most.
pub fn law_of_spelling()
    ensures { OneTree }
{}

/// Any sorts are either a text or refused at one place.
pub fn law_of_refusal()
    ensures either { TextOrRefused }
    ensures apart { NotBoth }
    ensures once { OnePlace }
{}

/// What follows a star says whether it is the product or the closure.
pub fn law_of_stars()
    ensures same { SameSorts }
    ensures rule { StarRule }
{}

/// The machine tells a text's sentence and the place of a refusal.
pub fn law_of_machine()
    ensures told { MachineTold }
    ensures tells { MachineTells }
    ensures begins { MachineBegins }
{}
