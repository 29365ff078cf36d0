//! What holds of names, places and limits, in relations.
ghost use Rattle.cat.specs.Bounds.{ReadsBounded};
ghost use Rattle.cat.specs.Laws.{LatestBinding, GivenOnce, PlacesRise, PlacesWithin, LowestHasLowestPlace};

/// A name means its latest binding.
pub fn law_of_latest()
    ensures { LatestBinding }
{}

/// A given name stands for one thing.
pub fn law_of_given()
    ensures { GivenOnce }
{}

/// Places rise from token to token and stay within the text, so the lowest token at fault has the lowest place.
pub fn law_of_places()
    ensures rise { PlacesRise }
    ensures within { PlacesWithin }
    ensures lowest { LowestHasLowestPlace }
{}

/// A text that is read has at most 64 bindings and 16 checks.
pub fn law_of_limits()
    ensures { ReadsBounded }
{}
