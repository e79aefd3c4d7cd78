// Theorems about supplies and places.
// Where no lemma is named here, the search does not take it (tried), and an answer names it.
ghost use Rattle.bundle.specs.Supplies.{SoldExactly};
ghost use Rattle.bundle.specs.Units.{PlacesMetOnce, PlacesBelow, PlaceOfDifference, NextPlace};

// A supply is taken exactly if it has 1 to 12 lots, 1 to 64 units of each, and at most 4,096 bundles.
#[tactic(auto, using(crate::proofs::Supplies::sold_exactly))]
pub fn sold_exactly_stands()
    ensures { SoldExactly }
{}

// Each place below the number of bundles is met by exactly one bundle within the supply.
pub fn places_met_once_stands()
    ensures { PlacesMetOnce }
{}

// Each bundle within the supply has such a place.
#[tactic(auto, using(crate::proofs::Bundles::place_below))]
pub fn places_below_stands()
    ensures { PlacesBelow }
{}

// To take a bundle away that fits subtracts its place.
pub fn place_of_difference_stands()
    ensures { PlaceOfDifference }
{}

// The next bundle is the one at the next place.
#[tactic(auto, using(crate::proofs::Bundles::next_place))]
pub fn next_place_stands()
    ensures { NextPlace }
{}
