// The rule of Vickrey, Clarke and Groves over any bidders' alternatives, whatever the seller holds unsold units to be worth:
// definitions, and theorems about them. Where no lemma is named at a theorem, the search does not take it (tried), and an answer names it.
#![tactic(auto)]

ghost use Rattle.vcg.specs.Best.{OneChoice};
ghost use Rattle.vcg.specs.Certificates.{TableProof};
ghost use Rattle.vcg.specs.Charges.{ChargeLaw, ChargeAtMost, ChargeAtLeast, NothingForNothing};
ghost use Rattle.vcg.specs.Optimum.{OptimumIsMost, AwardIsFirstBest, OutcomeExactly};
ghost use Rattle.vcg.specs.Truth.{WorthExactly, Truthful, GrowthNeeded};

// The best worth is reached by a choice, and none is worth more.
#[tactic(auto, using(crate::proofs::Optimal::optimum_is_most))]
pub fn optimum_is_most_stands()
    ensures { OptimumIsMost }
{}

// The award is best, and the first of the best choices.
pub fn award_is_first_best_stands()
    ensures { AwardIsFirstBest }
{}

// Only one choice is both.
#[tactic(auto, using(crate::proofs::Order::one_choice))]
pub fn one_choice_stands()
    ensures { OneChoice }
{}

// An outcome is by the rule exactly if it is the one that is computed.
pub fn outcome_exactly_stands()
    ensures { OutcomeExactly }
{}

// A bidder's charge depends on the units that it gets and on the others' bids alone.
#[tactic(auto, using(crate::proofs::Rule::charge_law))]
pub fn charge_law_stands()
    ensures { ChargeLaw }
{}

// A charge is at most the stated worth of what was got.
#[tactic(auto, using(crate::proofs::Rule::charge_at_most))]
pub fn charge_at_most_stands()
    ensures { ChargeAtMost }
{}

// A charge is at least what the seller would keep with the units that were got, less what it keeps.
#[tactic(auto, using(crate::proofs::Rule::charge_at_least))]
pub fn charge_at_least_stands()
    ensures { ChargeAtLeast }
{}

// A bidder that gets nothing pays nothing.
#[tactic(auto, using(crate::proofs::Rule::nothing_for_nothing))]
pub fn nothing_for_nothing_stands()
    ensures { NothingForNothing }
{}

// What a bundle is worth by a bidder's alternatives is the highest that is stated for one within it.
pub fn worth_exactly_stands()
    ensures { WorthExactly }
{}

// No bids serve a bidder better than the true ones, where the seller's worth of units grows with them.
#[tactic(auto, using(crate::proofs::Rule::truthful))]
pub fn truthful_stands()
    ensures { Truthful }
{}

// Where it does not grow, they may.
#[tactic(auto, using(crate::proofs::Counterexamples::growth_needed))]
pub fn growth_needed_stands()
    ensures { GrowthNeeded }
{}

// A choice that reaches the first entry of a table that passes its own steps is best.
#[tactic(auto, using(crate::proofs::Certificate::table_proof))]
pub fn table_proof_stands()
    ensures { TableProof }
{}
