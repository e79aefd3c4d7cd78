// Theorems about sales at reserve prices.
// Where no lemma is named here, the search does not take it (tried), and an answer names it.
ghost use Rattle.award.specs.Promises.{SaleIsSettled, ChargeCoversReserve, TrueSheetIsBest};
ghost use Rattle.award.specs.Samples.{SamplesComeOut};

// The outcome of a sale is by the rule.
pub fn sale_is_settled_stands()
    ensures { SaleIsSettled }
{}

// A charge is at least the reserve of the units that the farm gets.
#[tactic(auto, using(crate::proofs::Reserves::charge_covers_reserve))]
pub fn charge_covers_reserve_stands()
    ensures { ChargeCoversReserve }
{}

// No sheet serves a farm better than the true one, whatever the others write.
#[tactic(auto, using(crate::proofs::Reserves::true_sheet_is_best))]
pub fn true_sheet_is_best_stands()
    ensures { TrueSheetIsBest }
{}

// The sample sales come out as they are written down.
#[tactic(auto, using(crate::proofs::Samples::samples_come_out))]
pub fn samples_come_out_stands()
    ensures { SamplesComeOut }
{}
