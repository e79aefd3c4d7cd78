// What the refusals of other crates become here.
ghost use Rattle.std.specs.Prelude.{◌≡◌};
ghost use Rattle.sale.specs.Closing.{row_refused};
ghost use Rattle.sale.specs.Opening.{supply_refused, price_refused};

use crate::refusals::{ClosingRefusal, OpeningRefusal};
use award::AwardRefusal;
use bundle::{ReserveRefusal, SupplyRefusal};

impl From<SupplyRefusal> for OpeningRefusal {
    ghost from_gives = { λ e r. r ≡ supply_refused e };

    fn from(refusal: SupplyRefusal) -> OpeningRefusal {
        match refusal {
            SupplyRefusal::LotCount => OpeningRefusal::LotCount(0),
            SupplyRefusal::Lot(lot) => OpeningRefusal::Supply(lot),
        }
    }
}

impl From<ReserveRefusal> for OpeningRefusal {
    ghost from_gives = { λ e r. r ≡ price_refused e };

    fn from(refusal: ReserveRefusal) -> OpeningRefusal {
        OpeningRefusal::Price(refusal.lot)
    }
}

impl From<AwardRefusal> for ClosingRefusal {
    ghost from_gives = { λ e r. r ≡ row_refused e };

    fn from(refusal: AwardRefusal) -> ClosingRefusal {
        match refusal {
            AwardRefusal::Farms | AwardRefusal::Table => ClosingRefusal::Row(0),
            AwardRefusal::Award => ClosingRefusal::Row(1),
            AwardRefusal::Charges => ClosingRefusal::Row(2),
        }
    }
}
