// Why a supply or a reserve cannot be had.

// Why a supply cannot be sold.
#[derive(Clone, Copy, PartialEq, Eq, Debug)]
pub enum SupplyRefusal {
    // There are no lots, or more than twelve.
    LotCount,
    // This lot has no units, or more than 64, or with it there are more than 4,096 bundles.
    Lot(usize),
}

// Why a reserve is not taken: the price of this lot is above 1,000,000, or it is past the twelfth.
#[derive(Clone, Copy, PartialEq, Eq, Debug)]
pub struct ReserveRefusal {
    pub lot: usize,
}
