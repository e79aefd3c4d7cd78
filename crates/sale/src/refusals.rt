// Why a sale is not opened or closed, each with the place of the fault.
// Each case holds a place, 0 where it names none, so that one reading of the place serves all.

#[derive(Clone, Copy, PartialEq, Eq, Debug)]
pub enum OpeningRefusal {
    // There are no lots, or more than twelve.
    LotCount(usize),
    // This lot has no units, or more than 64, or with it there are more than 4,096 bundles.
    Supply(usize),
    // The reserve of this lot is above 1,000,000.
    Price(usize),
    // There are no farms, or more than 48.
    FarmCount(usize),
    // The account of this farm is above 1,000,000,000.
    Account(usize),
    // The company's account is above 10^15.
    Company(usize),
}

#[derive(Clone, Copy, PartialEq, Eq, Debug)]
pub enum ClosingRefusal {
    // The sale is closed already.
    Closed(usize),
    // A lent row has not the length it needs: the table (0), the row for the award (1) or that for the charges (2).
    Row(usize),
}
